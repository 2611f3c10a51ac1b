//! Lists whose links are numbers in tables.

ghost use Rattle.std.specs.Prelude.{◌≡◌, ◌↔◌, ◌<◌, ◌++◌, ◌∷◌, [], ℕ, Some, true, false, IfOk, is_some, length, replicate, map, slice_set};
ghost use Rattle.cmm_ilist.specs.NodeLists.{AreApart, after_in, front_of, has, is_in_some, list_at, without};

use crate::linking::{no_entries, set_either};
use std::alloc::{AllocError, Global};
use std::marker::Model;

/// Lists of nodes, which are numbers below a count. Each node is in at most one of them.
#[derive(Drop)]
pub struct Lists {
    /// The list of each node.
    owner: Vec<Option<u32>>,
    /// The node before each node in its list, and that behind it.
    before: Vec<Option<u32>>,
    after: Vec<Option<u32>>,
    /// The first and the last node of each list.
    first: Vec<Option<u32>>,
    last: Vec<Option<u32>>,
}

impl Model for Lists {
    ghost use Rattle.std.specs.Prelude.{length};
    ghost use Rattle.cmm_ilist.specs.NodeLists.{NodeLists};
    ghost use Rattle.cmm_ilist.specs.inside.Linked.{AreLinked, Tables, lists_of};

    ghost Value = { NodeLists };

    ghost view = { λ l. record { nodes = length l.owner.items; lists = lists_of (length l.owner.items) l.after.items l.first.items } };

    ghost invariant = { λ l. AreLinked (record { owner = l.owner.items; before = l.before.items; after = l.after.items; first = l.first.items; last = l.last.items })
        (lists_of (length l.owner.items) l.after.items l.first.items) };
}

impl Lists {
    /// So many lists, all empty, for nodes below a count. An error is want of memory.
    pub fn new(alloc: Global, nodes: u32, lists: u32) -> Result<Lists, AllocError>
        ensures { IfOk result (λ l. l ≡ record { nodes = nodes; lists = replicate lists [] }) }
    {
        let owner = no_entries(alloc, nodes)?;
        let before = no_entries(alloc, nodes)?;
        let after = no_entries(alloc, nodes)?;
        let first = no_entries(alloc, lists)?;
        let last = no_entries(alloc, lists)?;
        Ok(Lists {
            owner,
            before,
            after,
            first,
            last,
        })
    }

    /// How many nodes there are, in lists or not. Each stands in one list at most, and there once.
    pub fn node_count(&self) -> usize
        ensures count { result ≡ self.now.nodes }
        ensures apart { AreApart self.now }
    {
        self.owner.len()
    }

    /// How many lists there are.
    pub fn list_count(&self) -> usize
        ensures { result ≡ length self.now.lists }
    {
        self.first.len()
    }

    /// The first node of a list, if it is not empty.
    pub fn front(&self, list: u32) -> Option<u32>
        requires { list < length self.now.lists }
        ensures { result ≡ front_of (list_at self.now.lists list) }
    {
        self.first[list as usize]
    }

    /// The node behind a node in its list, if it is not the last.
    pub fn after(&self, node: u32) -> Option<u32>
        requires { is_in_some node self.now.lists ≡ true }
        ensures { (k : ℕ) → has node (list_at self.now.lists k) ≡ true → result ≡ after_in node (list_at self.now.lists k) }
    {
        self.after[node as usize]
    }

    /// The list in which a node is, if it is in one.
    pub fn list_of(&self, node: u32) -> Option<u32>
        requires { node < self.now.nodes }
        ensures list { (k : ℕ) → (result ≡ Some k) ↔ (has node (list_at self.now.lists k) ≡ true) }
        ensures some { is_some result ≡ is_in_some node self.now.lists }
    {
        self.owner[node as usize]
    }

    /// Puts a node, which is in no list, at the end of one.
    pub fn push_back(&mut self, list: u32, node: u32)
        requires list { list < length self.old.lists }
        requires node { node < self.old.nodes }
        requires free { is_in_some node self.old.lists ≡ false }
        ensures nodes { self.new.nodes ≡ self.old.nodes }
        ensures lists { self.new.lists ≡ slice_set self.old.lists list (list_at self.old.lists list ++ node ∷ []) }
    {
        let end = self.last[list as usize];
        set_either(&mut self.after, end, &mut self.first, list, Some(node));
        self.owner[node as usize] = Some(list);
        self.before[node as usize] = end;
        self.after[node as usize] = None;
        self.last[list as usize] = Some(node);
    }

    /// Takes a node out of its list. The others keep their order.
    pub fn unlink(&mut self, node: u32)
        requires { is_in_some node self.old.lists ≡ true }
        ensures nodes { self.new.nodes ≡ self.old.nodes }
        ensures lists { self.new.lists ≡ map (without node) self.old.lists }
    {
        let Some(list) = self.owner[node as usize] else {
            return;
        };
        let before = self.before[node as usize];
        let after = self.after[node as usize];
        set_either(&mut self.after, before, &mut self.first, list, after);
        set_either(&mut self.before, after, &mut self.last, list, before);
        self.owner[node as usize] = None;
    }
}
