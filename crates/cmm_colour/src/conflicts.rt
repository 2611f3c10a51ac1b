//! Conflicts.

ghost use Rattle.std.specs.Prelude.{◌≡◌, ◌≢◌, ◌<◌, ◌^◌, [], IfOk, OnOk, OnErr, length, replicate};
ghost use Rattle.cmm_colour.specs.Graphs.{IsUndirected, joined, row};

use cmm_items::Items;
use std::alloc::{AllocError, Global};
use std::marker::Model;

/// Which nodes, numbers below a count, conflict: for each those that were joined to it, as often as they were.
#[derive(Drop)]
pub struct Conflicts {
    rows: Vec<Items<u32>>,
}

impl Model for Conflicts {
    ghost use Rattle.std.specs.Prelude.{List, ℕ};
    ghost use Rattle.cmm_colour.specs.Graphs.{IsUndirected};

    ghost Value = { List (List ℕ) };

    ghost view = { λ c. c.rows.items };

    ghost invariant = { λ c. IsUndirected c.rows.items };
}

impl Conflicts {
    /// None, of nodes below a count. An error is want of memory.
    pub fn new(alloc: Global, nodes: u32) -> Result<Conflicts, AllocError>
        ensures { IfOk result (λ c. c ≡ replicate nodes []) }
    {
        let mut rows = Vec::with_capacity(alloc, nodes as usize)?;
        for _ in 0..nodes {
            rows.push(Items::new(alloc))?;
        }
        Ok(Conflicts { rows })
    }

    /// How many nodes there are.
    pub fn count(&self) -> u32
        ensures { result ≡ length self.now }
    {
        self.rows.len() as u32
    }

    /// Joins two nodes, which may be joined already. An error is want of memory, and nothing is joined then.
    pub fn add(&mut self, a: u32, b: u32) -> Result<(), AllocError>
        requires first { a < length self.old }
        requires second { b < length self.old }
        requires different { a ≢ b }
        ensures ok { OnOk result (self.new ≡ joined a b self.old) }
        ensures err { OnErr result (self.new ≡ self.old) }
    {
        self.rows[a as usize].push(b)?;
        if self.rows[b as usize].push(a).is_err() {
            self.rows[a as usize].pop();
            return Err(AllocError);
        }
        Ok(())
    }

    /// The nodes that were joined to a node.
    pub fn neighbours(&self, node: u32) -> &[u32]
        requires { node < length self.now }
        ensures { result.now ≡ row self.now node }
    {
        self.rows[node as usize].as_slice()
    }

    /// Those of all nodes.
    pub(crate) fn rows(&self) -> &[Items<u32>]
        ensures rows { result.now ≡ self.now }
        ensures undirected { IsUndirected self.now }
    {
        self.rows.as_slice()
    }
}
