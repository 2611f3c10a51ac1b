//! A list of nodes that are still to be looked at.

ghost use Rattle.std.specs.Prelude.{◌≡◌, ◌<◌, ◌≤◌, ◌+◌, ◌-◌, if◌then◌else◌, ◌++◌, ◌∷◌, [], false, true, All, IfOk, MatchOption, OnOk, length, replicate, slice_set};
ghost use Rattle.cmm_live.specs.inside.Worklists.{IsList, Woken};

use std::alloc::{AllocError, Global};

/// Nodes by their index. The one that was added last comes first, and a node that waits is not added again.
#[derive(Drop)]
pub struct Worklist {
    pub nodes: Vec<usize>,
    /// For each node of the graph, whether it waits in the list.
    pub waits: Vec<bool>,
}

/// The node that is put at an index into a list of all of `count` nodes: each in its order, or from the last on.
fn nth(index: usize, count: usize, ascending: bool) -> usize
    requires { index < count }
    ensures { result ≡ (if ascending then index else (count - 1 - index)) }
{
    if ascending { index } else { count - 1 - index }
}

impl Worklist {
    /// All of `count` nodes. The last comes first, or else the first.
    pub fn of_all(alloc: Global, count: usize, last_first: bool) -> Result<Worklist, AllocError>
        ensures { IfOk result (λ list. IsList list.nodes.items list.waits.items × (list.waits.items ≡ replicate count true)) }
    {
        let mut nodes = Vec::new(alloc);
        for index in 0..count {
            nodes.push(nth(index, count, last_first))?;
        }
        let waits = vec![in alloc; true; count]?;
        Ok(Worklist { nodes, waits })
    }

    /// The next node, which waits no longer, if there is one.
    pub fn next(&mut self) -> Option<usize>
        requires { IsList self.old.nodes.items self.old.waits.items }
        ensures list { IsList self.new.nodes.items self.new.waits.items }
        ensures next { MatchOption result
            ((self.old.nodes.items ≡ []) × (self.new.waits.items ≡ self.old.waits.items))
            (λ node. (node < length self.old.waits.items) × (self.old.nodes.items ≡ self.new.nodes.items ++ node ∷ [])
            × (self.new.waits.items ≡ slice_set self.old.waits.items node false)) }
    {
        let node = self.nodes.pop()?;
        self.waits[node] = false;
        Some(node)
    }

    /// Lets some nodes wait.
    pub fn add_all(&mut self, nodes: &[usize]) -> Result<(), AllocError>
        requires list { IsList self.old.nodes.items self.old.waits.items }
        requires within { All (λ node. node < length self.old.waits.items) nodes.now }
        ensures list { OnOk result (IsList self.new.nodes.items self.new.waits.items) }
        ensures woken { OnOk result (Woken self.old.waits.items self.new.waits.items nodes.now) }
        ensures bound { OnOk result (length self.new.nodes.items ≤ length self.old.nodes.items + length nodes.now) }
    {
        for node in nodes {
            if !self.waits[*node] {
                self.nodes.push(*node)?;
                self.waits[*node] = true;
            }
        }
        Ok(())
    }
}
