//! A graph that is being made.
//!
//! Nodes are only ever added, each behind those to which it leads, so that what was laid stays as it is. The nodes that are
//! led to before it is known where they lead, those of labels and of continuations, have the first numbers and are
//! made last.

ghost use Rattle.std.specs.Prelude.{◌≡◌, suc, ◌+◌, IfOk, length, min};
ghost use Rattle.cmm_flow.specs.inside.Laying.{LaysMarked, LaysNode, SetsMark};
ghost use Rattle.cmm_program.specs.declared.statement.Form.TheVariants.{Label, Continuation};

use cmm_graph::{Node, NodeId, NodeKind};
use cmm_items::Items;
use std::alloc::{AllocError, Global};

/// The nodes of a body, so far.
#[derive(Drop)]
pub struct Builder {
    pub alloc: Global,
    /// Where each label leads.
    pub labels: Items<NodeId>,
    /// Where each continuation leads.
    pub continuations: Items<NodeId>,
    /// The number of the Stop, which is how many nodes stand in front: one for each label, one for labels that the body
    /// lacks, and one for each continuation.
    pub stop: NodeId,
    /// The nodes from the Stop on.
    pub nodes: Items<Node>,
}

/// A count as a number of 32 bits. More things than that do not fit in memory.
pub fn as_number(count: usize) -> Result<u32, AllocError>
    ensures { IfOk result (λ n. n ≡ count) }
{
    match u32::try_from(count) {
        Ok(number) => Ok(number),
        Err(_) => Err(AllocError),
    }
}

/// The number after one.
pub fn following(number: u32) -> Result<u32, AllocError>
    ensures { IfOk result (λ n. n ≡ suc number) }
{
    match number.checked_add(1) {
        Some(next) => Ok(next),
        None => Err(AllocError),
    }
}

/// The sum of two numbers.
fn sum(a: u32, b: u32) -> Result<u32, AllocError>
    ensures { IfOk result (λ n. n ≡ a + b) }
{
    match a.checked_add(b) {
        Some(sum) => Ok(sum),
        None => Err(AllocError),
    }
}

impl Builder {
    /// Adds a node, and answers its number.
    pub fn push(&mut self, tokens: u32, kind: NodeKind) -> Result<NodeId, AllocError>
        ensures { IfOk result (λ n. LaysNode record { tokens = tokens; kind = kind } self.old self.new n) }
    {
        let number = sum(self.stop.number, as_number(self.nodes.len())?)?;
        self.nodes.push(Node { tokens, kind })?;
        Ok(NodeId { number })
    }

    /// The node of a label, at which a `goto` begins.
    pub fn label(&self, label: u32) -> Result<NodeId, AllocError>
        ensures { IfOk result (λ n. n ≡ record { number = min label (length self.now.labels) }) }
    {
        if (label as usize) < self.labels.len() {
            Ok(NodeId { number: label })
        } else {
            Ok(NodeId {
                number: as_number(self.labels.len())?,
            })
        }
    }

    /// Notes that a label leads to a node. One that the body lacks is left out.
    pub fn mark_label(&mut self, label: u32, to: NodeId)
        ensures marks { LaysMarked self.old self.new (λ nodes. Unit {0}) (λ nodes. SetsMark (Label label) to) }
        ensures nodes { self.new.nodes ≡ self.old.nodes }
    {
        if (label as usize) < self.labels.len() {
            self.labels.set(label as usize, to);
        }
    }

    /// Notes that a continuation leads to a node.
    pub fn mark_continuation(&mut self, continuation: u32, to: NodeId)
        ensures marks { LaysMarked self.old self.new (λ nodes. Unit {0}) (λ nodes. SetsMark (Continuation continuation) to) }
        ensures nodes { self.new.nodes ≡ self.old.nodes }
    {
        if (continuation as usize) < self.continuations.len() {
            self.continuations.set(continuation as usize, to);
        }
    }
}
