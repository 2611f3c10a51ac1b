//! The nodes of a graph (C-- Language Specification 2.0, statements; Ramsey and Peyton Jones, PLDI 2000, the flow graph).

use crate::number::{ContinuationId, NodeId, SiteId, Variable};
use crate::operand::{Argument, Comparison, Destination, Operand, Rvalue};
use cmm_items::{Boxed, Items};
use cmm_program::{Range, Target};
use cmm_words::Width;

/// Where control may go on behind a call site. What an exit brings is taken by the CopyIn to which it leads.
pub struct Exits {
    /// The CopyIn of the normal exit; none at a site that never returns.
    pub normal: Option<NodeId>,
    /// The continuations of its alternate exits.
    pub returns: Items<ContinuationId>,
    /// The continuations of its unwind exits.
    pub unwinds: Items<ContinuationId>,
    /// The continuations to which it may be cut.
    pub cuts: Items<ContinuationId>,
}

/// In one place, so that whoever lets one go has one call to prove.
impl Drop for Exits {
    fn drop(self) {
        let Self {
            normal: _,
            returns: _,
            unwinds: _,
            cuts: _,
        } = self;
    }
}

/// An arm of a switch: the node for the values in some ranges.
pub struct Arm {
    pub ranges: Items<Range>,
    pub to: NodeId,
}

/// In one place, so that whoever lets one go has one call to prove.
impl Drop for Arm {
    fn drop(self) {
        let Self { ranges: _, to: _ } = self;
    }
}

/// A foreign call.
#[derive(Clone, Copy)]
pub enum HostCall {
    /// Writes the low byte of a value to the output.
    PutByte(Operand),
    /// Reads a byte of the input; all ones at its end.
    GetByte(Target),
}

/// A node.
pub struct Node {
    /// The count of its tokens, of which each node has one at least. It bounds the instructions of its code.
    pub tokens: u32,
    pub kind: NodeKind,
}

/// In one place, so that whoever lets one go has one call to prove.
impl Drop for Node {
    fn drop(self) {
        let Self { tokens: _, kind: _ } = self;
    }
}

/// What a node is. A step goes to `next`, where a kind has it.
///
/// Who leaves a procedure or a site names the values that it passes; there is no node before it that puts them
/// somewhere. Who arrives takes them in an Entry or a CopyIn.
#[derive(Drop)]
pub enum NodeKind {
    /// A new activation begins: the formals take the arguments, and the other variables are 0.
    Entry {
        formals: Items<Variable>,
        next: NodeId,
    },
    /// Variables and global registers take what an exit of a site brings.
    CopyIn {
        to: Items<Target>,
        next: NodeId,
    },
    Assign {
        to: Destination,
        value: Rvalue,
        next: NodeId,
    },
    /// Stores a word of this width at an address, which is to be a multiple of `aligned` bytes.
    Store {
        width: Width,
        aligned: u32,
        address: Operand,
        value: Operand,
        next: NodeId,
    },
    /// Goes to `then` where the comparison holds, and otherwise to `otherwise`.
    Branch {
        test: Comparison,
        then: NodeId,
        otherwise: NodeId,
    },
    /// Goes to the first arm that is for the value, and to `otherwise` where none is.
    Switch {
        value: Operand,
        arms: Items<Arm>,
        otherwise: NodeId,
    },
    /// A call of a procedure.
    Call {
        site: SiteId,
        callee: Operand,
        arguments: Items<Argument>,
        exits: Boxed<Exits>,
    },
    /// A call of the run-time system.
    Yield {
        site: SiteId,
        values: Items<Operand>,
        exits: Boxed<Exits>,
    },
    /// A tail call.
    Jump {
        callee: Operand,
        arguments: Items<Argument>,
    },
    /// A cut to a continuation value. `own` has the continuations of its own activation that it may go to.
    Cut {
        to: Operand,
        arguments: Items<Argument>,
        own: Items<ContinuationId>,
    },
    /// A return by the exit `exit` of a site with `alternates` alternate exits, which are counted from 0; the normal
    /// exit is the one after them.
    Return {
        exit: u32,
        alternates: u32,
        results: Items<Argument>,
    },
    Host {
        call: HostCall,
        next: NodeId,
    },
    /// Goes on at `next` and does nothing: a statement without an effect, or a label, where the ways of several
    /// statements meet.
    Goto {
        next: NodeId,
    },
    /// The end of a body, where a run goes wrong.
    Stop,
}
