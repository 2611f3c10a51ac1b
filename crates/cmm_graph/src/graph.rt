//! A graph: its nodes, and where the landings of its continuations stand.

use crate::node::Node;
use crate::number::NodeId;
use cmm_items::Items;

/// The graph of a procedure.
pub struct Graph {
    /// How many variables the procedure has.
    pub variables: u32,
    /// How many temporaries the graph adds.
    pub temporaries: u32,
    pub nodes: Items<Node>,
    /// The Entry.
    pub first: NodeId,
    /// The CopyIn of each continuation of the procedure, which serves all exits that lead to it.
    pub continuations: Items<NodeId>,
}

/// In one place, so that whoever lets one go has one call to prove.
impl Drop for Graph {
    fn drop(self) {
        let Self {
            variables: _,
            temporaries: _,
            nodes: _,
            first: _,
            continuations: _,
        } = self;
    }
}
