//! The graph of a procedure, and the machine that goes over it.
//!
//! A graph is a procedure of a program whose statements have become nodes: no node holds another, an operator is a node of
//! its own, and what a node needs are operands, each a constant, an address or a local. A local is a variable of the
//! procedure, or a temporary, which the graph adds. Each node names the nodes to which it leads. This layer has the graphs
//! and the test of their ranges, `Graph::valid`, and, in `specs/`, what they mean: the graph machine, which is the C--
//! machine with nodes in place of statements, over the same store; the paths of a graph and which locals are live on them;
//! and when a graph has the sites, continuations and variables of its procedure. A node's meaning is given once, for any
//! way of keeping locals, so that a machine with places in place of variables does the same orders.
//!
//! - `number`: the numbers by which a graph names things, each of its own type.
//! - `operand`: operands, and what an assignment computes.
//! - `node`: the nodes.
//! - `graph`: a graph.
//! - `paths`: where the nodes of a graph lead, and which locals they read and write.
//! - `validity`: the test of ranges.
//! - `laws`: what the layers above use of the paths of a graph, as contracts.
#![tactic(auto)]

mod graph;
pub mod laws;
mod node;
mod number;
mod operand;
mod paths;
mod validity;

pub use graph::Graph;
pub use node::{Arm, Exits, HostCall, Node, NodeKind};
pub use number::{ContinuationId, NodeId, Register, SiteId, StackLabel, Temporary, Variable};
pub use operand::{Argument, Comparison, Destination, Local, Operand, Rvalue};
