//! Which locals are live where, as sets.
//!
//! A local is live before a node of a graph where some path from there reads it before anything writes it (`specs/Liveness` of
//! `cmm_graph`). `liveness` gives the set of the live locals before each node, at each call site and on the cut exits of each: just those,
//! in both directions (`specs/Exact`). `liveness_of_all` does so for all graphs of a program. Contracts see a set as a list of truth values; a local has the number `number_of`.
//! `interference` joins just the locals that may not share a place (`specs/Conflicts`), by their numbers.
//!
//! Each node has an equation: before it is live what it reads, and what is live before a successor and not written. The sets start empty
//! and grow to the least that solve all equations. A worklist holds each node whose equation may not hold yet; it ends since a set can
//! grow only as often as it has numbers.
//!
//! - `live_sets`: the sets, `liveness` and `liveness_of_all`.
//! - `locals`: the numbers of locals, and marks for many at once.
//! - `equation`: the right side of a node's equation.
//! - `predecessors`: which nodes lead to a node.
//! - `worklist`: the nodes that are still to be looked at.
//! - `fixed_point`: the least sets that solve the equations.
//! - `sites`: from sets before nodes to those of call sites.
//! - `conflict_graph`: the graph of the locals that conflict.
//! - `laws`: what a layer that gives locals places requires of a liveness.
#![tactic(auto)]

mod conflict_graph;
mod equation;
mod fixed_point;
pub mod laws;
mod live_sets;
mod locals;
mod predecessors;
mod sites;
mod worklist;

pub use conflict_graph::{interference, interference_within, interference_within_both};
pub use live_sets::{LiveSets, liveness, liveness_of_all};
pub use locals::number_of;
