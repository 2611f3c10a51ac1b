//! Directed graphs: an order in which what a node mentions comes first, and the nodes on cycles.
//!
//! `peel` answers an order in which each node comes after all that it mentions, as long as there can be one, and the nodes that are left over because they are
//! on a cycle or lead to one (Kahn's topological order). `on_cycles` tells of each node whether it leads back to itself: one search answers for all of them,
//! and keeps a stack of its own, so a graph may be as deep as it likes. `specs/Peeled` and `specs/Reaching` say what that is. Time and memory are linear in the
//! nodes and their mentions, whatever the graph looks like.
//!
//! - `peeling`: the call `peel`. `waiting`: how many mentions each node waits for. `users`: who mentions a node.
//! - `cycles`: the call `on_cycles`. `search`: the search, depth first. `components`: nodes that lead to one another.
#![tactic(auto)]

mod components;
mod cycles;
mod peeling;
mod search;
mod users;
mod waiting;

pub use cycles::on_cycles;
pub use peeling::{Peeled, is_graph, peel};
