//! Colouring of conflicts: which nodes may not have one colour, and colours for as many nodes as peel away.
//!
//! Two worklists have the nodes that are still there: those with fewer neighbours left than there are colours, and the others. A node of
//! the first list can always be coloured behind all that are left, so it goes first. When none is left there, nothing peels any more, and
//! the node goes that has the most conflicts for its uses. Colours are then chosen from the last node that went back to the first. So every
//! node that peels gets a colour, and time is linear in the conflicts, but for one sort of the nodes that do not peel.
//!
//! - `conflicts`: conflicts of nodes. `colouring`: the call `colour`. `hints`: what else is known of nodes. `laws`: what
//!   joining two nodes does.
//! - `simple`: each neighbour of a node once. `worklists`: the lists of the nodes that are left. `candidates`: which of them goes where
//!   nothing peels. `removing`: the order in which nodes are removed. `choosing`: the colour of each node, the last removed first.
#![tactic(auto)]

mod candidates;
mod choosing;
mod colouring;
mod conflicts;
mod hints;
pub mod laws;
mod removing;
mod simple;
mod worklists;

pub use colouring::{Colours, colour};
pub use conflicts::Conflicts;
pub use hints::Hint;
