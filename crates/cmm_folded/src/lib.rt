//! Flows with their constants folded: that they are the same machine as the flows, and have all that the layers above use of these.
//!
//! `cmm_fold` says what folding does to a graph; this layer joins it to what `cmm_flow` says of graphs as they are made. It has laws alone.
//!
//! - `laws`: each the contract of a function that does nothing.
#![tactic(auto)]

pub mod laws;
