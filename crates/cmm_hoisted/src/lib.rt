//! Folded flows with their constants hoisted: that they do what the C-- machine does, and have all that the layers above use of flows.
//!
//! `cmm_hoist` says what hoisting does to a graph; this layer joins it to what `cmm_folded` says of folded flows. It has laws alone.
//!
//! - `laws`: each the contract of a function that does nothing.
#![tactic(auto)]

pub mod laws;
