//! The rules that a unit, an image, a script or a client's command can break, by the numbers and texts that users see.
//!
//! Every message of the program about its input names one of these. This layer promises that each rule has one number and each number at most
//! one rule, and `specs/Rules` has both with the text and the phase of each.
//!
//! - `rule`: `Rule`, with its number, text and phase, and `Phase`.
//! - `laws`: numbers tell rules apart.
#![tactic(auto)]

pub mod laws;
mod rule;

pub use rule::{Phase, Rule};
