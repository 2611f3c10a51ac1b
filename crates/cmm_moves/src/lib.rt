//! Moves between places that are done at once, as a sequence of single moves.
//!
//! The values of a call, a return or a jump go to their places all at once: a place may be read by one move and written by another. `sequence`
//! gives an order in which they are done one by one, by following each chain of moves to its end, and breaks each cycle by way of a scratch
//! place. What places and values are is no matter here.
//!
//! - `sequencing`: the call `sequence`, and `Move`. `chain`: one chain. `waiting`: the moves that no
//!   chain has reached. `conditions`: what `sequence` asks, as tests.
#![tactic(auto)]

mod chain;
mod conditions;
mod sequencing;
mod waiting;

pub use conditions::{are_apart, is_mentioned};
pub use sequencing::{Move, sequence};
