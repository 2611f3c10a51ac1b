//! The client of a stopped program: what a script does at a yield.
//!
//! This layer promises that the client's answer is the definition's (`cmm_program.specs.Commands`, over an image), for every image, registers,
//! memory and script, hostile ones too: the same changes, the same refusals in their order, the same lines in the log, written as they come. Where
//! a write fails in mid-answer, a front of the lines stands in the log, and the run is over. No call takes memory.
//!
//! A command is asked first, and then it is said in the log what came of it, so that no command knows of the log but the walk:
//!
//! - `stopped`: a stopped program, and the two accessors by one of which a command takes its thread. `cursor`: what the client looks at.
//! - `given`: the numbers that a command is given.
//! - `looking`: commands that look at activations. `changing`: commands that change the program, or let it go on.
//! - `command`: one command of the twelve, a row each. `reply`: what comes of it.
//! - `saying`: the lines of a reply, and where the client stands behind it.
//! - `values`: the values of a yield. `block`: the block that answers them.
//! - `yielding`: a yield: its values, its line, and the commands one after the other. `laws`: that this is what an image does at a yield.
//!
//! `specs/Yields` says what a yield comes to, `specs/Stops` which state of the definition a stopped program is.
#![tactic(auto)]

mod block;
mod changing;
mod command;
mod cursor;
mod given;
pub mod laws;
mod looking;
mod reply;
mod saying;
mod stopped;
mod values;
mod yielding;

pub use cursor::Cursor;
pub use stopped::{Stopped, Thread};
pub use yielding::{Left, answer_values, answer_yield};
