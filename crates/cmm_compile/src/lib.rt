//! From the bytes of units to the image of their program.
//!
//! This is the only place that joins the passes. `compile` promises that the image agrees with the units, and `compile_program`, which gives the program too, that it agrees with this: run for any script of the client, any input,
//! stack and count of instructions, it does what the C-- machine does on their program, and nothing else, within the step factor of the program; every walk that the client is shown is the machine's walk. Units that are refused
//! break a rule.
//!
//! - `compiling`: `compile` and `compile_program`, and the passes in their order.
//! - `laws`: the theorems of the passes, composed.
//! - `fault`: why units have no image.
//!
//! `specs/Agreement` says what it is that an image agrees with units, and `specs/Refusing` when they are refused.
#![tactic(auto)]

mod compiling;
mod fault;
mod laws;

pub use compiling::{Compiled, compile, compile_program};
pub use fault::BuildFault;
