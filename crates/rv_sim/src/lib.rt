//! One instruction of RV64IM, done to registers and memory.
//!
//! The layer promises that `step` is the definition `rv_table.specs.Machine.instruction_step`: the word at pc is fetched and
//! decoded, and what its row asks for is done, or the step ends in a request or in a trap and changes nothing. It takes no memory
//! and makes no table. `Decoded` is such a table: it has what `step` would fetch and decode at each address. `run` does by it as many steps as
//! are allowed, up to the first one that ends in a request or in a trap.
//!
//! - `event`: what a step ends in.
//! - `instruction`: `step`, `execute` and their parts.
//! - `decoded`: `Decoded`.
//! - `running`: many instructions, by a table.
#![tactic(auto)]

mod decoded;
mod event;
mod instruction;
mod running;

pub use decoded::Decoded;
pub use event::Event;
pub use instruction::step;
pub use running::{Ran, run};
