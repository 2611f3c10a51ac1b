//! The instructions of RV64IM: which there are, the word of each, and what each does.
//!
//! The definitions in `specs/` are the table: one line a row gives an instruction's encoding, and one its effect on registers
//! and pc. `instruction_step` fetches the word at pc, decodes it and does the row's effect to registers, pc and memory, or stops
//! with a trap. The code here answers a row's effect, and a caller does it.
//!
//! - `instruction`: `Instr`, one variant a row, and `valid`, the test that its operands fit their fields.
//! - `word_fields`: the six fields that every word is cut into.
//! - `registers`: the registers and pc, and the two that have a value where a run begins.
//! - `memory_map`: where code, data, argument area, global registers and stack lie.
//! - `request` and `trap`: what an ECALL asks for and by which registers, and why a run stops.
//! - `effects`: what a row asks for, and `effect_of`.
//! - `arithmetic`: the operations on words that the rows need.
//! - `laws`: what is proved of the definitions.
#![tactic(auto)]

mod arithmetic;
mod effects;
mod instruction;
pub mod laws;
pub mod memory_map;
mod registers;
mod request;
mod trap;
mod word_fields;

pub use effects::{Effect, effect_of};
pub use instruction::{Instr, valid};
pub use registers::{FRAME, REGION, Regs};
pub use request::{REQUEST_NUMBER, REQUEST_VALUE, Request};
pub use trap::{Trap, TrapKind};
pub use word_fields::Fields;
