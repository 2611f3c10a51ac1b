//! The code of nodes.
//!
//! The code of a node is appended to an assembler, and its contract says what it changes of a machine state (`specs/Changes` of
//! cmm_effects), how many instructions it adds, how many are executed at most, and that the first of them asks for nothing but input.
//! Between two nodes the values of locals are in their places: slots of the frame, callee-saves registers, other registers. Within a
//! node, registers 5 to 7 are spare: what is in no register is brought there, the first operand into 5 and the second into 7, and 6 helps.
//! An operand that is in a register is read there, 0 is register 0, and a result is made in the register of its destination, or else in 5,
//! from which it is put there. Code of several instructions that changes its operands has them in 5 and 7, and its result in 5. A node's
//! code ends where control goes on, so a jump is added only where another node follows.
//! An error of a function that appends code is want of memory, and then a part of the code may be there, unless its comment says otherwise.
//!
//! What nodes are made of:
//!
//! - `word`: a word of the frame is saved from a register, and restored to one, at any offset of the frame.
//! - `place`: a place is read into a scratch register, and written from any.
//! - `number`: a register gets a number.
//! - `source`: a register gets what a place has, a number or an address of the frame.
//! - `operand`: a register gets an operand, which may name a label too; two registers get two.
//! - `destination`: register 5 is put into a place or a global register.
//! - `in_place`: the registers in which operands are, and those in which results are made.
//! - `cell`, `accesses`: a word of memory is loaded or stored, at a multiple of its size, or of less.
//! - `operator`: register 5 gets what an operator gives on the words in registers 5 and 7.
//! - `immediates`: the same with a small number that the instruction holds, and what a comparison with one tells; a difference with any number.
//! - `rotation`: a rotation by a number.
//! - `comparing`: control goes by a comparison of these words, or register 5 gets what it tells.
//! - `unary`: register 5 gets what an operator gives on the word in it alone, or this word with its sign at another width.
//!
//! Nodes:
//!
//! - `assigning`: a destination gets an operand, a global register, or what an operator, a conversion or a comparison gives on operands.
//! - `memory`: a destination gets a word of memory; an operand is stored.
//! - `going`: control goes by a comparison of operands, to a label, on, or to its end.
//! - `switching`: control goes by the arms of a switch. `span`: their ranges in order. `searching`: a value is looked for among these. `jump_table`: a table of
//!   jumps for numbers that follow one another.
//! - `host`: a request is chosen, and bytes are put and taken.
//!
//! - `laws`: how short the code of two operands is, and where switches lead.
#![tactic(auto)]

mod accesses;
mod assigning;
mod cell;
mod comparing;
mod destination;
mod going;
mod host;
mod immediates;
mod in_place;
mod jump_table;
pub mod laws;
mod memory;
mod number;
mod operand;
mod operator;
mod place;
mod rotation;
mod searching;
mod source;
mod span;
mod switching;
mod unary;
mod word;

pub use assigning::{
    assign_binary, assign_comparison, assign_copy, assign_extended, assign_global, assign_low,
    assign_unary,
};
pub use destination::{Destination, put_global};
pub use going::{decide, go_on, go_to, stop};
pub use host::{choose, get_byte, put_byte};
pub use memory::{assign_loaded, store};
pub use number::{load_constant, load_low};
pub use operand::{Operand, bring_both, bring_operand};
pub use operator::operate;
pub use place::{copy, read, write};
pub use source::{Source, bring};
pub use switching::switch;
pub use word::{NEAR, restore, save};
