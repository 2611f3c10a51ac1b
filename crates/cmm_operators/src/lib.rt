//! Operators: by their names and by their signs, and at operands, over whatever stands for values.
//!
//! What an operator is judged to be at operands is exactly the judgement of `cmm_static_semantics`: bits of a width or a condition, with what stands for
//! them, or the first place at which a rule is broken. What is known of a value before the program runs may stand for it, which takes no memory;
//! in `cmm_typing` also the resolved expression.
//!
//! - `operators`: operators by their names and by their signs.
//! - `applying`, `converting`: operators at operands; those that give bits another width.
//! - `wanted`: what is wanted of an operand: bits, a condition or a constant.
//! - `values`: `Values`, what stands for values and conditions.
//! - `knowns`, `known`: `Knowns`, what is known before the program runs.
#![tactic(auto)]

mod applying;
mod converting;
mod known;
mod knowns;
mod operators;
mod values;
mod wanted;

pub use applying::{applied_to_one, applied_to_two};
pub use knowns::Knowns;
pub use operators::{checked_named, infix_operator, operator_named, prefix_operator};
pub use values::{BitsOf, OperandOf, OperandsOf, Outcome, TypedOf, Values};
pub use wanted::{Judged, as_bits, as_constant, as_number, as_test, as_wanted, faulty};
