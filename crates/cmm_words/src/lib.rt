//! Words, and the operators on them.
//!
//! A word of a width is a `u64` below 2 to that width. Each operator is proved to give its formula over whole
//! numbers and integers, modulo 2 to the width; `specs/Words.antt` has the formulas, one line an operator.
//!
//! - `width`: the four widths.
//! - `operators`: the names of the operators and the comparisons.
//! - `conversion`: `low` and `extend`, from one width to another.
//! - `apply`: `apply1` and `apply2`, the operators applied, over `shift` and `division`.
//! - `comparison`: `compare`.
//! - `laws`: what the layers above use of the operators, as contracts.
//! - `digits`: `Radix`, and the number that digits write.
//! - `name`: `Name`, which is bytes.
//! - `quoted`: `Quoted`, bytes that print as a text literal.
//! - `constant`: `Constant`, a value that is known before the program runs.
#![tactic(auto)]

mod apply;
mod comparison;
mod constant;
mod conversion;
mod digits;
mod division;
pub mod laws;
mod name;
mod operators;
mod quoted;
mod shift;
mod width;

pub use apply::{apply1, apply2};
pub use comparison::compare;
pub use constant::Constant;
pub use conversion::{extend, low};
pub use digits::Radix;
pub use name::Name;
pub use operators::{Cmp, Op1, Op2};
pub use quoted::Quoted;
pub use width::Width;
