//! The types of expressions, their values where those are constants, expressions with names resolved, and what contexts expect of them.
//!
//! An expression is judged by one engine over whatever tells what its names mean and whatever stands for its values. What it answers is exactly
//! the judgement of `cmm_static_semantics`: bits of a width or a condition, with what stands for them, or the first place in it at which a rule is
//! broken. Where what is known of a value before the program runs stands for it, no memory is taken; where the resolved expression does, want of
//! memory is the only failure.
//!
//! - `scope`: `type_of` and `constant`, the type and the value of an expression in a `Scope`, a list of names.
//! - `meaning`: what a name means in a scope, and the answers.
//! - `judging`: `judge`, what an expression is judged to be among names, and `resolve`, its judgement with names resolved, also of a word in memory and
//!   of a name alone; the judgement of names and of operators, and what is expected of expressions.
//! - `names`: `Names`, which tells what names mean.
//! - `engine`: the judgement of an expression from those of its parts.
//! - `leaf`, `joining`: the judgement of what holds no other expression, and of what holds some from theirs. Operators at operands, and what
//!   stands for values, are those of `cmm_operators`.
//! - `expressions`: the resolved expressions in the place of values.
//! - `expected`: expressions against what their context expects, with the first rule that they break.
#![tactic(auto)]

mod engine;
mod expected;
mod expressions;
mod joining;
mod judging;
mod leaf;
mod meaning;
mod names;
mod scope;

pub use cmm_operators::{
    Judged, as_constant, as_number, checked_named, infix_operator, operator_named, prefix_operator,
};
pub use expected::{
    constant_alone, constant_of, is_alignment, note_alignment, note_bits, note_bits_of_memory,
    note_constant, note_constant_alone, note_inner, note_judged, note_number, note_number_alone,
    note_number_of_primary, note_test, note_type, note_width, number_alone, number_of,
    number_of_primary, wanted, width_of,
};
pub use judging::{
    applied_to_one, applied_to_two, as_bits, as_test, as_wanted, judge, name_type, resolve,
    resolve_memory, resolve_name,
};
pub use leaf::type_width;
pub use meaning::{ExprType, Meaning, TypeFault};
pub use names::Names;
pub use scope::{Scope, constant, type_of};
