//! Expressions against what their context expects, and the rules that they break.
//!
//! A context expects bits of a width, a condition, a number or a constant. What an expression is judged to be is exactly the judgement of
//! `cmm_static_semantics`, and of the rules that it breaks the first is kept while walking: each `note_` call says how the first fault goes on. That
//! holds over whatever tells what names mean. No memory is taken, and time is linear in the expression.
//!
//! - `judgements`: what is expected. `parts`, `literal`: of primary expressions and of words in memory, which stand as expressions where the
//!   grammar takes less. `alone`: literals that stand alone, which take the width that is expected.
//! - `noting`: the faults of types and of expressions, by what is expected of them.
//! - `inner`, `hosts`, `alignments`: what is broken whatever is expected: names of the host, and alignments.

mod alignments;
mod alone;
mod hosts;
mod inner;
mod judgements;
mod literal;
mod noting;
mod parts;

pub use alignments::{is_alignment, note_alignment};
pub use inner::note_inner;
pub use judgements::{
    constant_alone, constant_of, number_alone, number_of, number_of_primary, test_wanted, wanted,
    width_of,
};
pub use noting::{
    note_bits, note_bits_of_memory, note_constant, note_constant_alone, note_judged, note_number,
    note_number_alone, note_number_of_primary, note_test, note_type, note_width,
};
