//! What is known of a value before the program runs (C-- Language Specification 2.0, constant expressions).

use cmm_words::Constant;

/// What is known of a value before the program runs.
#[derive(Clone, Copy)]
pub enum Known {
    /// It is this number.
    Number(u64),
    /// It is the address of a procedure or of a data label, which stands alone.
    Symbol(Constant),
    /// It is such an address and a number added to it or taken from it.
    Sum(Constant),
    /// It is no constant.
    Nothing,
}
