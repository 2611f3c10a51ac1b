//! What an operator does (C-- Language Specification 2.0, the table of primitive operators).

use cmm_words::{Cmp, Op1, Op2, Width};

/// What an operator does, whether it is written by its name or by a sign.
#[derive(Clone, Copy)]
pub enum Operator {
    Unary(Op1),
    Binary(Op2),
    Compare(Cmp),
    /// A condition that holds where its operand does not.
    Not,
    /// A condition that holds where both operands do.
    Conjoin,
    /// A condition that holds where one operand does.
    Disjoin,
    /// To a width that is not less, by the top bit.
    SignExtend(Width),
    /// To a width that is not less, by zeros.
    ZeroExtend(Width),
    /// To a width that is not greater.
    LowBits(Width),
}
