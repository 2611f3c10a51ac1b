//! The names of the word operators (C-- Language Specification 2.0, the table of primitive operators).

/// An operator with one operand.
#[derive(Clone, Copy, Debug)]
pub enum Op1 {
    /// The complement: each bit turned.
    Com,
    /// The negative.
    Neg,
}

/// An operator with two operands.
#[derive(Clone, Copy, Debug)]
pub enum Op2 {
    Add,
    Sub,
    Mul,
    And,
    Or,
    Xor,
    /// A shift to the left. The second operand of a shift or a rotation is its count.
    Shl,
    /// A shift to the right that brings in zeros.
    Shrl,
    /// A shift to the right that copies the top bit.
    Shra,
    Rotl,
    Rotr,
    /// The quotient of the unsigned words.
    Divu,
    /// The remainder of `Divu`.
    Modu,
    /// The quotient of the signed words, rounded down.
    Div,
    /// The remainder of `Div`, whose sign is the divisor's.
    Mod,
    /// The quotient of the signed words, rounded toward zero.
    Quot,
    /// The remainder of `Quot`, whose sign is the dividend's.
    Rem,
}

/// A comparison of two words: signed, or unsigned where the name ends in `u`.
#[derive(Clone, Copy, Debug)]
pub enum Cmp {
    Eq,
    Ne,
    Lt,
    Le,
    Gt,
    Ge,
    Ltu,
    Leu,
    Gtu,
    Geu,
}
