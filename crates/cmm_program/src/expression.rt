//! Expressions, whose values are words, and conditions (C-- Language Specification 2.0, expressions).

use cmm_items::Boxed;
use cmm_words::{Cmp, Constant, Op1, Op2, Width};

/// What has a word as its value. It has no effect.
#[derive(Debug)]
pub enum Expression {
    /// A number, or the address of a procedure or of a data label with a number of bytes added.
    Known(Constant),
    /// The value of a variable of the procedure, by its number, and its width.
    Variable(u32, Width),
    /// The value of a global register, by its number, and its width.
    Register(u32, Width),
    /// The address of a stackdata label of the procedure, by its number.
    Stackdata(u32),
    /// The value of a continuation of the procedure, by its number.
    Continuation(u32),
    /// The word in memory at an address, which is to be a multiple of `aligned` bytes.
    Load {
        width: Width,
        aligned: u32,
        address: Boxed<Expression>,
    },
    /// An operator applied to a word of this width.
    Unary(Op1, Width, Boxed<Expression>),
    /// An operator applied to two words of this width.
    Binary(Op2, Width, Boxed<Expression>, Boxed<Expression>),
    /// A word of the first width as one of the second, by its top bit.
    SignExtend(Width, Width, Boxed<Expression>),
    /// A word of the first width as one of the second, by zeros.
    ZeroExtend(Width, Width, Boxed<Expression>),
    /// The low bits of a word of the first width, as many as the second has.
    LowBits(Width, Width, Boxed<Expression>),
}

/// In one place, so that whoever lets one go has one call to prove.
impl Drop for Expression {
    fn drop(self) {
        match self {
            Self::Known(_) => {}
            Self::Variable(_, _) => {}
            Self::Register(_, _) => {}
            Self::Stackdata(_) => {}
            Self::Continuation(_) => {}
            Self::Load {
                width: _,
                aligned: _,
                address: _,
            } => {}
            Self::Unary(_, _, _) => {}
            Self::Binary(_, _, _, _) => {}
            Self::SignExtend(_, _, _) => {}
            Self::ZeroExtend(_, _, _) => {}
            Self::LowBits(_, _, _) => {}
        }
    }
}

/// What holds or does not. No variable holds one.
#[derive(Debug)]
pub enum Condition {
    /// A comparison of two words of this width.
    Compare(Cmp, Width, Boxed<Expression>, Boxed<Expression>),
    Not(Boxed<Condition>),
    /// Both hold. Both are evaluated.
    Both(Boxed<Condition>, Boxed<Condition>),
    /// One of them holds, or both. Both are evaluated.
    Either(Boxed<Condition>, Boxed<Condition>),
}

/// In one place, so that whoever lets one go has one call to prove.
impl Drop for Condition {
    fn drop(self) {
        match self {
            Self::Compare(_, _, _, _) => {}
            Self::Not(_) => {}
            Self::Both(_, _) => {}
            Self::Either(_, _) => {}
        }
    }
}
