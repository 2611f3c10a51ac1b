//! Operands, and what an assignment computes from them (C-- Language Specification 2.0, expressions).

use crate::number::{ContinuationId, Register, StackLabel, Temporary, Variable};
use cmm_program::Target;
use cmm_words::{Cmp, Constant, Op1, Op2, Width};

/// What the nodes of one activation read and write, and what is given a place: a variable of the procedure or a
/// temporary.
#[derive(Clone, Copy, Debug)]
pub enum Local {
    Variable(Variable),
    Temporary(Temporary),
}

/// What a node needs, as a word.
#[derive(Clone, Copy)]
pub enum Operand {
    /// A number, or the address of a procedure or of a data label with a number of bytes added.
    Constant(Constant),
    /// The value of a local.
    Local(Local),
    /// The address of a stackdata label.
    Stackdata(StackLabel),
    /// The value of a continuation: the address of its pair of words in the frame.
    Continuation(ContinuationId),
}

/// A word that is passed, with its width.
#[derive(Clone, Copy)]
pub struct Argument {
    pub width: Width,
    pub value: Operand,
}

/// A comparison of two words of a width.
#[derive(Clone, Copy)]
pub struct Comparison {
    pub operator: Cmp,
    pub width: Width,
    pub left: Operand,
    pub right: Operand,
}

/// What an assignment computes: the value of one operator, or what is read once.
#[derive(Clone, Copy)]
pub enum Rvalue {
    /// The value of an operand.
    Copy(Operand),
    /// The value of a global register.
    Register(Register),
    /// The word in memory at an address, which is to be a multiple of `aligned` bytes.
    Load {
        width: Width,
        aligned: u32,
        address: Operand,
    },
    /// An operator applied to a word of this width.
    Unary {
        operator: Op1,
        width: Width,
        operand: Operand,
    },
    /// An operator applied to two words of this width.
    Binary {
        operator: Op2,
        width: Width,
        left: Operand,
        right: Operand,
    },
    /// 1 where the comparison holds, and otherwise 0.
    Compare(Comparison),
    /// A word of the first width as one of the second, by its top bit.
    SignExtend {
        from: Width,
        to: Width,
        operand: Operand,
    },
    /// The low bits of a word of the first width, as many as the second has.
    LowBits {
        from: Width,
        to: Width,
        operand: Operand,
    },
}

/// What an assignment assigns to: a variable or a global register of the program, or a temporary.
#[derive(Clone, Copy)]
pub enum Destination {
    Target(Target),
    Temporary(Temporary),
}
