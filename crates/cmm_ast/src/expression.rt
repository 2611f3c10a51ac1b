//! Expressions (C-- Language Specification 2.0, expressions). The token of a node is the number of its first token in
//! the unit, from 0.

ghost use Rattle.std.specs.Prelude.{◌≡◌};

use crate::token::Int;
use cmm_items::{Boxed, Items};
use cmm_words::{Name, Width};

/// A type.
#[derive(Debug)]
pub struct TypeName {
    pub token: u32,
    pub form: TypeForm,
}

/// In one place, so that whoever lets one go has one call to prove.
impl Drop for TypeName {
    fn drop(self) {
        let Self { token: _, form: _ } = self;
    }
}

/// What a type is.
#[derive(Debug, Drop)]
pub enum TypeForm {
    /// `bits8`, `bits16`, `bits32` or `bits64`.
    Bits(Width),
    /// The name of a typedef.
    Named(Name),
}

/// What a literal says.
#[derive(Clone, Copy, Debug)]
pub enum Number {
    Int(u64),
    /// The byte of a character.
    Char(u8),
}

/// An operator between two operands.
#[derive(Clone, Copy, Debug)]
pub enum Infix {
    Eq,
    Ne,
    Lt,
    Le,
    Gt,
    Ge,
    Or,
    Xor,
    And,
    Shl,
    Shr,
    Add,
    Sub,
    Mul,
    Div,
    Mod,
}

/// An operator before its operand.
#[derive(Clone, Copy, Debug)]
pub enum Prefix {
    /// `-`
    Negate,
    /// `~`
    Complement,
}

/// An expression.
#[derive(Debug)]
#[cycle(expression)]
pub struct Expr {
    pub token: u32,
    pub form: ExprForm,
}

impl Expr {
    /// What it is, without its token.
    pub fn into_form(self) -> ExprForm
        ensures { result ≡ self.form }
    {
        let Self { token: _, form } = self;
        form
    }
}

/// In one place, so that whoever lets one go has one call to prove.
impl Drop for Expr {
    #[cycle(let_go)]
    fn drop(self) {
        let Self { token: _, form: _ } = self;
    }
}

/// What an expression is.
#[derive(Debug, Drop)]
#[cycle(expression)]
pub enum ExprForm {
    Infix {
        left: Boxed<Expr>,
        operator: Infix,
        right: Boxed<Expr>,
    },
    Prefix {
        operator: Prefix,
        operand: Boxed<Expr>,
    },
    Prim(PrimForm),
    Memory(Memory),
    /// An operator that is written by its name before its operands.
    Named {
        operator: Name,
        operands: Items<Expr>,
    },
}

/// A primary expression.
#[derive(Debug)]
pub struct Primary {
    pub token: u32,
    pub form: PrimForm,
}

/// In one place, so that whoever lets one go has one call to prove.
impl Drop for Primary {
    fn drop(self) {
        let Self { token: _, form: _ } = self;
    }
}

/// What a primary expression is.
#[derive(Debug, Drop)]
#[cycle(expression)]
pub enum PrimForm {
    /// A number or a character, and after `::` its type.
    Literal {
        number: Number,
        width: Option<TypeName>,
    },
    Name(Name),
    /// An expression in round brackets.
    Bracketed(Boxed<Expr>),
}

/// The word in memory at an address.
#[derive(Debug)]
#[cycle(expression)]
pub struct Memory {
    /// The type of the word, whose first token is the first of all.
    pub width: TypeName,
    pub address: Boxed<Expr>,
    /// What the address is said to be a multiple of, in bytes.
    pub aligned: Option<Int>,
}

/// In one place, so that whoever lets one go has one call to prove.
impl Drop for Memory {
    #[cycle(let_go)]
    fn drop(self) {
        let Self {
            width: _,
            address: _,
            aligned: _,
        } = self;
    }
}
