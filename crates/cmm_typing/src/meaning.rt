//! What a name may mean in a scope, and what is answered of an expression.

use cmm_words::{Constant, Width};

/// What a name means.
#[derive(Clone, Copy)]
pub enum Meaning {
    /// A variable of the procedure, by its number.
    Variable(u32, Width),
    /// A global register, by its number.
    Register(u32, Width),
    /// A constant, or the address of a procedure, of what is imported or of a data label.
    Value(Constant),
    /// A stackdata label of the procedure, by its number.
    Stack(u32),
    /// A continuation of the procedure, by its number.
    Continuation(u32),
    /// A type.
    Typedef(Width),
    /// A label of a statement, which has no value.
    CodeLabel,
    /// A procedure of the host. That it may not stand in an expression is no matter of types.
    Host,
}

/// The type of an expression.
#[derive(Clone, Copy)]
pub enum ExprType {
    /// Bits of this width.
    Bits(Width),
    /// A condition.
    Bool,
}

/// A rule that an expression breaks: 21, or 23 to 27.
#[derive(Clone, Copy, Debug, PartialEq, Eq, thiserror::Error)]
#[error("rule {rule} is broken at token {token}")]
pub struct TypeFault {
    pub rule: u8,
    /// The number of the token at which it is broken, from 0.
    pub token: u32,
}
