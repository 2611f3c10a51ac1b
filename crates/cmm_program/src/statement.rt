//! The statements of a procedure's body (C-- Language Specification 2.0, statements).
//! Variables, labels, continuations and call sites are named by their numbers in the procedure.

use crate::expression::{Condition, Expression};
use crate::procedure::Target;
use cmm_items::Items;
use cmm_words::{Op2, Width};

/// What an assignment assigns to.
pub enum Lvalue {
    Target(Target),
    /// The word in memory at an address, which is to be a multiple of `aligned` bytes.
    Memory {
        width: Width,
        aligned: u32,
        address: Expression,
    },
}

/// In one place, so that whoever lets one go has one call to prove.
impl Drop for Lvalue {
    fn drop(self) {
        match self {
            Self::Target(_) => {}
            Self::Memory {
                width: _,
                aligned: _,
                address: _,
            } => {}
        }
    }
}

/// The values from `from` to `to`, both included.
#[derive(Clone, Copy)]
pub struct Range {
    pub from: u64,
    pub to: u64,
}

/// Which values an arm of a switch is for.
pub enum Case {
    /// Those in one of these ranges.
    In(Items<Range>),
    /// Those that no other arm is for.
    Default,
}

/// In one place, so that whoever lets one go has one call to prove.
impl Drop for Case {
    fn drop(self) {
        match self {
            Self::In(_) => {}
            Self::Default => {}
        }
    }
}

/// An arm of a switch.
#[cycle(statement)]
pub struct Arm {
    pub case: Case,
    pub body: Items<Statement>,
}

/// In one place, so that whoever lets one go has one call to prove.
impl Drop for Arm {
    #[cycle(let_go)]
    fn drop(self) {
        let Self { case: _, body: _ } = self;
    }
}

/// A statement.
#[cycle(statement)]
pub struct Statement {
    /// The count of its own tokens, those of the blocks inside it left out.
    pub tokens: u32,
    pub form: Form,
}

/// In one place, so that whoever lets one go has one call to prove.
impl Drop for Statement {
    #[cycle(let_go)]
    fn drop(self) {
        let Self { tokens: _, form: _ } = self;
    }
}

/// What a statement is.
#[derive(Drop)]
#[cycle(statement)]
pub enum Form {
    /// The empty statement.
    Empty,
    If {
        condition: Condition,
        then: Items<Statement>,
        otherwise: Items<Statement>,
    },
    Switch {
        value: Expression,
        arms: Items<Arm>,
    },
    /// The statements inside a span. What a span says of a call site stands at the site.
    Span(Items<Statement>),
    /// All right sides and all addresses are evaluated, and then the values are stored from left to right.
    Assign {
        to: Items<Lvalue>,
        values: Items<Expression>,
    },
    /// A call of a procedure.
    Call {
        site: u32,
        callee: Expression,
        actuals: Items<Expression>,
    },
    /// A call of the run-time system.
    Yield {
        site: u32,
        values: Items<Expression>,
    },
    /// A division whose operands have this width. It assigns its value to the site's result, or yields where the
    /// divisor is 0.
    Checked {
        site: u32,
        operator: Op2,
        width: Width,
        left: Expression,
        right: Expression,
    },
    /// The foreign call that writes the low byte of a value to the output.
    PutByte(Expression),
    /// The foreign call that reads a byte of the input.
    GetByte(Target),
    /// A tail call.
    Jump {
        callee: Expression,
        actuals: Items<Expression>,
    },
    /// A return by the exit `exit` of a site with `alternates` alternate exits, which are counted from 0; the normal
    /// exit is the one after them.
    Return {
        exit: u32,
        alternates: u32,
        values: Items<Expression>,
    },
    Label(u32),
    Goto(u32),
    /// Where a continuation begins.
    Continuation(u32),
    /// A cut to a continuation value. `own` has the continuations of its own activation that it may go to.
    Cut {
        to: Expression,
        values: Items<Expression>,
        own: Items<u32>,
    },
}
