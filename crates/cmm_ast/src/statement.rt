//! Statements (C-- Language Specification 2.0, statements and call-site annotations). The token of a node is the number of
//! its first token in the unit, from 0.

use crate::expression::{Expr, Memory, Primary};
use crate::procedure::Local;
use crate::token::{Ident, Text};
use cmm_items::{Boxed, Items};

/// Statements and declarations in braces.
#[derive(Debug)]
#[cycle(statement)]
pub struct Block {
    pub parts: Items<Part>,
}

/// In one place, so that whoever lets one go has one call to prove.
impl Drop for Block {
    #[cycle(let_go)]
    fn drop(self) {
        let Self { parts: _ } = self;
    }
}

/// A part of a block.
#[derive(Debug)]
#[cycle(statement)]
pub enum Part {
    Local(Local),
    Stmt(Stmt),
}

/// In one place, so that whoever lets one go has one call to prove.
impl Drop for Part {
    #[cycle(let_go)]
    fn drop(self) {
        match self {
            Self::Local(_) => {}
            Self::Stmt(_) => {}
        }
    }
}

/// A statement.
#[derive(Debug)]
#[cycle(statement)]
pub struct Stmt {
    /// The number of its first token.
    pub token: u32,
    /// The number of the token after its last.
    pub past: u32,
    pub form: StmtForm,
}

/// In one place, so that whoever lets one go has one call to prove.
impl Drop for Stmt {
    #[cycle(let_go)]
    fn drop(self) {
        let Self {
            token: _,
            past: _,
            form: _,
        } = self;
    }
}

/// What a statement is.
#[derive(Debug, Drop)]
#[cycle(statement)]
pub enum StmtForm {
    Empty,
    If {
        condition: Expr,
        then: Block,
        otherwise: Otherwise,
    },
    Switch {
        range: Option<Span>,
        value: Expr,
        arms: Items<Arm>,
    },
    /// `span t v { .. }`
    Span {
        key: Primary,
        value: Expr,
        body: Block,
    },
    Assign {
        to: Items<Lvalue>,
        values: Items<Expr>,
    },
    /// `x = %%op(a, b) flows;`
    Checked {
        result: Ident,
        operator: Ident,
        left: Expr,
        right: Expr,
        flows: Items<Flow>,
    },
    /// `xs = foreign "C" f(..) flows;`
    Call {
        /// None of them where there is no `=`.
        results: Items<Kinded>,
        convention: Option<Text>,
        callee: Callee,
        actuals: Items<Actual>,
        flows: Items<Flow>,
    },
    Jump {
        callee: Callee,
        actuals: Items<Actual>,
    },
    /// `return <i/n> (..);`
    Return {
        exit: Option<Exit>,
        /// What stands in brackets, where there are any.
        values: Option<Items<Actual>>,
    },
    Label(Ident),
    Continuation {
        name: Ident,
        parameters: Items<Kinded>,
    },
    Goto(Ident),
    /// `cut to k(..) flows;`
    Cut {
        callee: Callee,
        actuals: Items<Actual>,
        flows: Items<Flow>,
    },
}

/// What stands after the block of an `if`.
#[derive(Debug)]
#[cycle(statement)]
pub enum Otherwise {
    Nothing,
    Else(Block),
    /// An `if` after `else`, without braces.
    ElseIf(Boxed<Stmt>),
}

/// In one place, so that whoever lets one go has one call to prove.
impl Drop for Otherwise {
    #[cycle(let_go)]
    fn drop(self) {
        match self {
            Self::Nothing => {}
            Self::Else(_) => {}
            Self::ElseIf(_) => {}
        }
    }
}

/// An arm of a switch.
#[derive(Debug)]
#[cycle(statement)]
pub struct Arm {
    pub token: u32,
    pub case: Case,
    pub body: Block,
}

/// In one place, so that whoever lets one go has one call to prove.
impl Drop for Arm {
    #[cycle(let_go)]
    fn drop(self) {
        let Self {
            token: _,
            case: _,
            body: _,
        } = self;
    }
}

/// What an arm is for.
#[derive(Debug, Drop)]
pub enum Case {
    Ranges(Items<Range>),
    Default,
}

/// A value, or those from one to another, both included.
#[derive(Debug)]
pub struct Range {
    pub from: Expr,
    pub to: Option<Expr>,
}

/// In one place, so that whoever lets one go has one call to prove.
impl Drop for Range {
    fn drop(self) {
        let Self { from: _, to: _ } = self;
    }
}

/// The values that a switch is over, both included.
#[derive(Debug)]
pub struct Span {
    pub from: Expr,
    pub to: Expr,
}

/// In one place, so that whoever lets one go has one call to prove.
impl Drop for Span {
    fn drop(self) {
        let Self { from: _, to: _ } = self;
    }
}

/// What is assigned to.
#[derive(Debug, Drop)]
pub enum Lvalue {
    Name(Ident),
    Memory(Memory),
}

/// A name after a kind, which has no effect.
#[derive(Debug)]
pub struct Kinded {
    pub kind: Option<Text>,
    pub name: Ident,
}

/// In one place, so that whoever lets one go has one call to prove.
impl Drop for Kinded {
    fn drop(self) {
        let Self { kind: _, name: _ } = self;
    }
}

/// A value that is passed, after a kind, which has no effect.
#[derive(Debug)]
pub struct Actual {
    pub kind: Option<Text>,
    pub value: Expr,
}

/// In one place, so that whoever lets one go has one call to prove.
impl Drop for Actual {
    fn drop(self) {
        let Self { kind: _, value: _ } = self;
    }
}

/// What is called, jumped to or cut to.
#[derive(Debug)]
pub struct Callee {
    pub token: u32,
    pub form: CalleeForm,
}

/// In one place, so that whoever lets one go has one call to prove.
impl Drop for Callee {
    fn drop(self) {
        let Self { token: _, form: _ } = self;
    }
}

/// What a callee is.
#[derive(Debug, Drop)]
pub enum CalleeForm {
    Name(Ident),
    Memory(Memory),
    /// An expression in round brackets.
    Bracketed(Expr),
}

/// The exit of a return, by its number and that of the alternate exits.
#[derive(Debug)]
pub struct Exit {
    /// The number of the token `<`.
    pub token: u32,
    pub index: Primary,
    pub count: Primary,
}

/// In one place, so that whoever lets one go has one call to prove.
impl Drop for Exit {
    fn drop(self) {
        let Self {
            token: _,
            index: _,
            count: _,
        } = self;
    }
}

/// An annotation of a call site or of a cut.
#[derive(Debug)]
pub struct Flow {
    pub token: u32,
    pub form: FlowForm,
}

/// In one place, so that whoever lets one go has one call to prove.
impl Drop for Flow {
    fn drop(self) {
        let Self { token: _, form: _ } = self;
    }
}

/// What an annotation says.
#[derive(Debug, Drop)]
pub enum FlowForm {
    CutsTo(Items<Ident>),
    UnwindsTo(Items<Ident>),
    ReturnsTo(Items<Ident>),
    Aborts,
    NeverReturns,
}
