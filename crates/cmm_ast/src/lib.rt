//! Syntax trees of C-- (C-- Language Specification 2.0, syntax). `cmm_grammar` says which tokens a tree derives.
//!
//! A type whose values hold others, but none of its own, says in its `drop` how they are let go. So that is proved here alone: whoever lets one go above makes a
//! call. Types that hold themselves derive it.
#![tactic(auto)]

mod declaration;
mod expression;
mod procedure;
mod statement;
mod token;
mod unit;

pub use declaration::{ByteOrder, Decl, DeclForm, Export, Import, Property, PropertyForm};
pub use expression::{
    Expr, ExprForm, Infix, Memory, Number, Prefix, PrimForm, Primary, TypeForm, TypeName,
};
pub use procedure::{Formal, Local, LocalForm, Modifiers, Proc, Room, RoomForm};
pub use statement::{
    Actual, Arm, Block, Callee, CalleeForm, Case, Exit, Flow, FlowForm, Kinded, Lvalue, Otherwise,
    Part, Range, Span, Stmt, StmtForm,
};
pub use token::{Ident, Int, Text};
pub use unit::{Count, Datum, DatumForm, Initial, Item, Place, Section, TopLevel, Unit};
