//! What a reader has told apart by the tokens up to where it stands, before it knows the whole.

use cmm_ast::{Ident, Kinded, LocalForm, Lvalue, StmtForm, TypeName};
use cmm_items::Items;

/// What a declaration with a type that may be left out begins with.
#[derive(Drop)]
pub enum Head {
    TypeFirst(TypeName),
    /// Its first name, where there is no type.
    NameFirst(Ident),
    Neither,
}

/// What stands before an `=`.
#[derive(Drop)]
pub enum Targets {
    /// Names alone.
    Names(Items<Ident>),
    /// A word in memory is among them.
    Lvalues(Items<Lvalue>),
    /// A name after a kind is among them.
    Results(Items<Kinded>),
}

/// What a part of a body is, before its tokens are counted.
#[derive(Drop)]
pub enum PartForm {
    OfLocal(LocalForm),
    OfStmt(StmtForm),
}
