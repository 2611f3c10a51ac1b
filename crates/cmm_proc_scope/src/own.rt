//! What the names of a procedure are declared as.

use cmm_ast::TypeName;

/// What a name of a procedure is declared as.
#[derive(Clone, Copy)]
pub enum Local<'a> {
    /// A formal or a variable of a type.
    Variable(&'a TypeName),
    /// A label of stackdata.
    Room,
    /// A label of a statement.
    Label,
    Continuation,
}

/// What a name of a procedure is declared as, with its number.
#[derive(Clone, Copy)]
pub struct Numbered<'a> {
    pub local: Local<'a>,
    /// How many declarations of its sort stand before it.
    pub number: u32,
}
