//! Procedures and what they declare (C-- Language Specification 2.0, procedures). The token of a node is the number of
//! its first token in the unit, from 0.

use crate::expression::{Expr, TypeName};
use crate::statement::Block;
use crate::token::{Ident, Int, Text};
use cmm_items::Items;

/// A procedure.
#[derive(Debug)]
pub struct Proc {
    pub name: Ident,
    pub formals: Items<Formal>,
    pub body: Block,
    /// The number of the token after its closing brace.
    pub past: u32,
}

/// In one place, so that whoever lets one go has one call to prove.
impl Drop for Proc {
    fn drop(self) {
        let Self {
            name: _,
            formals: _,
            body: _,
            past: _,
        } = self;
    }
}

/// A formal parameter.
#[derive(Debug)]
pub struct Formal {
    pub modifiers: Modifiers,
    pub width: TypeName,
    pub name: Ident,
}

/// In one place, so that whoever lets one go has one call to prove.
impl Drop for Formal {
    fn drop(self) {
        let Self {
            modifiers: _,
            width: _,
            name: _,
        } = self;
    }
}

/// What stands before the type of a variable.
#[derive(Debug, Drop)]
pub enum Modifiers {
    Nothing,
    /// `"kind"`
    Kind(Text),
    /// `"kind" invariant`
    KindInvariant(Text),
    /// `invariant`, with the number of its token
    Invariant(u32),
    /// `invariant "kind"`, with the number of its first token
    InvariantKind(u32, Text),
}

/// A declaration in a body.
#[derive(Debug)]
pub struct Local {
    /// The number of its first token.
    pub token: u32,
    /// The number of the token after its last.
    pub past: u32,
    pub form: LocalForm,
}

/// In one place, so that whoever lets one go has one call to prove.
impl Drop for Local {
    fn drop(self) {
        let Self {
            token: _,
            past: _,
            form: _,
        } = self;
    }
}

/// What is declared.
#[derive(Debug, Drop)]
pub enum LocalForm {
    Variables {
        modifiers: Modifiers,
        width: TypeName,
        names: Items<Ident>,
    },
    Stackdata(Items<Room>),
}

/// A piece of stackdata.
#[derive(Debug)]
pub struct Room {
    pub token: u32,
    pub form: RoomForm,
}

/// In one place, so that whoever lets one go has one call to prove.
impl Drop for Room {
    fn drop(self) {
        let Self { token: _, form: _ } = self;
    }
}

/// What a piece of stackdata is.
#[derive(Debug, Drop)]
pub enum RoomForm {
    /// `l:`
    Label(Ident),
    /// `align 8;`
    Align(Int),
    /// `T[e];`
    Data {
        width: TypeName,
        count: Option<Expr>,
    },
}
