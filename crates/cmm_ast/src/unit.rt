//! A unit, its sections and their data (C-- Language Specification 2.0, compilation units and data sections). The token of
//! a node is the number of its first token in the unit, from 0.

use crate::declaration::Decl;
use crate::expression::{Expr, Primary, TypeName};
use crate::procedure::Proc;
use crate::token::{Ident, Int, Text};
use cmm_items::Items;

/// A unit.
pub struct Unit {
    pub parts: Items<TopLevel>,
    /// Where each of its tokens stands, and the end of the unit after them.
    pub places: Items<Place>,
}

/// In one place, so that whoever lets one go has one call to prove.
impl Drop for Unit {
    fn drop(self) {
        let Self {
            parts: _,
            places: _,
        } = self;
    }
}

/// Where a token stands.
#[derive(Clone, Copy)]
pub struct Place {
    /// The line of its first byte, from 1.
    pub line: u32,
    /// The column of its first byte, in bytes from 1.
    pub column: u32,
}

/// A part of a unit.
#[derive(Debug, Drop)]
pub enum TopLevel {
    Section(Section),
    Decl(Decl),
    Proc(Proc),
}

/// A section.
#[derive(Debug)]
pub struct Section {
    pub token: u32,
    pub name: Text,
    pub items: Items<Item>,
}

/// In one place, so that whoever lets one go has one call to prove.
impl Drop for Section {
    fn drop(self) {
        let Self {
            token: _,
            name: _,
            items: _,
        } = self;
    }
}

/// A part of a section.
#[derive(Debug)]
pub enum Item {
    Decl(Decl),
    Proc(Proc),
    Datum(Datum),
    /// `span t v { .. }`
    Span {
        token: u32,
        key: Primary,
        value: Expr,
        items: Items<Item>,
    },
}

/// In one place, so that whoever lets one go has one call to prove.
impl Drop for Item {
    fn drop(self) {
        match self {
            Self::Decl(_) => {}
            Self::Proc(_) => {}
            Self::Datum(_) => {}
            Self::Span {
                token: _,
                key: _,
                value: _,
                items: _,
            } => {}
        }
    }
}

/// A piece of data.
#[derive(Debug)]
pub struct Datum {
    pub token: u32,
    pub form: DatumForm,
}

/// In one place, so that whoever lets one go has one call to prove.
impl Drop for Datum {
    fn drop(self) {
        let Self { token: _, form: _ } = self;
    }
}

/// What a piece of data is.
#[derive(Debug, Drop)]
pub enum DatumForm {
    /// `l:`
    Label(Ident),
    /// `align 8;`
    Align(Int),
    /// `T[e] { .. };`
    Data {
        width: TypeName,
        count: Count,
        initial: Initial,
    },
}

/// How many values a datum has.
#[derive(Debug, Drop)]
pub enum Count {
    /// There are no square brackets.
    One,
    /// They are empty.
    OfInitial,
    Of(Expr),
}

/// What a datum begins as.
#[derive(Debug, Drop)]
pub enum Initial {
    Zeros,
    Values(Items<Expr>),
    Text(Text),
}
