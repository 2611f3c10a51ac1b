//! A procedure of a resolved program (C-- Language Specification 2.0, procedures, stack data and call sites).

use crate::statement::Statement;
use cmm_items::Items;
use cmm_words::{Constant, Name, Width};

/// A variable or a global register that takes a value, by its number, with its width.
#[derive(Clone, Copy)]
pub enum Target {
    Variable(u32, Width),
    Register(u32, Width),
}

/// A variable of a procedure.
pub struct VarInfo {
    pub width: Width,
    /// The text of its declaration, which a walk shows.
    pub kind: Name,
    /// Whether the client may not change it.
    pub invariant: bool,
}

/// In one place, so that whoever lets one go has one call to prove.
impl Drop for VarInfo {
    fn drop(self) {
        let Self {
            width: _,
            kind: _,
            invariant: _,
        } = self;
    }
}

/// An item of stackdata. An item of length 0 with `label` set is a stackdata label; one of length 0 without is an
/// alignment.
#[derive(Clone, Copy)]
pub struct StackItem {
    /// In bytes.
    pub align: u32,
    /// In bytes.
    pub length: u32,
    pub label: bool,
}

/// A continuation of a procedure.
pub struct Cont {
    /// The variables that take the values passed to it.
    pub params: Items<u32>,
}

/// In one place, so that whoever lets one go has one call to prove.
impl Drop for Cont {
    fn drop(self) {
        let Self { params: _ } = self;
    }
}

/// A call site: a call, a yield or a checked operator.
pub struct Site {
    /// What takes the values of its normal exit.
    pub results: Items<Target>,
    /// The continuations of its alternate exits.
    pub returns: Items<u32>,
    /// The continuations of its unwind exits.
    pub unwinds: Items<u32>,
    /// The continuations to which it may be cut.
    pub cuts: Items<u32>,
    /// Whether it says that the activation may be cut past or unwound past. This changes nothing.
    pub aborts: bool,
    /// Whether it has no normal exit.
    pub never: bool,
    /// How many values its yield has, where it is a yield or a checked operator.
    pub yield_values: Option<u8>,
    /// The token and the value of each span that gives the site a descriptor: the innermost of each token, in
    /// ascending order of tokens.
    pub spans: Items<(u64, Constant)>,
}

/// In one place, so that whoever lets one go has one call to prove.
impl Drop for Site {
    fn drop(self) {
        let Self {
            results: _,
            returns: _,
            unwinds: _,
            cuts: _,
            aborts: _,
            never: _,
            yield_values: _,
            spans: _,
        } = self;
    }
}

/// A procedure.
pub struct Proc {
    pub name: Name,
    /// The number of its unit.
    pub unit: u32,
    /// The count of its tokens, from its name to its closing brace.
    pub tokens: u32,
    /// How many of its variables are formals. These come first.
    pub formals: u32,
    pub vars: Items<VarInfo>,
    pub stack: Items<StackItem>,
    pub conts: Items<Cont>,
    pub sites: Items<Site>,
    pub body: Items<Statement>,
}

/// In one place, so that whoever lets one go has one call to prove.
impl Drop for Proc {
    fn drop(self) {
        let Self {
            name: _,
            unit: _,
            tokens: _,
            formals: _,
            vars: _,
            stack: _,
            conts: _,
            sites: _,
            body: _,
        } = self;
    }
}
