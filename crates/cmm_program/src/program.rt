//! A resolved program: all its units, with each name replaced by the number of what it names.

use crate::procedure::Proc;
use cmm_items::Items;
use cmm_words::{Constant, Name, Width};

/// A piece of initialised data, or an alignment.
pub struct Datum {
    /// In bytes.
    pub align: u32,
    /// In bytes; 0 for an alignment.
    pub length: u32,
    /// The width of each value.
    pub width: Width,
    /// The initial values, or none: then its bytes are 0.
    pub values: Items<Constant>,
}

/// In one place, so that whoever lets one go has one call to prove.
impl Drop for Datum {
    fn drop(self) {
        let Self {
            align: _,
            length: _,
            width: _,
            values: _,
        } = self;
    }
}

/// A data label.
pub struct Label {
    pub name: Name,
    /// The names under which it is exported.
    pub links: Items<Name>,
    /// The number of the datum whose address it is.
    pub datum: u32,
    /// Whether it is the end of the datum before that number instead.
    pub at_end: bool,
}

/// In one place, so that whoever lets one go has one call to prove.
impl Drop for Label {
    fn drop(self) {
        let Self {
            name: _,
            links: _,
            datum: _,
            at_end: _,
        } = self;
    }
}

/// A global register.
pub struct Global {
    pub name: Name,
    pub width: Width,
}

/// In one place, so that whoever lets one go has one call to prove.
impl Drop for Global {
    fn drop(self) {
        let Self { name: _, width: _ } = self;
    }
}

/// A program.
pub struct Program {
    pub procs: Items<Proc>,
    /// The data of all units, in their order in memory.
    pub datums: Items<Datum>,
    pub globals: Items<Global>,
    pub labels: Items<Label>,
    /// The number of the procedure that is run first.
    pub main: u32,
}

/// In one place, so that whoever lets one go has one call to prove.
impl Drop for Program {
    fn drop(self) {
        let Self {
            procs: _,
            datums: _,
            globals: _,
            labels: _,
            main: _,
        } = self;
    }
}
