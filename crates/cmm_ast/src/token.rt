//! The parts of a syntax tree that are one token each.

ghost use Rattle.std.specs.Prelude.{◌≡◌};

use cmm_items::Items;
use cmm_words::{Name, Quoted};
use std::fmt;

/// A name where it stands.
#[derive(Debug)]
pub struct Ident {
    pub name: Name,
    /// The number of its token in the unit, from 0.
    pub token: u32,
}

impl Ident {
    /// Its name, without its token.
    pub fn into_name(self) -> Name
        ensures { result ≡ self.name }
    {
        let Self { name, token: _ } = self;
        name
    }
}

/// In one place, so that whoever lets one go has one call to prove.
impl Drop for Ident {
    fn drop(self) {
        let Self { name: _, token: _ } = self;
    }
}

/// A text where it stands.
pub struct Text {
    /// The bytes after its escapes.
    pub bytes: Items<u8>,
    /// The number of its token in the unit, from 0.
    pub token: u32,
}

/// In one place, so that whoever lets one go has one call to prove.
impl Drop for Text {
    fn drop(self) {
        let Self { bytes: _, token: _ } = self;
    }
}

/// The bytes print as a text literal.
impl fmt::Debug for Text {
    fn fmt<W: fmt::Write>(&self, f: &mut fmt::Formatter<W>) -> fmt::Result {
        f.debug_struct("Text")
            .field("bytes", &Quoted(self.bytes.as_slice()))
            .field("token", &self.token)
            .finish()
    }
}

/// A whole number where it stands.
#[derive(Clone, Copy, Debug)]
pub struct Int {
    pub value: u64,
    /// The number of its token in the unit, from 0.
    pub token: u32,
}
