//! Names, which are bytes.

ghost use Rattle.std.specs.Prelude.{◌≡◌, ◌↔◌, IsTrue, IfOk, bytes_eq};
ghost use Rattle.std.specs.Cmp.{partial_equiv_from_equiv};
ghost use Rattle.std.specs.Cmp.Lexicographic.{nat_list_eq_equiv};

use crate::quoted::Quoted;
use cmm_items::Items;
use std::alloc::{AllocError, Global};
use std::fmt;
use std::marker::Model;

/// A name: bytes, of which contracts see the list. Names are ordered as their bytes are.
#[derive(Eq, PartialOrd, Ord, Hash)]
pub struct Name {
    bytes: Items<u8>,
}

/// In one place, so that whoever lets one go has one call to prove.
impl Drop for Name {
    fn drop(self) {
        let Self { bytes: _ } = self;
    }
}

impl Model for Name {
    ghost use Rattle.std.specs.Prelude.{List, ℕ};

    ghost Value = { List ℕ };

    ghost view = { λ name. name.bytes };

    ghost inverse = { λ bytes. record { bytes = bytes } };
}

impl Name {
    /// The name of these bytes. Takes no memory.
    pub fn new(bytes: Items<u8>) -> Name
        ensures { result ≡ bytes }
    {
        Name { bytes }
    }

    /// The name of the bytes of a slice.
    pub fn from_slice(alloc: Global, bytes: &[u8]) -> Result<Name, AllocError>
        ensures { IfOk result (λ name. name ≡ bytes.now) }
    {
        Ok(Name::new(Items::from_slice(alloc, bytes)?))
    }

    /// The name's bytes.
    pub fn as_bytes(&self) -> &[u8]
        ensures { result.now ≡ self.now }
    {
        self.bytes.as_slice()
    }
}

/// A name prints as its bytes between quotes.
impl fmt::Debug for Name {
    fn fmt<W: fmt::Write>(&self, f: &mut fmt::Formatter<W>) -> fmt::Result {
        fmt::Debug::fmt(&Quoted(self.as_bytes()), f)
    }
}

/// A copy is the same name.
impl Clone for Name {
    ghost is_clone = { λ name copy. copy ≡ name };

    fn clone(&self) -> Result<Name, AllocError> {
        Ok(Name {
            bytes: self.bytes.clone()?,
        })
    }
}

/// Two names are equal where their bytes are.
impl PartialEq for Name {
    ghost eq = { bytes_eq };

    ghost laws = { partial_equiv_from_equiv nat_list_eq_equiv };

    fn eq(&self, other: &Name) -> bool
        ensures value { result ≡ bytes_eq self.now other.now }
        ensures same { IsTrue result ↔ (self.now ≡ other.now) }
    {
        self.bytes == other.bytes
    }
}
