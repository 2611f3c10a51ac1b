//! A call of `Files` that is kept without taking memory.

ghost use Rattle.std.specs.Prelude.{◌≡◌, ◌↔◌, ◌≤◌, length, true};

use crate::storage::{CallKind, NAME_LIMIT};
use std::marker::Model;

/// What a call does, and the name that it was given.
#[derive(Drop)]
pub struct NamedCall {
    kind: CallKind,
    name: [u8; NAME_LIMIT],
    length: usize,
}

impl Model for NamedCall {
    ghost use Rattle.std.specs.Prelude.{◌≤◌, take};
    ghost use Rattle.cmm_outside.specs.Storage.{FailedCall};
    ghost use Rattle.cmm_outside.specs.declared.storage.TheConstants.{NAME_LIMIT};

    ghost Value = { FailedCall };

    ghost view = { λ c. record { kind = c.kind; name = take c.length c.name } };

    ghost invariant = { λ c. c.length ≤ NAME_LIMIT };
}

impl NamedCall {
    /// Keeps a call.
    pub fn new(kind: CallKind, name: &str) -> Self
        requires { length name.now ≤ NAME_LIMIT }
        ensures { result ≡ record { kind = kind; name = name.now } }
    {
        let length = name.len();
        let mut bytes = [0; NAME_LIMIT];
        bytes[..length].copy_from_slice(name.as_bytes());
        NamedCall {
            kind,
            name: bytes,
            length,
        }
    }

    /// Whether it was given this name.
    pub fn is_of(&self, name: &str) -> bool
        ensures { result ≡ true ↔ self.now.name ≡ name.now }
    {
        &self.name[..self.length] == name.as_bytes()
    }
}
