//! Which field breaks a rule, and why there is no value.

ghost use Rattle.std.specs.Prelude.{◌≡◌};

use cmm_rules::Rule;
use std::alloc::{AllocError, AllocFailed};

/// A rule that is broken, and how many bytes are left from the first byte of the field that breaks it.
#[derive(Clone, Copy)]
pub struct Broken {
    pub rule: Rule,
    pub left: usize,
}

/// Why a field could not be read.
#[derive(Drop)]
pub enum Unread {
    Breaks(Broken),
    Memory,
}

impl From<AllocError> for Unread {
    ghost use Rattle.cmm_format.specs.declared.fault.Unread.{Unread};

    ghost from_gives = { λ _ why. why ≡ Unread.Memory };

    fn from(_: AllocError) -> Unread {
        Unread::Memory
    }
}

impl<T: Drop> From<AllocFailed<T>> for Unread {
    ghost use Rattle.cmm_format.specs.declared.fault.Unread.{Unread};

    ghost from_gives = { λ _ why. why ≡ Unread.Memory };

    fn from(_: AllocFailed<T>) -> Unread {
        Unread::Memory
    }
}
