//! Why bytes are no script.

ghost use Rattle.std.specs.Prelude.{◌≡◌};

use cmm_rules::Rule;
use std::alloc::{AllocError, AllocFailed};
use thiserror::Error;

/// Why there is no script.
#[derive(Debug, Drop, Error)]
pub enum ScriptFault {
    /// They break this rule at this line, counted from 1: `Rule::UnknownLine` where the line is of none of the forms, or is a command
    /// before the first block; `Rule::RepeatedBlock` where it begins a block whose code an earlier block has, or a second `other`;
    /// `Rule::ScriptTooLong` where the script is longer than `SCRIPT_LIMIT`, at line 1. The length is tested first; of the other rules
    /// the first line that breaks one is named.
    #[error("rule {rule} line {line}")]
    At { rule: Rule, line: u32 },
    #[error("out of memory")]
    Memory,
}

impl From<AllocError> for ScriptFault {
    ghost use Rattle.cmm_script.specs.declared.fault.ScriptFault.{ScriptFault};

    ghost from_gives = { λ _ fault. fault ≡ ScriptFault.Memory };

    fn from(_: AllocError) -> ScriptFault {
        ScriptFault::Memory
    }
}

impl<T: Drop> From<AllocFailed<T>> for ScriptFault {
    ghost use Rattle.cmm_script.specs.declared.fault.ScriptFault.{ScriptFault};

    ghost from_gives = { λ _ fault. fault ≡ ScriptFault.Memory };

    fn from(_: AllocFailed<T>) -> ScriptFault {
        ScriptFault::Memory
    }
}

/// Why words could not be read.
#[derive(Drop)]
pub enum Unread {
    /// They are of none of the forms.
    Form,
    Memory,
}

impl From<AllocError> for Unread {
    ghost use Rattle.cmm_script.specs.declared.fault.Unread.{Unread};

    ghost from_gives = { λ _ why. why ≡ Unread.Memory };

    fn from(_: AllocError) -> Unread {
        Unread::Memory
    }
}

impl<T: Drop> From<AllocFailed<T>> for Unread {
    ghost use Rattle.cmm_script.specs.declared.fault.Unread.{Unread};

    ghost from_gives = { λ _ why. why ≡ Unread.Memory };

    fn from(_: AllocFailed<T>) -> Unread {
        Unread::Memory
    }
}
