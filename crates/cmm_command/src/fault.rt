//! Why words are no command.

ghost use Rattle.std.specs.Prelude.{◌≡◌};

use clap::error::ErrorKind;
use std::alloc::AllocError;
use thiserror::Error;

/// Why words are no command.
#[derive(Clone, Copy, Debug, PartialEq, Eq, Error)]
pub enum CommandFault {
    /// There is no first word, it is none of the seven, its command does not take the words after it, a number is not in form or range, or
    /// a file's name has more than 4,095 bytes.
    #[error("usage")]
    Usage,
    /// Memory ran out.
    #[error("out of memory")]
    Memory,
}

impl From<AllocError> for CommandFault {
    ghost use Rattle.cmm_command.specs.declared.fault.CommandFault.{CommandFault};

    ghost from_gives = { λ _ fault. fault ≡ CommandFault.Memory };

    fn from(_: AllocError) -> CommandFault {
        CommandFault::Memory
    }
}
