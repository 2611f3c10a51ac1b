//! Why tokens are no unit.

ghost use Rattle.std.specs.Prelude.{◌≡◌};

use cmm_rules::Rule;
use std::alloc::{AllocError, AllocFailed};
use thiserror::Error;

/// Why a unit has no syntax tree.
#[derive(Debug, Drop, Error)]
pub enum SyntaxFault {
    /// It breaks this rule at this token, counted from 0: `Rule::Syntax` where no unit begins with the tokens up to and including
    /// this one, or, past the last, where the tokens are no whole unit; `Rule::TooDeep` where this token opens one bracket too many,
    /// or is one operator too many of an outermost expression.
    #[error("rule {rule} at token {token}")]
    At { rule: Rule, token: u32 },
    #[error("out of memory")]
    Memory,
}

/// Why a part is not parsed, at the token with this number.
#[derive(Drop)]
pub(crate) enum Stop {
    /// Nothing goes on with it.
    Unexpected(u32),
    /// It passes a limit on nesting.
    TooDeep(u32),
    Memory,
}

impl From<AllocError> for Stop {
    ghost use Rattle.cmm_parser.specs.declared.fault.Stop.{Stop};

    ghost from_gives = { λ _ stop. stop ≡ Stop.Memory };

    fn from(_: AllocError) -> Stop {
        Stop::Memory
    }
}

impl<T: Drop> From<AllocFailed<T>> for Stop {
    ghost use Rattle.cmm_parser.specs.declared.fault.Stop.{Stop};

    ghost from_gives = { λ _ stop. stop ≡ Stop.Memory };

    fn from(_: AllocFailed<T>) -> Stop {
        Stop::Memory
    }
}

impl From<Stop> for SyntaxFault {
    ghost use Rattle.cmm_parser.specs.inside.Parsing.{fault_of};

    ghost from_gives = { λ stop fault. fault ≡ fault_of stop };

    fn from(stop: Stop) -> SyntaxFault {
        match stop {
            Stop::Unexpected(token) => SyntaxFault::At {
                rule: Rule::Syntax,
                token,
            },
            Stop::TooDeep(token) => SyntaxFault::At {
                rule: Rule::TooDeep,
                token,
            },
            Stop::Memory => SyntaxFault::Memory,
        }
    }
}

impl From<AllocError> for SyntaxFault {
    ghost use Rattle.cmm_parser.specs.declared.fault.SyntaxFault.{SyntaxFault};

    ghost from_gives = { λ _ fault. fault ≡ SyntaxFault.Memory };

    fn from(_: AllocError) -> SyntaxFault {
        SyntaxFault::Memory
    }
}
