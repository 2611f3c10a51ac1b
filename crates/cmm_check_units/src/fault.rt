//! Why units are not accepted.

ghost use Rattle.std.specs.Prelude.{◌≡◌};

use cmm_static_semantics::Fault;
use std::alloc::{AllocError, AllocFailed};
use thiserror::Error;

/// Why units are not accepted.
#[derive(Debug, Drop, Error)]
pub enum StaticFault {
    /// They break a static rule: the first by unit, place and number.
    #[error("rule {} in unit {}", .0.rule, .0.unit)]
    At(Fault),
    #[error("out of memory")]
    Memory,
}

impl From<AllocError> for StaticFault {
    ghost use Rattle.cmm_check_units.specs.declared.fault.StaticFault.{StaticFault};

    ghost from_gives = { λ _ fault. fault ≡ StaticFault.Memory };

    fn from(_: AllocError) -> StaticFault {
        StaticFault::Memory
    }
}
