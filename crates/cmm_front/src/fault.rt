//! Why units have no program.

ghost use Rattle.std.specs.Prelude.{◌≡◌};

use cmm_check_units::StaticFault;
use cmm_static_semantics::Fault;
use std::alloc::{AllocError, AllocFailed};
use thiserror::Error;

/// Why units have no program.
#[derive(Debug, Drop, Error)]
pub enum FrontFault {
    /// They break a rule: the first by phase, then by unit, place and number.
    #[error("rule {} in unit {}", .0.rule, .0.unit)]
    At(Fault),
    #[error("out of memory")]
    Memory,
}

impl From<AllocError> for FrontFault {
    ghost use Rattle.cmm_front.specs.declared.fault.FrontFault.{FrontFault};

    ghost from_gives = { λ _ fault. fault ≡ FrontFault.Memory };

    fn from(_: AllocError) -> FrontFault {
        FrontFault::Memory
    }
}

impl<T: Drop> From<AllocFailed<T>> for FrontFault {
    ghost use Rattle.cmm_front.specs.declared.fault.FrontFault.{FrontFault};

    ghost from_gives = { λ _ fault. fault ≡ FrontFault.Memory };

    fn from(_: AllocFailed<T>) -> FrontFault {
        FrontFault::Memory
    }
}

impl From<StaticFault> for FrontFault {
    ghost use Rattle.cmm_front.specs.Refusing.{of_static};

    ghost from_gives = { λ static_fault fault. fault ≡ of_static static_fault };

    fn from(fault: StaticFault) -> FrontFault {
        match fault {
            StaticFault::At(fault) => FrontFault::At(fault),
            StaticFault::Memory => FrontFault::Memory,
        }
    }
}
