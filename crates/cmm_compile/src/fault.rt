//! Why units have no image.

ghost use Rattle.std.specs.Prelude.{◌≡◌};

use cmm_front::FrontFault;
use cmm_static_semantics::Fault;
use std::alloc::{AllocError, AllocFailed};
use thiserror::Error;

/// Why units have no image.
#[derive(Debug, Drop, Error)]
pub enum BuildFault {
    /// They break a rule: the first by phase, then by unit, place and number.
    #[error("rule {} in unit {}", .0.rule, .0.unit)]
    At(Fault),
    #[error("out of memory")]
    Memory,
}

impl From<AllocError> for BuildFault {
    ghost use Rattle.cmm_compile.specs.declared.fault.BuildFault.{BuildFault};

    ghost from_gives = { λ _ fault. fault ≡ BuildFault.Memory };

    fn from(_: AllocError) -> BuildFault {
        BuildFault::Memory
    }
}

impl From<FrontFault> for BuildFault {
    ghost use Rattle.cmm_compile.specs.Refusing.{of_front};

    ghost from_gives = { λ front fault. fault ≡ of_front front };

    fn from(fault: FrontFault) -> BuildFault {
        match fault {
            FrontFault::At(fault) => BuildFault::At(fault),
            FrontFault::Memory => BuildFault::Memory,
        }
    }
}
