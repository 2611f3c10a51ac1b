//! Why bytes are no image.

ghost use Rattle.std.specs.Prelude.{◌≡◌};

use cmm_rules::Rule;
use std::alloc::AllocError;
use thiserror::Error;

/// Why there is no image.
#[derive(Debug, Drop, Error)]
pub enum ImageFault {
    /// This rule is broken at the field that begins at this offset.
    #[error("{rule} at {offset}")]
    At { rule: Rule, offset: u64 },
    #[error("out of memory")]
    Memory,
}

impl From<AllocError> for ImageFault {
    ghost use Rattle.cmm_image.specs.declared.fault.ImageFault.{ImageFault};

    ghost from_gives = { λ _ why. why ≡ ImageFault.Memory };

    fn from(_: AllocError) -> ImageFault {
        ImageFault::Memory
    }
}
