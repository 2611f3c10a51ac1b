//! Why bytes are no ELF file of an image.

use cmm_rules::Rule;
use thiserror::Error;

/// Why there is no ELF file of an image.
#[derive(Debug, Drop, Error)]
pub enum ElfFault {
    /// This rule is broken at the field that begins at this offset.
    #[error("{rule} at {offset}")]
    At { rule: Rule, offset: u64 },
    #[error("out of memory")]
    Memory,
}
