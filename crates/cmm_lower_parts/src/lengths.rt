//! Alignments and lengths of data and stackdata, in bytes, as a program holds them.

ghost use Rattle.std.specs.Prelude.{◌≡◌, ◌*◌};
ghost use Rattle.cmm_static_semantics.specs.Limits as limits;
ghost use Rattle.cmm_lower_parts.specs.Held.{held};

use cmm_typing::is_alignment;

/// What an alignment says, 1 where it is none of the language.
pub(crate) fn alignment_of(bytes: u64) -> u32
    ensures { result ≡ (limits.align_piece bytes).align }
{
    if is_alignment(bytes) { bytes as u32 } else { 1 }
}

/// How many bytes a count of words of a size has. What would be 2^32 or more is given as 2^32 - 1.
pub(crate) fn length_of(count: u64, size: u64) -> u32
    ensures { result ≡ held (count * size) }
{
    count.saturating_mul(size).min(u64::from(u32::MAX)) as u32
}
