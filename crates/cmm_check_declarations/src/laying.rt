//! Where a piece of data or of stackdata ends that is laid down at a place.

ghost use Rattle.std.specs.Prelude.{◌≡◌, ◌*◌, ◌<◌, ◌≤◌, ◌∷◌, []};
ghost use Rattle.cmm_program.specs.Layout.{aligned_up};
ghost use Rattle.cmm_check_declarations.specs.DataEnds.{EndsWithin};

/// The most bytes that the data of all units may have, with the padding between them: 64 MiB.
pub const DATA_LIMIT: u64 = 0x400_0000;

/// The least multiple of an alignment that is not below a place.
fn aligned_up(align: u64, place: u64) -> u64
    requires align { 0 < align }
    requires small { align ≤ 16 }
    requires place { place ≤ DATA_LIMIT }
    ensures { result ≡ aligned_up align place }
{
    (place + (align - 1)) / align * align
}

/// Where a count of words of a size ends from a place on, in bytes, unless that is past a limit.
pub fn laid(limit: u64, place: u64, align: u64, size: u64, count: u64) -> Option<u64>
    requires limit { limit ≤ DATA_LIMIT }
    requires place { place ≤ limit }
    requires align { 0 < align }
    requires small { align ≤ 16 }
    requires size { 0 < size }
    ensures { EndsWithin limit place (record { align = align; length = count * size } ∷ []) result }
{
    let start = aligned_up(align, place);
    let room = limit.checked_sub(start)?;
    if count > room / size {
        return None;
    }
    Some(start + count * size)
}
