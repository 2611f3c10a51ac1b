//! The addresses of data and of labels.

ghost use Rattle.std.specs.Prelude.{◌≡◌, ◌+◌, ◌^◌, ◌<◌, ◌≤◌, length, map, IfOk};
ghost use Rattle.std.specs.List.{All};
ghost use Rattle.rv_table.specs.Memory.{data_base};
ghost use Rattle.cmm_program.specs.Layout.{aligned_up, datum_piece, end_of};
ghost use Rattle.cmm_data.specs.Conditions.{HasAlignment, IsOnDatum};
ghost use Rattle.cmm_data.specs.inside.Walking.{address_in, ends_from};

use cmm_program::{Datum, Label};
use rv_table::memory_map::DATA_BASE;
use std::alloc::{AllocError, Global};

/// The least multiple of an alignment that is not below an address.
pub fn next_aligned(align: u32, address: u64) -> u64
    requires align { 0 < align }
    requires address { address ≤ data_base + 2 ^ 32 }
    ensures { result ≡ aligned_up align address }
{
    let align = u64::from(align);
    (address + (align - 1)) / align * align
}

/// Where each datum ends, behind where the first may begin: one address more than there are data.
pub fn ends_of(alloc: Global, datums: &[Datum]) -> Result<Vec<u64>, AllocError>
    requires aligned { All HasAlignment datums.now }
    requires size { end_of data_base (map datum_piece datums.now) ≤ data_base + 2 ^ 32 }
    ensures { IfOk result (λ ends. ends.items ≡ ends_from data_base datums.now) }
{
    let mut ends = Vec::new(alloc);
    let mut end = DATA_BASE;
    for datum in datums {
        ends.push(end)?;
        end = next_aligned(datum.align, end) + u64::from(datum.length);
    }
    ends.push(end)?;
    Ok(ends)
}

/// The address of each label, where data ends so.
pub fn addresses_of(
    alloc: Global,
    labels: &[Label],
    datums: &[Datum],
    ends: &[u64],
) -> Result<Vec<u64>, AllocError>
    requires there { All (IsOnDatum (length datums.now)) labels.now }
    requires aligned { All HasAlignment datums.now }
    requires size { end_of data_base (map datum_piece datums.now) ≤ data_base + 2 ^ 32 }
    requires ends { ends.now ≡ ends_from data_base datums.now }
    ensures { IfOk result (λ addresses. addresses.items ≡ map (address_in datums.now) labels.now) }
{
    let mut addresses = Vec::new(alloc);
    for label in labels {
        addresses.push(address_of(label, datums, ends))?;
    }
    Ok(addresses)
}

/// The address of a label, where data ends so.
fn address_of(label: &Label, datums: &[Datum], ends: &[u64]) -> u64
    requires there { IsOnDatum (length datums.now) label.now }
    requires aligned { All HasAlignment datums.now }
    requires size { end_of data_base (map datum_piece datums.now) ≤ data_base + 2 ^ 32 }
    requires ends { ends.now ≡ ends_from data_base datums.now }
    ensures { result ≡ address_in datums.now label.now }
{
    let number = label.datum as usize;
    if label.at_end {
        ends[number]
    } else {
        next_aligned(datums[number].align, ends[number])
    }
}
