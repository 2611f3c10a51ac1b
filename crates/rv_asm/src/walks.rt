//! The sizes of parts: each is short until its label lies out of reach.
//!
//! Two walks over the parts take turns until nothing grows. One goes up and looks at the labels that stand behind it; it has their
//! addresses as they are now. The other goes down and looks at those that stand ahead, by the bytes from each to the end. So what grows
//! makes others grow in the same walk, and a row of parts that tip each other costs no walk each. Distances never shrink, so the label of
//! a part that has grown stays out of the reach of its short form.

ghost use Rattle.std.specs.Prelude.{◌≡◌, ℕ, suc, ◌+◌, ◌^◌, ◌<◌, ◌≤◌, ◌%◌, length, map, slice_index, IfOk, IsTrue};
ghost use Rattle.std.specs.List.{All};
ghost use Rattle.rv_asm.specs.Assembly.{Fits};
ghost use Rattle.rv_asm.specs.Reach.{near_label};
ghost use Rattle.rv_asm.specs.Sizes.{all_longest, longest};
ghost use Rattle.rv_asm.specs.inside.Growing.{AreGrown, AreSettledAhead, AreSettledBack, AreSpots, ArePlacedBefore, HaveRests, IsGrowth, first_size, grown, out_ahead_by, out_back_by, start};
ghost use Rattle.rv_asm.specs.inside.Sound.{ArePlaces, IsSound, PlaceFits, noted};

use crate::finishing::note;
use crate::form::{near_label, shortest_size, size};
use crate::part::{Label, Meaning, Part};
use std::alloc::{AllocError, Global};

/// The size of a part at first.
fn first_size(part: &Part, labels: &[Meaning]) -> u64
    requires { Fits labels.now part.now }
    ensures { result ≡ first_size labels.now part.now }
{
    match near_label(part, labels) {
        Some(_) => shortest_size(part),
        None => size(part),
    }
}

/// The sizes of all parts at first. An error is want of memory.
fn first_sizes(alloc: Global, parts: &[Part], labels: &[Meaning]) -> Result<Vec<u64>, AllocError>
    requires { All (Fits labels.now) parts.now }
    ensures { IfOk result (λ sizes. sizes.items ≡ map (first_size labels.now) parts.now) }
{
    let mut sizes = Vec::with_capacity(alloc, parts.len())?;
    for part in parts {
        sizes.push(first_size(part, labels))?;
    }
    Ok(sizes)
}

/// Notes where a label stands.
fn mark(spots: &mut Vec<usize>, part: &Part, index: usize)
    requires fits { PlaceFits (length spots.old.items) part.now }
    requires index { index < 2 ^ 63 }
    ensures { spots.new.items ≡ noted spots.old.items part.now (suc index) }
{
    if let Part::Place(label) = part {
        spots[label.number as usize] = index + 1;
    }
}

/// Where labels stand among the parts: one more than the index of the part that places each, and 0 where none does. An error is want of
/// memory.
fn spots_of(alloc: Global, parts: &[Part], labels: &[Meaning]) -> Result<Vec<usize>, AllocError>
    requires { IsSound parts.now labels.now }
    ensures count { IfOk result (λ spots. length spots.items ≡ length labels.now) }
    ensures spots { IfOk result (λ spots. AreSpots parts.now spots.items) }
{
    let mut spots = vec![in alloc; 0; labels.len()]?;
    for (index, part) in parts.iter().enumerate() {
        mark(&mut spots, part, index);
    }
    Ok(spots)
}

/// Whether a part's label stands behind it, or has no place, and is out of reach.
fn is_out_back(
    part: &Part,
    labels: &[Meaning],
    spots: &[usize],
    places: &[u64],
    index: usize,
    from: u64,
) -> bool
    requires fits { Fits labels.now part.now }
    requires spots { length spots.now ≡ length labels.now }
    requires places { length places.now ≡ length labels.now }
    requires low { All (λ a. a ≤ 2 ^ 30) places.now }
    ensures { result ≡ out_back_by spots.now places.now index from (near_label labels.now part.now) }
{
    match near_label(part, labels) {
        Some((label, reach)) => spots[label.number as usize] <= index
            && places[label.number as usize] + reach < from,
        None => false,
    }
}

/// Whether a part's label stands ahead of it, and is out of reach. `rest` has the bytes from the part's first to the end.
fn is_out_ahead(
    part: &Part,
    labels: &[Meaning],
    spots: &[usize],
    rests: &[u64],
    index: usize,
    rest: u64,
) -> bool
    requires fits { Fits labels.now part.now }
    requires spots { length spots.now ≡ length labels.now }
    requires rests { length rests.now ≡ length labels.now }
    requires low { All (λ a. a ≤ 2 ^ 30) rests.now }
    requires rest { rest ≤ 2 ^ 30 }
    ensures { result ≡ out_ahead_by spots.now rests.now index rest (near_label labels.now part.now) }
{
    match near_label(part, labels) {
        Some((label, reach)) => index < spots[label.number as usize]
            && rests[label.number as usize] + reach < rest + 2,
        None => false,
    }
}

/// The size of a part that grows, or stays as it is.
fn grown(part: &Part, old: u64, is_out: bool) -> u64
    requires { longest part.now ≤ 2 ^ 30 }
    ensures { result ≡ grown part.now old is_out }
{
    if is_out { size(part) } else { old }
}

/// Walks up. What is out of reach of a label behind it grows. Gives the address behind the parts.
fn grow_back(
    parts: &[Part],
    labels: &[Meaning],
    spots: &[usize],
    base: u64,
    places: &mut Vec<u64>,
    sizes: &mut Vec<u64>,
) -> u64
    requires sound { IsSound parts.now labels.now }
    requires room { base + all_longest parts.now ≤ 2 ^ 30 }
    requires spot_count { length spots.now ≡ length labels.now }
    requires spots { AreSpots parts.now spots.now }
    requires place_count { length places.old.items ≡ length labels.now }
    requires low { All (λ a. a ≤ 2 ^ 30) places.old.items }
    requires places { ArePlacedBefore base sizes.old.items 0 places.old.items spots.now }
    requires grown { AreGrown labels.now parts.now spots.now base sizes.old.items }
    ensures end { result ≡ base + start sizes.new.items (length parts.now) }
    ensures place_count { length places.new.items ≡ length labels.now }
    ensures low { All (λ a. a ≤ 2 ^ 30) places.new.items }
    ensures places { ArePlacedBefore base sizes.new.items (length parts.now) places.new.items spots.now }
    ensures grown { AreGrown labels.now parts.now spots.now base sizes.new.items }
    ensures settled { AreSettledBack labels.now parts.now spots.now base sizes.new.items (length parts.now) }
    ensures more { start sizes.old.items (length parts.now) ≤ start sizes.new.items (length parts.now) }
{
    let mut address = base;
    for (index, part) in parts.iter().enumerate() {
        note(places, part, address);
        let is_out = is_out_back(part, labels, spots, places, index, address);
        let size = grown(part, sizes[index], is_out);
        sizes[index] = size;
        address += size;
    }
    address
}

/// Walks down. What is out of reach of a label ahead of it grows. Gives the bytes of all parts.
fn grow_ahead(
    parts: &[Part],
    labels: &[Meaning],
    spots: &[usize],
    base: u64,
    rests: &mut Vec<u64>,
    sizes: &mut Vec<u64>,
) -> u64
    requires sound { IsSound parts.now labels.now }
    requires room { base + all_longest parts.now ≤ 2 ^ 30 }
    requires spot_count { length spots.now ≡ length labels.now }
    requires spots { AreSpots parts.now spots.now }
    requires rest_count { length rests.old.items ≡ length labels.now }
    requires low { All (λ a. a ≤ 2 ^ 30) rests.old.items }
    requires grown { AreGrown labels.now parts.now spots.now base sizes.old.items }
    ensures size { result ≡ start sizes.new.items (length parts.now) }
    ensures rest_count { length rests.new.items ≡ length labels.now }
    ensures low { All (λ a. a ≤ 2 ^ 30) rests.new.items }
    ensures grown { AreGrown labels.now parts.now spots.now base sizes.new.items }
    ensures settled { AreSettledAhead labels.now parts.now spots.now base sizes.new.items 0 }
    ensures growth { IsGrowth (length parts.now) sizes.old.items sizes.new.items }
{
    let mut rest = 0;
    for index in (0..parts.len()).rev() {
        let part = &parts[index];
        let old = sizes[index];
        let is_out = is_out_ahead(part, labels, spots, rests, index, rest + old);
        let size = grown(part, old, is_out);
        sizes[index] = size;
        rest += size;
        note(rests, part, rest);
    }
    rest
}

/// Walks up and down until nothing grows.
fn grow(
    parts: &[Part],
    labels: &[Meaning],
    spots: &[usize],
    base: u64,
    places: &mut Vec<u64>,
    rests: &mut Vec<u64>,
    sizes: &mut Vec<u64>,
)
    requires sound { IsSound parts.now labels.now }
    requires room { base + all_longest parts.now ≤ 2 ^ 30 }
    requires spot_count { length spots.now ≡ length labels.now }
    requires spots { AreSpots parts.now spots.now }
    requires place_count { length places.old.items ≡ length labels.now }
    requires low { All (λ a. a ≤ 2 ^ 30) places.old.items }
    requires places { ArePlacedBefore base sizes.old.items 0 places.old.items spots.now }
    requires rest_count { length rests.old.items ≡ length labels.now }
    requires rests_low { All (λ a. a ≤ 2 ^ 30) rests.old.items }
    requires grown { AreGrown labels.now parts.now spots.now base sizes.old.items }
    ensures place_count { length places.new.items ≡ length labels.now }
    ensures low { All (λ a. a ≤ 2 ^ 30) places.new.items }
    ensures places { ArePlacedBefore base sizes.new.items (length parts.now) places.new.items spots.now }
    ensures grown { AreGrown labels.now parts.now spots.now base sizes.new.items }
    ensures back { AreSettledBack labels.now parts.now spots.now base sizes.new.items (length parts.now) }
    ensures ahead { AreSettledAhead labels.now parts.now spots.now base sizes.new.items 0 }
{
    loop {
        let end = grow_back(parts, labels, spots, base, places, sizes);
        let size = grow_ahead(parts, labels, spots, base, rests, sizes);
        if base + size == end {
            break;
        }
    }
}

/// The address of each label that is placed, by the forms that parts have with these addresses, and 0 for every other label. An error is
/// want of memory.
pub fn grown_places(
    alloc: Global,
    parts: &[Part],
    labels: &[Meaning],
    base: u64,
) -> Result<Vec<u64>, AllocError>
    requires sound { IsSound parts.now labels.now }
    requires aligned { base % 4 ≡ 0 }
    requires room { base + all_longest parts.now ≤ 2 ^ 30 }
    ensures { IfOk result (λ places. ArePlaces base parts.now labels.now places.items) }
{
    let spots = spots_of(alloc, parts, labels)?;
    let mut sizes = first_sizes(alloc, parts, labels)?;
    let mut places = vec![in alloc; 0; labels.len()]?;
    let mut rests = vec![in alloc; 0; labels.len()]?;
    grow(
        parts,
        labels,
        &spots,
        base,
        &mut places,
        &mut rests,
        &mut sizes,
    );
    Ok(places)
}
