//! From parts to the code of a unit, and the places in it.

ghost use Rattle.std.specs.Prelude.{◌≡◌, ◌≤◌, ◌^◌, map, slice_index, IfOk};
ghost use Rattle.rv_asm.specs.Sizes.{all_longest};
ghost use Rattle.cmm_emit.specs.Finishing.{IsFinished, places_at};

use crate::context::Context;
use crate::outline::Outline;
use cmm_items::Items;
use cmm_unit_code::UnitCode;
use rv_asm::{Asm, Label};
use std::alloc::{AllocError, Global};

/// The place of a label, in bytes from the beginning of the code, or 0 where it has none.
pub fn place(places: &[u64], label: Label) -> u64
    ensures { result ≡ slice_index places.now label.number }
{
    match places.get(label.number as usize) {
        Some(place) => *place,
        None => 0,
    }
}

/// The places of labels, in their order. An error is want of memory.
fn places_of(alloc: Global, places: &[u64], labels: &[Label]) -> Result<Items<u64>, AllocError>
    ensures { IfOk result (λ found. found ≡ places_at places.now labels.now) }
{
    let mut found = Items::new(alloc);
    for label in labels {
        found.push(place(places, *label))?;
    }
    Ok(found)
}

/// The places of the landings of each procedure. An error is want of memory.
fn landings_of(
    alloc: Global,
    places: &[u64],
    contexts: &[Context],
) -> Result<Items<Items<u64>>, AllocError>
    ensures { IfOk result (λ found. found ≡ map (λ c. places_at places.now c.landings) contexts.now) }
{
    let mut found = Items::new(alloc);
    for context in contexts {
        found.push(places_of(alloc, places, context.landings.as_slice())?)?;
    }
    Ok(found)
}

/// The places of the sites of each procedure. An error is want of memory.
fn sites_of(
    alloc: Global,
    places: &[u64],
    contexts: &[Context],
) -> Result<Items<Items<u64>>, AllocError>
    ensures { IfOk result (λ found. found ≡ map (λ c. places_at places.now c.sites) contexts.now) }
{
    let mut found = Items::new(alloc);
    for context in contexts {
        found.push(places_of(alloc, places, context.sites.as_slice())?)?;
    }
    Ok(found)
}

/// The code of a unit that was laid. An error is want of memory.
pub fn finish_unit(alloc: Global, asm: Asm, outline: &Outline) -> Result<UnitCode, AllocError>
    requires room { all_longest asm.parts ≤ 2 ^ 30 }
    ensures { IfOk result (λ u. IsFinished asm.labels asm.parts outline.now u) }
{
    let placed = asm.finish(0)?;
    let places = placed.places.as_slice();
    let procedures = places_of(alloc, places, outline.entries.as_slice())?;
    let landings = landings_of(alloc, places, outline.contexts.as_slice())?;
    let sites = sites_of(alloc, places, outline.contexts.as_slice())?;
    let references = Items::from_slice(alloc, outline.references.as_slice())?;
    Ok(UnitCode {
        code: placed.bytes,
        references,
        fixes: placed.fixes,
        procedures,
        landings,
        sites,
    })
}
