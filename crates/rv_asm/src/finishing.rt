//! From parts to bytes.

ghost use Rattle.std.specs.Prelude.{◌≡◌, ℕ, ◌+◌, ◌%◌, ◌^◌, ◌≤◌, ◌↔◌, ◌++◌, length, IfOk, OnOk, IsTrue};
ghost use Rattle.std.specs.List.{All};
ghost use Rattle.rv_table.specs.Stands.{code_of};
ghost use Rattle.rv_asm.specs.Assembly.{Fits};
ghost use Rattle.rv_asm.specs.Filling.{AreApart};
ghost use Rattle.rv_asm.specs.Finishing.{HavePlaces, RunAsParts, fix_symbols, symbols_of};
ghost use Rattle.rv_asm.specs.Reach.{HasForms};
ghost use Rattle.rv_asm.specs.Sizes.{all_longest, longest};
ghost use Rattle.rv_asm.specs.inside.Forms.{code_by, fix_by, fix_of, fixes_of, unfilled};
ghost use Rattle.rv_asm.specs.inside.Sound.{ArePlaces, IsCodeAddress, IsSound, PlaceFits, noted};

use crate::filling::CodeFix;
use crate::form::{add_part, size, size_at};
use crate::part::{Label, Meaning, Part};
use crate::walks::grown_places;
use cmm_items::Items;
use std::alloc::{AllocError, Global};

/// Where code ends at the latest.
const LIMIT: u64 = 1 << 30;

/// Finished code.
#[derive(Drop)]
pub struct Placed {
    /// The bytes of the code, in which the numbers of symbols are 0.
    pub bytes: Items<u8>,
    /// The address of each label by its number, and 0 for one that is outer or has no place.
    pub places: Items<u64>,
    /// Where the numbers of symbols are to be filled in: one place for each part with an outer label, in the order of the parts.
    pub fixes: Items<CodeFix>,
}

/// The bytes of the parts for code at an address.
pub fn finish(
    alloc: Global,
    parts: &[Part],
    labels: &[Meaning],
    base: u64,
) -> Result<Placed, AllocError>
    requires sound { IsSound parts.now labels.now }
    requires aligned { base % 4 ≡ 0 }
    requires room { base + all_longest parts.now ≤ 2 ^ 30 }
    ensures runs { IfOk result (λ p. RunAsParts labels.now parts.now base p.bytes p.places p.fixes) }
    ensures size { IfOk result (λ p. length p.bytes ≤ all_longest parts.now) }
    ensures places { IfOk result (λ p. HavePlaces labels.now parts.now base (length p.bytes) p.places) }
    ensures symbols { IfOk result (λ p. fix_symbols p.fixes ≡ symbols_of labels.now parts.now) }
    ensures apart { IfOk result (λ p. AreApart 0 p.fixes (length p.bytes)) }
    ensures whole { IfOk result (λ p. length p.bytes % 4 ≡ 0) }
    ensures forms { IfOk result (λ p. HasForms labels.now parts.now base (length p.bytes) p.places) }
{
    let places = grown_places(alloc, parts, labels, base)?;
    let bytes = bytes_of(alloc, parts, labels, &places, base)?;
    let fixes = fixes_of(alloc, parts, labels, &places, base)?;
    Ok(Placed {
        bytes: Items::from_vec(bytes),
        places: Items::from_vec(places),
        fixes: Items::from_vec(fixes),
    })
}

/// Whether the parts, each in its longest form, end at 2^30 or before, if they begin at an address.
pub fn fits(parts: &[Part], labels: &[Meaning], base: u64) -> bool
    requires fit { All (Fits labels.now) parts.now }
    requires base { base ≤ 2 ^ 30 }
    ensures { IsTrue result ↔ (base + all_longest parts.now ≤ 2 ^ 30) }
{
    let mut end = base;
    for part in parts {
        end += size(part);
        if end > LIMIT {
            return false;
        }
    }
    true
}

/// Keeps the address of a part that is a label's place.
pub fn note(places: &mut Vec<u64>, part: &Part, address: u64)
    requires { PlaceFits (length places.old.items) part.now }
    ensures { places.new.items ≡ noted places.old.items part.now address }
{
    if let Part::Place(label) = part {
        places[label.number as usize] = address;
    }
}

/// The bytes of the parts from an address on, in which the numbers of symbols are 0.
fn bytes_of(
    alloc: Global,
    parts: &[Part],
    labels: &[Meaning],
    places: &[u64],
    base: u64,
) -> Result<Vec<u8>, AllocError>
    requires fit { All (Fits labels.now) parts.now }
    requires count { length places.now ≡ length labels.now }
    requires addresses { All IsCodeAddress places.now }
    requires aligned { base % 4 ≡ 0 }
    requires room { base + all_longest parts.now ≤ 2 ^ 30 }
    ensures { IfOk result (λ bytes. bytes.items ≡ code_of (code_by labels.now places.now unfilled base parts.now)) }
{
    // (most parts are one word)
    let mut bytes = Vec::with_capacity(alloc, parts.len().saturating_mul(4))?;
    let mut address = base;
    for part in parts {
        add_part(&mut bytes, part, labels, places, address)?;
        address += size_at(part, labels, places, address);
    }
    Ok(bytes)
}

/// Where the numbers of symbols are to be filled in, by where each part begins.
fn fixes_of(
    alloc: Global,
    parts: &[Part],
    labels: &[Meaning],
    places: &[u64],
    base: u64,
) -> Result<Vec<CodeFix>, AllocError>
    requires fit { All (Fits labels.now) parts.now }
    requires count { length places.now ≡ length labels.now }
    requires addresses { All IsCodeAddress places.now }
    requires room { base + all_longest parts.now ≤ 2 ^ 30 }
    ensures { IfOk result (λ fixes. fixes.items ≡ fixes_of labels.now places.now base 0 parts.now) }
{
    let mut fixes = Vec::new(alloc);
    let mut place = 0;
    for part in parts {
        add_fix(&mut fixes, part, labels, place)?;
        place += size_at(part, labels, places, base + u64::from(place)) as u32;
    }
    Ok(fixes)
}

/// Adds the fix of a part, if it has a symbol.
fn add_fix(
    fixes: &mut Vec<CodeFix>,
    part: &Part,
    labels: &[Meaning],
    place: u32,
) -> Result<(), AllocError>
    requires { Fits labels.now part.now }
    ensures { OnOk result (fixes.new.items ≡ fixes.old.items ++ fix_of labels.now place part.now) }
{
    match part {
        Part::Jump(label) | Part::Call(label) => {
            add_fix_by(fixes, labels[label.number as usize], place, true)
        }
        Part::Address { of, .. } => add_fix_by(fixes, labels[of.number as usize], place, false),
        Part::Single(_) | Part::Place(_) | Part::Branch { .. } | Part::Table(_) => Ok(()),
    }
}

/// Adds a fix for a label's symbol, if it has one.
fn add_fix_by(
    fixes: &mut Vec<CodeFix>,
    meaning: Meaning,
    place: u32,
    relative: bool,
) -> Result<(), AllocError>
    ensures { OnOk result (fixes.new.items ≡ fixes.old.items ++ fix_by relative meaning place) }
{
    if let Meaning::Outer { symbol, .. } = meaning {
        fixes.push(CodeFix {
            place,
            symbol,
            relative,
        })?;
    }
    Ok(())
}
