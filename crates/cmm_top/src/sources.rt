//! Units read from their files.

ghost use Rattle.std.specs.Prelude.{◌≡◌, ◌+◌, ◌≤◌, ◌++◌, ◌∷◌, [], ℕ, List, length, map, IfOk, OnOk};
ghost use Rattle.std.specs.List.{All};
ghost use Rattle.cmm_outside.specs.declared.storage.TheConstants.{NAME_LIMIT};
ghost use Rattle.cmm_top.specs.Reads.{units_in};
ghost use Rattle.cmm_top.specs.inside.Reading.{AreRead, AreUnits, AreWithin};
ghost use Rattle.cmm_work.specs.Reading.{IsFileOf, ReadsEach, ReadsOrFails};

use cmm_items::Items;
use cmm_lexer::UNIT_LIMIT;
use cmm_outside::Files;
use cmm_work::{FileBytes, ReadFault, bytes_in};
use std::alloc::{AllocError, Global};

/// The bytes of units, in their order: of all, or of those before the first that is longer than a unit may be.
#[derive(Drop)]
pub(crate) struct Sources {
    pub units: Items<Items<u8>>,
    /// Whether such a unit is behind these.
    pub cut: bool,
}

impl Sources {
    /// Adds the next unit, unless it is longer than a unit may be. Those behind such a unit are not kept.
    fn add(&mut self, unit: FileBytes) -> Result<(), AllocError>
        ensures units { (units : List (List ℕ)) (bytes : List ℕ) → IsFileOf UNIT_LIMIT bytes unit → AreUnits units self.old → OnOk result (AreUnits (units ++ bytes ∷ []) self.new) }
        ensures within { (count : ℕ) → AreWithin count self.old → OnOk result (AreWithin (count + 1) self.new) }
    {
        if self.cut {
            return Ok(());
        }
        match unit {
            FileBytes::Whole(bytes) => self.units.push(Items::from_vec(bytes))?,
            FileBytes::TooLong => self.cut = true,
        }
        Ok(())
    }
}

/// Reads the units in files of these names, in their order, each up to one byte past what a unit may have.
pub(crate) fn sources_of<'a, F: Files>(
    alloc: Global,
    files: &mut F,
    names: &[&'a str],
) -> Result<Sources, ReadFault<'a>>
    requires short { All (λ name. length name.now ≤ NAME_LIMIT) names.now }
    ensures ok { IfOk result (AreRead (F.contents files.old) (map (λ name. name.now) names.now)) }
    ensures within { IfOk result (AreWithin (length names.now)) }
    ensures same { F.contents files.new ≡ F.contents files.old }
    ensures reads { ReadsEach (units_in (map (λ name. name.now) names.now)) (F.reads files.old) (F.reads files.new) result }
    ensures fault { ReadsOrFails (map (λ name. name.now) names.now) (F.faults files.old) (F.faults files.new) (F.last_failed files.old) (F.last_failed files.new) result }
{
    let mut sources = Sources {
        units: Items::new(alloc),
        cut: false,
    };
    for name in names {
        let unit = bytes_in(alloc, files, name, UNIT_LIMIT as u64)?;
        sources.add(unit)?;
    }
    Ok(sources)
}
