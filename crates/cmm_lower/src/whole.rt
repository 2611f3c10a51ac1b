//! The program of all units.

ghost use Rattle.std.specs.Prelude.{◌≡◌, ◌<◌, ◌^◌, List, length, IfOk};
ghost use Rattle.std.specs.List.{All, AllZip};
ghost use Rattle.cmm_static_semantics.specs.Declarations.{NamedUnit};
ghost use Rattle.cmm_static_semantics.specs.Linking.{Program as Linked};
ghost use Rattle.cmm_checked.specs.Known.{IsKnown, names_of};
ghost use Rattle.cmm_linkage.specs.Registers.{AreWidths};
ghost use Rattle.cmm_elaboration.specs.Laws.{AreRead, TextsAreBytes};
ghost use Rattle.cmm_elaboration.specs.Meaning.{meaning_of, program_by};
ghost use Rattle.cmm_program.specs.InRange.{IsInRange};
ghost use Rattle.cmm_lower.specs.inside.Made.{AllFit, AreParts};
ghost use Rattle.cmm_typing.specs.Fitting.{AreWords};

use crate::parts::Parts;
use cmm_checked::{Checked, CheckedUnit};
use cmm_linkage::Linkage;
use cmm_lower_parts::{globals_of, main_of};
use cmm_program::Program;
use cmm_symbols::Index;
use cmm_words::Width;
use std::alloc::{AllocError, Global};

/// What all units have of the program.
fn parts_of(alloc: Global, units: &[CheckedUnit<'_>]) -> Result<Parts, AllocError>
    requires few { length units.now < 2 ^ 32 }
    requires words { All (λ c. AreWords (names_of c)) units.now }
    ensures { IfOk result (λ parts. (program : Linked) (us : List NamedUnit) → AllZip (IsKnown program) us units.now → AllFit program us → AreParts program us parts) }
{
    let mut parts = Parts::none(alloc);
    for (number, unit) in units.iter().enumerate() {
        parts = parts.with_unit(alloc, number as u32, unit)?;
    }
    Ok(parts)
}

/// The program of some units, from their parts, from what they know of each other, and from the widths of their registers.
fn program_of(
    alloc: Global,
    parts: Parts,
    linkage: &Linkage<'_>,
    widths: &Index<'_, Option<Width>>,
) -> Result<Program, AllocError>
    ensures { IfOk result (λ program. (us : List NamedUnit) → AreParts linkage.now us parts → AreWidths widths.now us → program ≡ program_by linkage.now us) }
{
    let Parts {
        procs,
        datums,
        labels,
    } = parts;
    let registers = linkage.register_names();
    let globals = globals_of(alloc, registers, widths)?;
    let main = main_of(linkage);
    Ok(Program {
        procs,
        datums,
        globals,
        labels,
        main,
    })
}

/// The program that checked units mean, in range, where they derive as many tokens as they have places for and their texts are of bytes, as units that
/// were read do.
pub fn lower(alloc: Global, checked: &Checked<'_>) -> Result<Program, AllocError>
    ensures program { IfOk result (λ program. AreRead checked.now → TextsAreBytes checked.now → program ≡ meaning_of checked.now) }
    ensures range { IfOk result (λ program. AreRead checked.now → TextsAreBytes checked.now → IsInRange program) }
{
    let parts = parts_of(alloc, checked.units())?;
    let program = program_of(alloc, parts, checked.linkage(), checked.widths())?;
    Ok(program)
}
