//! The two passes in a row: units are checked, and what is known of them is lowered.

ghost use Rattle.std.specs.Prelude.{◌≡◌, ◌<◌, ◌^◌, length, IfOk, IfErr};
ghost use Rattle.cmm_static_semantics.specs.Faults.{AreAccepted};
ghost use Rattle.cmm_elaboration.specs.Laws.{AreRead, TextsAreBytes};
ghost use Rattle.cmm_elaboration.specs.Meaning.{meaning_of};
ghost use Rattle.cmm_program.specs.InRange.{IsInRange};
ghost use Rattle.cmm_check_units.specs.Faults.{IsFaultOf};

use cmm_ast::Unit;
use cmm_check_units::{StaticFault, check_units};
use cmm_lower::lower;
use cmm_program::Program;
use std::alloc::Global;

/// The program that units mean, if they break no static rule; else the fault is that of `check_units`. Units are those that `cmm_parser` gives, and fewer
/// than 2^32: it is where they derive as many tokens as they have places for, and their texts are of bytes, that the program is the one that they mean,
/// and in range.
pub fn check(alloc: Global, units: &[Unit]) -> Result<Program, StaticFault>
    requires { length units.now < 2 ^ 32 }
    ensures accepted { IfOk result (λ _. AreAccepted units.now) }
    ensures program { IfOk result (λ program. AreRead units.now → TextsAreBytes units.now → program ≡ meaning_of units.now) }
    ensures range { IfOk result (λ program. AreRead units.now → TextsAreBytes units.now → IsInRange program) }
    ensures err { IfErr result (IsFaultOf units.now) }
{
    let checked = check_units(alloc, units)?;
    let program = lower(alloc, &checked)?;
    Ok(program)
}
