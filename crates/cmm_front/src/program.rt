//! The program of units.

ghost use Rattle.std.specs.Prelude.{◌<◌, ◌≤◌, ◌^◌, All, length, map, IfOk, IfErr, OnOk};
ghost use Rattle.std.specs.Cmp.Lexicographic.{slice_cmp};
ghost use Rattle.std.specs.List.{AllZip};
ghost use Rattle.std.specs.List.Sorted.{IsStrictlySortedBy};
ghost use Rattle.std.specs.Ordering.{nat_cmp};
ghost use Rattle.cmm_elaboration.specs.Room.{KeepsRoom};
ghost use Rattle.cmm_lexer.specs.Laws.{AreBytes};
ghost use Rattle.cmm_program.specs.InRange.{IsInRange};
ghost use Rattle.cmm_front.specs.Programs.{IsProgramOf};
ghost use Rattle.cmm_front.specs.Refusing.{IsFaultOf, IsRefused};
ghost use Rattle.cmm_front.specs.Sources.{IsTreeOf};

use crate::fault::FrontFault;
use crate::tokens::tokens_of;
use crate::trees::trees_of;
use cmm_ast::Unit;
use cmm_check_units::check_units;
use cmm_items::Items;
use cmm_lower::lower;
use cmm_program::Program;
use std::alloc::Global;

/// The trees of units. Their tokens are let go, since trees have what is asked of them later.
fn trees_in(alloc: Global, units: &[Items<u8>]) -> Result<Items<Unit>, FrontFault>
    requires { length units.now < 2 ^ 32 }
    ensures ok { IfOk result (AllZip IsTreeOf units.now) }
    ensures bytes { OnOk result (All AreBytes units.now) }
    ensures err { IfErr result (IsRefused (IsFaultOf units.now)) }
{
    let tokens = tokens_of(alloc, units)?;
    let trees = trees_of(alloc, tokens.as_slice())?;
    Ok(trees)
}

/// The program that units mean, in range and with room in an image, by the bytes of each (C-- Language Specification 2.0, compilation units). Where they
/// break a rule the fault names the first, by phase, then by unit, place and number.
pub fn program_of(alloc: Global, units: &[Items<u8>]) -> Result<Program, FrontFault>
    requires { length units.now < 2 ^ 32 }
    ensures ok { IfOk result (IsProgramOf units.now) }
    // It is in range, and has no more than the tokens of units allow.
    ensures range { IfOk result IsInRange }
    ensures room { IfOk result KeepsRoom }
    // Registers are numbered by their names, which ascend by bytes.
    ensures registers { IfOk result (λ p. IsStrictlySortedBy (slice_cmp nat_cmp) (map (λ g. g.name) p.globals)) }
    // Each span in force at a call site stands in a bracket of its own, and at most 200 brackets are open.
    ensures spans { IfOk result (λ p. All (λ q. All (λ site. length site.spans ≤ 200) q.sites) p.procs) }
    ensures err { IfErr result (IsRefused (IsFaultOf units.now)) }
    ensures named { 0 < length units.now → IfErr result (IsRefused (λ f. f.unit < length units.now)) }
{
    cmm_elaboration::laws::registers_ascend();
    cmm_elaboration::laws::room_is_kept();
    cmm_elaboration::laws::spans_are_few();
    let trees = trees_in(alloc, units)?;
    let checked = check_units(alloc, trees.as_slice())?;
    let program = lower(alloc, &checked)?;
    Ok(program)
}
