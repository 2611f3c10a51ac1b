//! Operands in the registers where they are, and results in those where they are to be.

ghost use Rattle.std.specs.Prelude.{◌≡◌, ◌≢◌, ◌+◌, ◌<◌, ◌≤◌, IfOk, List, OnOk};
ghost use Rattle.rv_asm.specs.declared.part.Meaning.{Meaning};
ghost use Rattle.cmm_effects.specs.Pieces.{Adds};
ghost use Rattle.cmm_select.specs.Destinations.{IsDestination};
ghost use Rattle.cmm_select.specs.Operands.{IsOperand, most_for};
ghost use Rattle.cmm_select.specs.inside.InPlace.{Finishes, IsHome, IsTarget, LocatesBoth, LocatesOperand, home_of, target_of};

use crate::destination::{Destination, put};
use crate::operand::{Operand, bring_operand};
use crate::source::Source;
use cmm_abi::registers::{FIRST_SCRATCH, HELPER, SECOND_SCRATCH, ZERO};
use cmm_chain::Location;
use rv_asm::Asm;
use std::alloc::AllocError;

/// The registers of two operands.
#[derive(Clone, Copy)]
pub(crate) struct Pair {
    pub(crate) first: u8,
    pub(crate) second: u8,
}

/// The register in which an operand is, if it is in one: that of its place, or the one that has 0.
pub(crate) fn home_of(from: &Operand) -> Option<u8>
    ensures { result ≡ home_of from.now }
{
    let Operand::Held(source) = *from else {
        return None;
    };
    match source {
        Source::Place(Location::Saved(register)) => Some(register),
        Source::Place(Location::Temp(register)) => Some(register),
        Source::Number(number) => {
            if number == 0 {
                return Some(ZERO);
            }
            None
        }
        _ => None,
    }
}

/// The register that has an operand: its own, or else `spare`, 5 or 7, into which it is brought; register 6 may help.
pub(crate) fn locate(asm: &mut Asm, from: &Operand, spare: u8) -> Result<u8, AllocError>
    requires operand { IsOperand asm.old.labels from.now }
    requires low { FIRST_SCRATCH ≤ spare }
    requires high { spare ≤ SECOND_SCRATCH }
    requires beside { spare ≢ HELPER }
    ensures locates { IfOk result (λ r. Adds (most_for from.now) asm.old.parts asm.new.parts (LocatesOperand from.now spare r)) }
    ensures home { IfOk result (IsHome spare) }
    ensures register { IfOk result (λ r. r < 32) }
    ensures labels { asm.new.labels ≡ asm.old.labels }
{
    match home_of(from) {
        Some(register) => Ok(register),
        None => {
            bring_operand(asm, from, spare)?;
            Ok(spare)
        }
    }
}

/// The registers that have two operands: their own, or else 5 for the first and 7 for the second.
pub(crate) fn locate_both(
    asm: &mut Asm,
    left: &Operand,
    right: &Operand,
) -> Result<Pair, AllocError>
    requires left { IsOperand asm.old.labels left.now }
    requires right { IsOperand asm.old.labels right.now }
    ensures locates { IfOk result (λ pair. Adds (most_for left.now + most_for right.now) asm.old.parts asm.new.parts (LocatesBoth left.now right.now pair.first pair.second)) }
    ensures first { IfOk result (λ pair. pair.first < 32) }
    ensures second { IfOk result (λ pair. pair.second < 32) }
    ensures labels { asm.new.labels ≡ asm.old.labels }
{
    let first = locate(asm, left, FIRST_SCRATCH)?;
    let second = locate(asm, right, SECOND_SCRATCH)?;
    Ok(Pair { first, second })
}

/// The register in which a number for a destination is made: that of its place, or 5.
pub(crate) fn target(to: &Destination) -> u8
    ensures is { result ≡ target_of to.now }
    ensures register { (labels : List Meaning) → IsDestination labels to.now → IsTarget result }
{
    let Destination::Place(place) = *to else {
        return FIRST_SCRATCH;
    };
    match place {
        Location::Slot(_) => FIRST_SCRATCH,
        Location::Saved(register) => register,
        Location::Temp(register) => register,
    }
}

/// Puts what was made in a destination's register there: nothing is to do where that is the destination.
pub(crate) fn finish(asm: &mut Asm, to: &Destination) -> Result<(), AllocError>
    requires { IsDestination asm.old.labels to.now }
    ensures finishes { OnOk result (Adds 4 asm.old.parts asm.new.parts (Finishes to.now)) }
    ensures labels { asm.new.labels ≡ asm.old.labels }
{
    if target(to) != FIRST_SCRATCH {
        return Ok(());
    }
    put(asm, FIRST_SCRATCH, to)
}
