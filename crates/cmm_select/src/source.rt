//! Operands, and where they come from.

ghost use Rattle.std.specs.Prelude.{◌≡◌, ◌^◌, ◌<◌, ◌≤◌, OnOk};
ghost use Rattle.cmm_effects.specs.Changes.{Sets};
ghost use Rattle.cmm_effects.specs.Pieces.{Adds, Leads};
ghost use Rattle.cmm_select.specs.Operands.{most_for_source};
ghost use Rattle.cmm_select.specs.Sources.{CanBring, IsSource, brought};

use crate::number::{add_rest, load_constant};
use crate::place::{add_to, read};
use crate::word::{NEAR, approach};
use cmm_abi::registers::{FIRST_SCRATCH, FRAME};
use cmm_chain::Location;
use rv_asm::Asm;
use std::alloc::AllocError;

/// Where an operand comes from.
#[derive(Clone, Copy)]
pub enum Source {
    /// What a place has.
    Place(Location),
    /// A number.
    Number(u64),
    /// The address a number of bytes above that of the frame, less than 2 MiB.
    Address(u32),
}

/// Brings an operand into register `rd`.
pub fn bring(asm: &mut Asm, from: Source, rd: u8) -> Result<(), AllocError>
    requires source { IsSource from }
    requires low { FIRST_SCRATCH ≤ rd }
    requires high { rd < 32 }
    ensures brings { OnOk result (Adds (most_for_source from) asm.old.parts asm.new.parts (Leads (most_for_source from) (CanBring from) (λ s t. Sets rd (brought from s) s t))) }
    ensures labels { asm.new.labels ≡ asm.old.labels }
{
    match from {
        Source::Place(place) => read(asm, place, rd),
        Source::Number(number) => load_constant(asm, number, rd),
        Source::Address(offset) => address(asm, offset, rd),
    }
}

/// Gives register `rd` the address at an offset of the frame.
pub(crate) fn address(asm: &mut Asm, offset: u32, rd: u8) -> Result<(), AllocError>
    requires frame { offset < 2 ^ 21 }
    requires low { FIRST_SCRATCH ≤ rd }
    requires high { rd < 32 }
    ensures brings { OnOk result (Adds 4 asm.old.parts asm.new.parts (Leads 4 (CanBring (Source.Address offset)) (λ s t. Sets rd (brought (Source.Address offset) s) s t))) }
    ensures labels { asm.new.labels ≡ asm.old.labels }
{
    if offset < NEAR {
        return asm.emit(add_to(rd, FRAME, offset));
    }
    approach(asm, offset, rd)?;
    asm.emit(add_rest(rd, offset as u64))
}
