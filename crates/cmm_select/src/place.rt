//! Places are read and written.

ghost use Rattle.std.specs.Prelude.{◌≡◌, ◌≢◌, ◌<◌, ◌≤◌, pos, OnOk};
ghost use Rattle.rv_table.specs.Table.{IsValid};
ghost use Rattle.rv_table.specs.declared.instruction.Instr.TheVariants.{Addi};
ghost use Rattle.cmm_effects.specs.Changes.{CanReach, IsPlace, Puts, Sets, read_at};
ghost use Rattle.cmm_effects.specs.Pieces.{Adds, Leads};

use crate::word::{NEAR, restore, save};
use cmm_abi::registers::{FIRST_SCRATCH, HELPER};
use cmm_chain::Location;
use rv_asm::Asm;
use rv_table::Instr;
use std::alloc::AllocError;

/// Brings what a place has into register `rd`.
pub fn read(asm: &mut Asm, from: Location, rd: u8) -> Result<(), AllocError>
    requires place { IsPlace from }
    requires low { FIRST_SCRATCH ≤ rd }
    requires high { rd < 32 }
    ensures reads { OnOk result (Adds 3 asm.old.parts asm.new.parts (Leads 3 (CanReach from) (λ s t. Sets rd (read_at from s) s t))) }
    ensures labels { asm.new.labels ≡ asm.old.labels }
{
    match from {
        Location::Slot(offset) => restore(asm, rd, offset),
        Location::Saved(register) => asm.emit(copy(rd, register)),
        Location::Temp(register) => asm.emit(copy(rd, register)),
    }
}

/// Brings what a register other than `HELPER` has to a place.
pub fn write(asm: &mut Asm, register: u8, to: Location) -> Result<(), AllocError>
    requires place { IsPlace to }
    requires register { register < 32 }
    requires other { register ≢ HELPER }
    ensures writes { OnOk result (Adds 3 asm.old.parts asm.new.parts (Leads 3 (CanReach to) (λ s t. Puts to (s.registers register) s t))) }
    ensures labels { asm.new.labels ≡ asm.old.labels }
{
    match to {
        Location::Slot(offset) => save(asm, register, offset),
        Location::Saved(kept) => asm.emit(copy(kept, register)),
        Location::Temp(other) => asm.emit(copy(other, register)),
    }
}

/// The instruction that copies a register.
pub fn copy(rd: u8, rs1: u8) -> Instr
    requires to { rd < 32 }
    requires from { rs1 < 32 }
    ensures is { result ≡ Addi rd rs1 (pos 0) }
    ensures valid { IsValid result }
{
    Instr::Addi { rd, rs1, imm: 0 }
}

/// The instruction that adds a number to a register.
pub(crate) fn add_to(rd: u8, rs1: u8, number: u32) -> Instr
    requires to { rd < 32 }
    requires from { rs1 < 32 }
    requires number { number < NEAR }
    ensures is { result ≡ Addi rd rs1 (pos number) }
    ensures valid { IsValid result }
{
    Instr::Addi {
        rd,
        rs1,
        imm: number as i32,
    }
}
