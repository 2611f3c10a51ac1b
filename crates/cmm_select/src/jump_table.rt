//! Control goes by a number into a table of jumps, in the same time whatever the number is.

ghost use Rattle.std.specs.Prelude.{◌≡◌, ◌+◌, ◌-◌, ◌*◌, ◌≤◌, length, pos, ◌-ℤ◌, OnOk};
ghost use Rattle.std.specs.List.{All};
ghost use Rattle.rv_asm.specs.Assembly.{IsInner};
ghost use Rattle.rv_asm.specs.declared.part.TheConstants.{TABLE_LIMIT};
ghost use Rattle.rv_table.specs.Table.{IsValid};
ghost use Rattle.rv_table.specs.declared.instruction.Instr.TheVariants.{Jalr, Sltiu};
ghost use Rattle.cmm_effects.specs.Pieces.{Adds, Always, Leads};
ghost use Rattle.cmm_select.specs.inside.NumberRuns.{GoesInRun, Masks};

use crate::immediates::measure;
use cmm_abi::registers::{HELPER, SECOND_SCRATCH, ZERO};
use rv_asm::{Asm, Label};
use rv_table::Instr;
use std::alloc::AllocError;

/// Goes to the label of the value in register 5, of labels that the numbers up to one before `end` have, and on where it is none of these. A value is taken by how far
/// it is below the end, any other as the end itself, and 4 bytes of the table are passed for each number that comes before it.
pub(crate) fn jump_by_table(asm: &mut Asm, end: u64, to: &[Label]) -> Result<(), AllocError>
    requires some { 1 ≤ length to.now }
    requires few { length to.now ≤ TABLE_LIMIT }
    requires low { length to.now ≤ end }
    requires inner { All (IsInner asm.old.labels) to.now }
    ensures goes { OnOk result (Adds (20 * length to.now) asm.old.parts asm.new.parts (GoesInRun 20 to.now (end - length to.now))) }
    ensures labels { asm.new.labels ≡ asm.old.labels }
{
    let count = to.len();
    measure(asm, end)?;
    mask_outside(asm, count)?;
    asm.emit(Instr::Slli {
        rd: SECOND_SCRATCH,
        rs1: SECOND_SCRATCH,
        imm: 2,
    })?;
    asm.emit(Instr::Auipc { rd: HELPER, imm: 0 })?;
    asm.emit(Instr::Add {
        rd: SECOND_SCRATCH,
        rs1: SECOND_SCRATCH,
        rs2: HELPER,
    })?;
    asm.emit(jump_past(count))?;
    asm.table(to)
}

/// Leaves register 7 as it is where it is one of the last `count` numbers of 64 bits, and makes it 0 elsewhere.
fn mask_outside(asm: &mut Asm, count: usize) -> Result<(), AllocError>
    requires some { 1 ≤ count }
    requires few { count ≤ TABLE_LIMIT }
    ensures masks { OnOk result (Adds 3 asm.old.parts asm.new.parts (Leads 3 Always (Masks count))) }
    ensures labels { asm.new.labels ≡ asm.old.labels }
{
    asm.emit(test_outside(count))?;
    asm.emit(Instr::Addi {
        rd: HELPER,
        rs1: HELPER,
        imm: -1,
    })?;
    asm.emit(Instr::And {
        rd: SECOND_SCRATCH,
        rs1: SECOND_SCRATCH,
        rs2: HELPER,
    })
}

/// Gives register 6 whether register 7 is below the last `count` numbers of 64 bits.
fn test_outside(count: usize) -> Instr
    requires { count ≤ TABLE_LIMIT }
    ensures is { result ≡ Sltiu HELPER SECOND_SCRATCH (pos 0 -ℤ pos count) }
    ensures valid { IsValid result }
{
    Instr::Sltiu {
        rd: HELPER,
        rs1: SECOND_SCRATCH,
        imm: 0 - count as i32,
    }
}

/// Jumps to the place `count` words behind the table that begins three words behind the address of which register 7 is the sum with 4 bytes less for each number up to the end.
fn jump_past(count: usize) -> Instr
    requires { count ≤ TABLE_LIMIT }
    ensures is { result ≡ Jalr ZERO SECOND_SCRATCH (pos (12 + 4 * count)) }
    ensures valid { IsValid result }
{
    Instr::Jalr {
        rd: ZERO,
        rs1: SECOND_SCRATCH,
        imm: 12 + 4 * count as i32,
    }
}
