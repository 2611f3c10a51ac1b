//! Numbers in registers.

ghost use Rattle.std.specs.Prelude.{◌≡◌, ◌+◌, ◌*◌, ◌/◌, ◌^◌, ◌<◌, ◌≤◌, pos, OnOk};
ghost use Rattle.rv_table.specs.Table.{IsValid};
ghost use Rattle.rv_table.specs.Words.{signed};
ghost use Rattle.rv_table.specs.declared.instruction.Instr.TheVariants.{Addi, Lui};
ghost use Rattle.cmm_effects.specs.Changes.{Sets};
ghost use Rattle.cmm_effects.specs.Pieces.{Adds, Always, Leads};
ghost use Rattle.cmm_select.specs.Operands.{most_for_number};

use crate::place::add_to;
use crate::word::NEAR;
use cmm_abi::registers::{FIRST_SCRATCH, ZERO};
use rv_asm::Asm;
use rv_table::Instr;
use std::alloc::AllocError;

/// Numbers up to this are loaded by four instructions, and all others by eight.
const SHORT: u64 = 0x100_0000_0000;

/// Numbers below this are loaded by two instructions: 2^31 and half of what an immediate reaches below it.
const LOW: u64 = 0x7FFF_F800;

/// Gives register `rd`, a number.
pub fn load_constant(asm: &mut Asm, number: u64, rd: u8) -> Result<(), AllocError>
    requires low { FIRST_SCRATCH ≤ rd }
    requires high { rd < 32 }
    ensures sets { OnOk result (Adds (most_for_number number) asm.old.parts asm.new.parts (Leads (most_for_number number) Always (λ s t. Sets rd number s t))) }
    ensures labels { asm.new.labels ≡ asm.old.labels }
{
    if number <= SHORT {
        return load_rounded(asm, number, rd, 1);
    }
    load_rounded(asm, number, rd, 3)
}

/// Gives register `rd` a number, in pieces of 12 bits from the highest on, which are immediates with a sign: what is left of the number is
/// rounded. `more` is how many pieces there are at most behind the first, which has 28 bits.
fn load_rounded(asm: &mut Asm, number: u64, rd: u8, more: u32) -> Result<(), AllocError>
    requires low { FIRST_SCRATCH ≤ rd }
    requires high { rd < 32 }
    requires pieces { number ≤ 2 ^ (28 + 12 * more) }
    ensures sets { OnOk result (Adds (2 + 2 * more) asm.old.parts asm.new.parts (Leads (2 + 2 * more) Always (λ s t. Sets rd number s t))) }
    ensures labels { asm.new.labels ≡ asm.old.labels }
{
    if number < LOW {
        load_low(asm, number, rd)?;
        return Ok(());
    }
    load_rounded(asm, rounded(number), rd, more - 1)?;
    asm.emit(Instr::Slli {
        rd,
        rs1: rd,
        imm: 12,
    })?;
    asm.emit(add_rest(rd, number))?;
    Ok(())
}

/// Gives register `rd`, a number that an upper immediate and a lower one make up.
pub fn load_low(asm: &mut Asm, number: u64, rd: u8) -> Result<(), AllocError>
    requires low { FIRST_SCRATCH ≤ rd }
    requires high { rd < 32 }
    requires near { number + 2048 < 2 ^ 31 }
    ensures sets { OnOk result (Adds 2 asm.old.parts asm.new.parts (Leads 2 Always (λ s t. Sets rd number s t))) }
    ensures labels { asm.new.labels ≡ asm.old.labels }
{
    if number < u64::from(NEAR) {
        return asm.emit(add_to(rd, ZERO, number as u32));
    }
    asm.emit(upper(rd, rounded(number) as u32))?;
    asm.emit(add_rest(rd, number))
}

/// How many times 4,096 a number is, rounded.
pub(crate) fn rounded(number: u64) -> u64
    ensures { result ≡ (number + 2048) / 4096 }
{
    number / 4096 + u64::from(number % 4096 >= 2048)
}

/// The instruction that gives a register a number times 4,096.
pub(crate) fn upper(rd: u8, number: u32) -> Instr
    requires register { rd < 32 }
    requires number { number < 2 ^ 20 }
    ensures is { result ≡ Lui rd (pos number) }
    ensures valid { IsValid result }
{
    Instr::Lui {
        rd,
        imm: number as i32,
    }
}

/// The instruction that adds to a register how much a number is above or below what it is rounded to.
pub(crate) fn add_rest(rd: u8, number: u64) -> Instr
    requires { rd < 32 }
    ensures is { result ≡ Addi rd rd (signed 12 number) }
    ensures valid { IsValid result }
{
    Instr::Addi {
        rd,
        rs1: rd,
        imm: low_part(number),
    }
}

/// The low 12 bits of a number as a signed number: how much it is above or below what it is rounded to.
pub(crate) fn low_part(number: u64) -> i32
    ensures { result ≡ signed 12 number }
{
    let bits = (number % 4096) as i32;
    if bits < 2048 { bits } else { bits - 4096 }
}
