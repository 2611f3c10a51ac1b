//! Operators and comparisons of a word and a small number, which instructions hold, and the difference of a word and any number.

ghost use Rattle.std.specs.Prelude.{◌≡◌, ◌+◌, ◌<◌, IfSome, OnOk};
ghost use Rattle.cmm_words.specs.Widths.{IsWord};
ghost use Rattle.rv_table.specs.Table.{IsValid};
ghost use Rattle.rv_table.specs.Words.{difference};
ghost use Rattle.cmm_effects.specs.Changes.{Sets};
ghost use Rattle.cmm_effects.specs.Pieces.{Adds, Always, Leads};
ghost use Rattle.cmm_select.specs.Operators.{shifts_of};
ghost use Rattle.cmm_select.specs.inside.Immediates.{compared_below, compared_of, first_comparing, heeds_sign, immediate, limit_of, second_comparing, small_of};
ghost use Rattle.cmm_select.specs.inside.Comparing.{TellsNumber, is_positive};
ghost use Rattle.cmm_select.specs.inside.InPlace.{IsTarget, IsValue, Makes, Tells01};

use crate::comparing::{compare, needs_signs};
use crate::number::load_constant;
use crate::operand::Operand;
use crate::operator::{keeps_width, narrow, sign};
use crate::source::Source;
use crate::word::NEAR;
use cmm_abi::registers::{FIRST_SCRATCH, SECOND_SCRATCH, ZERO};
use cmm_words::laws::{wide_comparisons, wide_operators};
use cmm_words::{Cmp, Op2, Width};
use rv_asm::Asm;
use rv_table::Instr;
use std::alloc::AllocError;

/// Numbers below this are held by an instruction that does an operator of 64 bits on a word and a number.
fn limit(operator: Op2) -> u64
    ensures { result ≡ limit_of operator }
{
    match operator {
        Op2::Add | Op2::Sub | Op2::And | Op2::Or | Op2::Xor => 2048,
        Op2::Shl | Op2::Shrl | Op2::Shra => 64,
        _ => 0,
    }
}

/// The number that is a right operand, if an instruction of the operator holds it.
pub(crate) fn small(operator: Op2, right: &Operand) -> Option<u64>
    ensures { result ≡ small_of operator right.now }
{
    let Operand::Held(source) = *right else {
        return None;
    };
    match source {
        Source::Number(number) => {
            if number < limit(operator) {
                return Some(number);
            }
            None
        }
        _ => None,
    }
}

/// Gives register `rd` what an operator gives on the word in register `first` and a small number. A shift that copies the sign is done on the word with
/// its sign.
pub(crate) fn operate_with(
    asm: &mut Asm,
    operator: Op2,
    width: Width,
    rd: u8,
    first: u8,
    number: u64,
) -> Result<(), AllocError>
    requires small { number < limit_of operator }
    requires register { IsTarget rd }
    requires first { first < 32 }
    ensures operates { OnOk result (Adds (3 + shifts_of width) asm.old.parts asm.new.parts (Leads (3 + shifts_of width) (λ m s. IsWord width (s.registers first) × IsWord width number) (λ s t. Makes rd (IsValue operator width (s.registers first) number) s t))) }
    ensures labels { asm.new.labels ≡ asm.old.labels }
{
    wide_operators();
    if heeds_sign(operator, width) {
        sign(asm, width, rd, first)?;
        asm.emit(instruction(operator, rd, rd, number))?;
        return narrow(asm, width, rd);
    }
    asm.emit(instruction(operator, rd, first, number))?;
    if keeps_width(operator) {
        return Ok(());
    }
    narrow(asm, width, rd)
}

/// Whether an operator at a width is done on a word with its sign.
fn heeds_sign(operator: Op2, width: Width) -> bool
    ensures { result ≡ heeds_sign operator width }
{
    match width {
        Width::W64 => false,
        _ => matches!(operator, Op2::Shra),
    }
}

/// The instruction of an operator of 64 bits on a register and a small number.
pub(crate) fn instruction(operator: Op2, rd: u8, rs1: u8, number: u64) -> Instr
    requires small { number < limit_of operator }
    requires register { rd < 32 }
    requires first { rs1 < 32 }
    ensures is { result ≡ immediate operator rd rs1 number }
    ensures valid { IsValid result }
{
    let imm = (number % 2048) as i32;
    match operator {
        Op2::Sub => Instr::Addi {
            rd,
            rs1,
            imm: 0 - imm,
        },
        Op2::And => Instr::Andi { rd, rs1, imm },
        Op2::Or => Instr::Ori { rd, rs1, imm },
        Op2::Xor => Instr::Xori { rd, rs1, imm },
        Op2::Shl => Instr::Slli { rd, rs1, imm },
        Op2::Shrl => Instr::Srli { rd, rs1, imm },
        Op2::Shra => Instr::Srai { rd, rs1, imm },
        _ => Instr::Addi { rd, rs1, imm },
    }
}

/// Gives register 7 the difference of the value in register 5 and a number.
pub(crate) fn measure(asm: &mut Asm, first: u64) -> Result<(), AllocError>
    ensures measures { OnOk result (Adds 9 asm.old.parts asm.new.parts (Leads 9 Always (λ s t. Sets SECOND_SCRATCH (difference (s.registers FIRST_SCRATCH) first) s t))) }
    ensures labels { asm.new.labels ≡ asm.old.labels }
{
    if first < u64::from(NEAR) {
        return asm.emit(instruction(Op2::Sub, SECOND_SCRATCH, FIRST_SCRATCH, first));
    }
    load_constant(asm, first, SECOND_SCRATCH)?;
    asm.emit(Instr::Sub {
        rd: SECOND_SCRATCH,
        rs1: FIRST_SCRATCH,
        rs2: SECOND_SCRATCH,
    })
}

/// Numbers below this are held by the instructions of a comparison at a width, with the number behind each; as words they have no sign.
fn compared_limit(width: Width) -> u64
    ensures { result ≡ compared_below width }
{
    match width {
        Width::W8 => 128,
        _ => 2047,
    }
}

/// The number that is a right operand, if the instructions of a comparison at a width hold it.
pub(crate) fn compared(width: Width, right: &Operand) -> Option<u64>
    ensures { result ≡ compared_of width right.now }
{
    let Operand::Held(source) = *right else {
        return None;
    };
    match source {
        Source::Number(number) => {
            if number < compared_limit(width) {
                return Some(number);
            }
            None
        }
        _ => None,
    }
}

/// Gives register `rd` the number 1 where a comparison holds at a width of the word in register `first` and a small number, and 0 elsewhere.
pub(crate) fn compare_with(
    asm: &mut Asm,
    comparison: Cmp,
    width: Width,
    rd: u8,
    first: u8,
    number: u64,
) -> Result<(), AllocError>
    requires small { number < compared_below width }
    requires register { IsTarget rd }
    requires first { first < 32 }
    ensures tells { OnOk result (Adds 5 asm.old.parts asm.new.parts (Leads 5 (λ m s. IsWord width (s.registers first)) (λ s t. Makes rd (Tells01 comparison width (s.registers first) number) s t))) }
    ensures labels { asm.new.labels ≡ asm.old.labels }
{
    wide_comparisons();
    if needs_signs(comparison, width) {
        sign(asm, width, rd, first)?;
        return compare_wide(asm, comparison, rd, rd, number);
    }
    compare_wide(asm, comparison, rd, first, number)
}

/// The same at 64 bits. That a word is greater than 0 one instruction tells of two registers.
fn compare_wide(
    asm: &mut Asm,
    comparison: Cmp,
    rd: u8,
    first: u8,
    number: u64,
) -> Result<(), AllocError>
    requires small { number < 2047 }
    requires register { IsTarget rd }
    requires first { first < 32 }
    ensures tells { OnOk result (Adds 3 asm.old.parts asm.new.parts (TellsNumber comparison rd first number)) }
    ensures labels { asm.new.labels ≡ asm.old.labels }
{
    if is_positive(comparison, number) {
        return compare(asm, comparison, rd, first, ZERO);
    }
    asm.emit(first_comparing(comparison, rd, first, number))?;
    match second_comparing(comparison, rd) {
        Some(second) => asm.emit(second),
        None => Ok(()),
    }
}

/// Whether a comparison with a number is whether a word is greater than 0.
fn is_positive(comparison: Cmp, number: u64) -> bool
    ensures { result ≡ is_positive comparison number }
{
    number == 0 && matches!(comparison, Cmp::Gt | Cmp::Gtu)
}

/// The first instruction of a comparison with a small number: whether a word is less than it or than the number behind it, or their difference.
fn first_comparing(comparison: Cmp, rd: u8, rs1: u8, number: u64) -> Instr
    requires small { number < 2047 }
    requires register { rd < 32 }
    requires first { rs1 < 32 }
    ensures is { result ≡ first_comparing comparison rd rs1 number }
    ensures valid { IsValid result }
{
    let imm = (number % 2048) as i32;
    match comparison {
        Cmp::Eq | Cmp::Ne => Instr::Addi {
            rd,
            rs1,
            imm: 0 - imm,
        },
        Cmp::Lt | Cmp::Ge => Instr::Slti { rd, rs1, imm },
        Cmp::Le | Cmp::Gt => Instr::Slti {
            rd,
            rs1,
            imm: imm + 1,
        },
        Cmp::Ltu | Cmp::Geu => Instr::Sltiu { rd, rs1, imm },
        Cmp::Leu | Cmp::Gtu => Instr::Sltiu {
            rd,
            rs1,
            imm: imm + 1,
        },
    }
}

/// The second one, which makes of what the first one tells what the comparison does, where that is not the same.
fn second_comparing(comparison: Cmp, rd: u8) -> Option<Instr>
    requires { rd < 32 }
    ensures is { result ≡ second_comparing comparison rd }
    ensures valid { IfSome result IsValid }
{
    match comparison {
        Cmp::Eq => Some(Instr::Sltiu {
            rd,
            rs1: rd,
            imm: 1,
        }),
        Cmp::Ne => Some(Instr::Sltu {
            rd,
            rs1: ZERO,
            rs2: rd,
        }),
        Cmp::Gt | Cmp::Ge | Cmp::Gtu | Cmp::Geu => Some(Instr::Xori {
            rd,
            rs1: rd,
            imm: 1,
        }),
        _ => None,
    }
}
