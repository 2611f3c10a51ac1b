//! Comparisons of the words in two registers.

ghost use Rattle.std.specs.Prelude.{◌≡◌, ◌+◌, ◌*◌, ◌<◌, None, IfOk, OnOk};
ghost use Rattle.rv_asm.specs.Assembly.{IsInner};
ghost use Rattle.rv_table.specs.Table.{IsValid};
ghost use Rattle.cmm_words.specs.declared.operators.Cmp.TheVariants.{Eq};
ghost use Rattle.cmm_effects.specs.Pieces.{Adds};
ghost use Rattle.cmm_select.specs.Operands.{IsOperand, most_for};
ghost use Rattle.cmm_select.specs.Operators.{shifts_of};
ghost use Rattle.cmm_select.specs.inside.Comparing.{BranchesIn, ReadiesBoth, TellsIn, compares_integers, contrary_of, less_of, needs_signs, turned_of};
ghost use Rattle.cmm_select.specs.inside.InPlace.{IsTarget};

use crate::in_place::{Pair, locate_both};
use crate::operand::{Operand, bring_both};
use crate::operator::extend;
use cmm_abi::registers::{FIRST_SCRATCH, SECOND_SCRATCH};
use cmm_words::laws::wide_comparisons;
use cmm_words::{Cmp, Width};
use rv_asm::{Asm, Label};
use rv_table::Instr;
use std::alloc::AllocError;

/// The registers of two operands, so that a comparison holds of the words in them at 64 bits where it holds of the operands at a width: words
/// that need their sign get it in registers 5 and 7, since a place has zeros above a word.
pub(crate) fn ready(
    asm: &mut Asm,
    comparison: Cmp,
    width: Width,
    left: &Operand,
    right: &Operand,
) -> Result<Pair, AllocError>
    requires left { IsOperand asm.old.labels left.now }
    requires right { IsOperand asm.old.labels right.now }
    ensures readies { IfOk result (λ pair. Adds (most_for left.now + most_for right.now + 2 * shifts_of width) asm.old.parts asm.new.parts (ReadiesBoth comparison width left.now right.now pair.first pair.second)) }
    ensures first { IfOk result (λ pair. pair.first < 32) }
    ensures second { IfOk result (λ pair. pair.second < 32) }
    ensures labels { asm.new.labels ≡ asm.old.labels }
{
    wide_comparisons();
    if needs_signs(comparison, width) {
        bring_both(asm, left, right)?;
        extend(asm, width, FIRST_SCRATCH)?;
        extend(asm, width, SECOND_SCRATCH)?;
        return Ok(Pair {
            first: FIRST_SCRATCH,
            second: SECOND_SCRATCH,
        });
    }
    let pair = locate_both(asm, left, right)?;
    Ok(pair)
}

/// Whether a comparison at a width is made of words with their sign.
pub(crate) fn needs_signs(comparison: Cmp, width: Width) -> bool
    ensures { result ≡ needs_signs comparison width }
{
    match width {
        Width::W64 => false,
        _ => is_signed(comparison),
    }
}

/// Whether a comparison is one of signed words.
fn is_signed(comparison: Cmp) -> bool
    ensures { result ≡ compares_integers comparison }
{
    matches!(comparison, Cmp::Lt | Cmp::Le | Cmp::Gt | Cmp::Ge)
}

/// Goes to a label where a comparison holds at 64 bits of the words in two registers, and on otherwise.
pub(crate) fn branch(
    asm: &mut Asm,
    comparison: Cmp,
    first: u8,
    second: u8,
    to: Label,
) -> Result<(), AllocError>
    requires first { first < 32 }
    requires second { second < 32 }
    requires label { IsInner asm.old.labels to }
    ensures branches { OnOk result (Adds 3 asm.old.parts asm.new.parts (BranchesIn comparison first second to)) }
    ensures labels { asm.new.labels ≡ asm.old.labels }
{
    match turned(comparison) {
        Some(other) => asm.branch(other, second, first, to),
        None => asm.branch(comparison, first, second, to),
    }
}

/// What holds of two words with their places changed where the comparison holds of them, if no branch makes it as it is.
fn turned(comparison: Cmp) -> Option<Cmp>
    ensures { result ≡ turned_of comparison }
{
    match comparison {
        Cmp::Le => Some(Cmp::Ge),
        Cmp::Gt => Some(Cmp::Lt),
        Cmp::Leu => Some(Cmp::Geu),
        Cmp::Gtu => Some(Cmp::Ltu),
        _ => None,
    }
}

/// Gives register `rd` the number 1 where a comparison holds at 64 bits of the words in two registers, and 0 elsewhere.
pub(crate) fn compare(
    asm: &mut Asm,
    comparison: Cmp,
    rd: u8,
    first: u8,
    second: u8,
) -> Result<(), AllocError>
    requires register { IsTarget rd }
    requires first { first < 32 }
    requires second { second < 32 }
    ensures tells { OnOk result (Adds 3 asm.old.parts asm.new.parts (TellsIn 3 comparison rd first second)) }
    ensures labels { asm.new.labels ≡ asm.old.labels }
{
    match contrary(comparison) {
        Some(other) => {
            compare_directly(asm, other, rd, first, second)?;
            asm.emit(Instr::Xori {
                rd,
                rs1: rd,
                imm: 1,
            })
        }
        None => compare_directly(asm, comparison, rd, first, second),
    }
}

/// The comparison that holds where this one doesn't, if no instruction makes it as it is.
fn contrary(comparison: Cmp) -> Option<Cmp>
    ensures { result ≡ contrary_of comparison }
{
    match comparison {
        Cmp::Ne => Some(Cmp::Eq),
        Cmp::Le => Some(Cmp::Gt),
        Cmp::Ge => Some(Cmp::Lt),
        Cmp::Leu => Some(Cmp::Gtu),
        Cmp::Geu => Some(Cmp::Ltu),
        _ => None,
    }
}

/// A comparison whether words are the same, or one is less than the other.
fn compare_directly(
    asm: &mut Asm,
    comparison: Cmp,
    rd: u8,
    first: u8,
    second: u8,
) -> Result<(), AllocError>
    requires direct { contrary_of comparison ≡ None }
    requires register { IsTarget rd }
    requires first { first < 32 }
    requires second { second < 32 }
    ensures tells { OnOk result (Adds 2 asm.old.parts asm.new.parts (TellsIn 2 comparison rd first second)) }
    ensures labels { asm.new.labels ≡ asm.old.labels }
{
    match comparison {
        Cmp::Eq => equal(asm, rd, first, second),
        _ => asm.emit(less(comparison, rd, first, second)),
    }
}

/// Whether words are the same: whether their difference is below 1.
fn equal(asm: &mut Asm, rd: u8, rs1: u8, rs2: u8) -> Result<(), AllocError>
    requires register { IsTarget rd }
    requires first { rs1 < 32 }
    requires second { rs2 < 32 }
    ensures tells { OnOk result (Adds 2 asm.old.parts asm.new.parts (TellsIn 2 Eq rd rs1 rs2)) }
    ensures labels { asm.new.labels ≡ asm.old.labels }
{
    asm.emit(Instr::Sub { rd, rs1, rs2 })?;
    asm.emit(Instr::Sltiu {
        rd,
        rs1: rd,
        imm: 1,
    })
}

/// The instruction that tells whether one word is less than the other.
fn less(comparison: Cmp, rd: u8, first: u8, second: u8) -> Instr
    requires register { rd < 32 }
    requires first { first < 32 }
    requires second { second < 32 }
    ensures is { result ≡ less_of comparison rd first second }
    ensures valid { IsValid result }
{
    match comparison {
        Cmp::Lt => Instr::Slt {
            rd,
            rs1: first,
            rs2: second,
        },
        Cmp::Gt => Instr::Slt {
            rd,
            rs1: second,
            rs2: first,
        },
        Cmp::Gtu => Instr::Sltu {
            rd,
            rs1: second,
            rs2: first,
        },
        _ => Instr::Sltu {
            rd,
            rs1: first,
            rs2: second,
        },
    }
}
