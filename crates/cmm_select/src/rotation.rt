//! Rotations of a word by a number: two shifts by numbers that instructions hold.

ghost use Rattle.std.specs.Prelude.{◌≡◌, ◌≢◌, ◌+◌, ◌-◌, ◌%◌, ◌<◌, IsTrue, OnOk};
ghost use Rattle.cmm_words.specs.Widths.{IsWord, bits};
ghost use Rattle.cmm_effects.specs.Pieces.{Adds, Leads};
ghost use Rattle.cmm_select.specs.Operators.{shifts_of};
ghost use Rattle.cmm_select.specs.inside.InPlace.{IsTarget, IsValue, Makes};
ghost use Rattle.cmm_select.specs.inside.Rotations.{is_rotation, left_by, right_by, turns_of};

use crate::immediates::instruction;
use crate::operand::Operand;
use crate::operator::narrow;
use crate::source::Source;
use cmm_abi::registers::HELPER;
use cmm_words::laws::wide_operators;
use cmm_words::{Op2, Width};
use rv_asm::Asm;
use rv_table::Instr;
use std::alloc::AllocError;

/// The number by which an operator rotates its left operand, if it is a rotation by a number.
pub(crate) fn turns(operator: Op2, right: &Operand) -> Option<u64>
    ensures { result ≡ turns_of operator right.now }
{
    let Operand::Held(source) = *right else {
        return None;
    };
    match source {
        Source::Number(number) => {
            if is_rotation(operator) {
                return Some(number);
            }
            None
        }
        _ => None,
    }
}

/// Whether an operator is a rotation.
fn is_rotation(operator: Op2) -> bool
    ensures { result ≡ is_rotation operator }
{
    matches!(operator, Op2::Rotl | Op2::Rotr)
}

/// Gives register `rd` the word in register `first` rotated by a number: shifted to the left, and to the right by the rest of the width, and cut.
pub(crate) fn rotate_with(
    asm: &mut Asm,
    operator: Op2,
    width: Width,
    rd: u8,
    first: u8,
    number: u64,
) -> Result<(), AllocError>
    requires rotation { IsTrue (is_rotation operator) }
    requires register { IsTarget rd }
    requires first { first < 32 }
    requires beside { first ≢ HELPER }
    ensures rotates { OnOk result (Adds (3 + shifts_of width) asm.old.parts asm.new.parts (Leads (3 + shifts_of width) (λ m s. IsWord width (s.registers first) × IsWord width number) (λ s t. Makes rd (IsValue operator width (s.registers first) number) s t))) }
    ensures labels { asm.new.labels ≡ asm.old.labels }
{
    wide_operators();
    let left = left_by(operator, width, number);
    let right = right_by(operator, width, number);
    asm.emit(instruction(Op2::Shl, HELPER, first, left))?;
    asm.emit(instruction(Op2::Shrl, rd, first, right))?;
    asm.emit(Instr::Or {
        rd,
        rs1: HELPER,
        rs2: rd,
    })?;
    narrow(asm, width, rd)
}

/// By how many bits a rotation by a number shifts to the left.
fn left_by(operator: Op2, width: Width, number: u64) -> u64
    ensures is { result ≡ left_by operator width number }
    ensures small { result < 64 }
{
    let count = count_of(width, number);
    match operator {
        Op2::Rotr => rest_of(width, count),
        _ => count,
    }
}

/// By how many bits it shifts to the right.
fn right_by(operator: Op2, width: Width, number: u64) -> u64
    ensures is { result ≡ right_by operator width number }
    ensures small { result < 64 }
{
    let count = count_of(width, number);
    match operator {
        Op2::Rotr => count,
        _ => rest_of(width, count),
    }
}

/// What a number leaves of a width: so many bits a word is rotated.
fn count_of(width: Width, number: u64) -> u64
    ensures is { result ≡ number % bits width }
    ensures below { result < bits width }
    ensures small { result < 64 }
{
    match width {
        Width::W8 => number % 8,
        Width::W16 => number % 16,
        Width::W32 => number % 32,
        Width::W64 => number % 64,
    }
}

/// The rest of a width, as a shift takes it.
fn rest_of(width: Width, count: u64) -> u64
    requires { count < bits width }
    ensures is { result ≡ (bits width - count) % 64 }
    ensures small { result < 64 }
{
    match width {
        Width::W8 => 8 - count,
        Width::W16 => 16 - count,
        Width::W32 => 32 - count,
        Width::W64 => (64 - count) % 64,
    }
}
