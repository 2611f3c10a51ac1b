//! Assignments to places and to global registers.

ghost use Rattle.std.specs.Prelude.{◌≡◌, ◌+◌, ◌*◌, ◌<◌, IsTrue, OnOk};
ghost use Rattle.cmm_words.specs.Words.{low_bits, sign_extended, value1};
ghost use Rattle.rv_asm.specs.Assembly.{IsLabel};
ghost use Rattle.cmm_effects.specs.Accesses.{global_at};
ghost use Rattle.cmm_effects.specs.Pieces.{Adds, Leads};
ghost use Rattle.cmm_select.specs.Assignments.{AssignsBinary, AssignsComparison, AssignsOne, CanCopyGlobal, Copies};
ghost use Rattle.cmm_select.specs.Destinations.{IsDestination, PutsTo};
ghost use Rattle.cmm_select.specs.Operands.{IsOperand, most_for};
ghost use Rattle.cmm_select.specs.Operators.{shifts_of};
ghost use Rattle.cmm_select.specs.declared.operand.Operand.TheVariants.{Held};
ghost use Rattle.cmm_select.specs.declared.source.Source.TheVariants.{Number};
ghost use Rattle.cmm_select.specs.inside.Immediates.{compared_below, limit_of};
ghost use Rattle.cmm_select.specs.inside.Rotations.{is_rotation};
ghost use Rattle.cmm_select.specs.inside.Wide.{is_plain};

use crate::comparing::{compare, ready};
use crate::destination::{Destination, put, read_global};
use crate::immediates::{compare_with, compared, operate_with, small};
use crate::in_place::{finish, home_of, locate, locate_both, target};
use crate::operand::{Operand, bring_both, bring_operand};
use crate::operator::{cut, is_plain, narrow, operate, plain, sign};
use crate::rotation::{rotate_with, turns};
use crate::unary::operate_on_one;
use cmm_abi::registers::FIRST_SCRATCH;
use cmm_words::{Cmp, Op1, Op2, Width};
use rv_asm::{Asm, Label};
use std::alloc::AllocError;

/// Assigns an operand.
pub fn assign_copy(asm: &mut Asm, from: &Operand, to: &Destination) -> Result<(), AllocError>
    requires operand { IsOperand asm.old.labels from.now }
    requires destination { IsDestination asm.old.labels to.now }
    ensures copies { OnOk result (Adds (most_for from.now + 4) asm.old.parts asm.new.parts (Copies (most_for from.now + 4) from.now to.now)) }
    ensures labels { asm.new.labels ≡ asm.old.labels }
{
    match home_of(from) {
        Some(register) => put(asm, register, to),
        None => {
            bring_operand(asm, from, target(to))?;
            finish(asm, to)
        }
    }
}

/// Assigns what a global register has, whose offset in the region a label stands for.
pub fn assign_global(asm: &mut Asm, from: Label, to: &Destination) -> Result<(), AllocError>
    requires label { IsLabel asm.old.labels from }
    requires destination { IsDestination asm.old.labels to.now }
    ensures copies { OnOk result (Adds 8 asm.old.parts asm.new.parts (λ x. Leads 8 (CanCopyGlobal x.at (x.at from.number) to.now) (λ s t. PutsTo x.at to.now (global_at (x.at from.number) s) s t) x)) }
    ensures labels { asm.new.labels ≡ asm.old.labels }
{
    read_global(asm, from, target(to))?;
    finish(asm, to)
}

/// Assigns what an operator gives on a word of a width.
pub fn assign_unary(
    asm: &mut Asm,
    operator: Op1,
    width: Width,
    operand: &Operand,
    to: &Destination,
) -> Result<(), AllocError>
    requires operand { IsOperand asm.old.labels operand.now }
    requires destination { IsDestination asm.old.labels to.now }
    ensures assigns { OnOk result (Adds (most_for operand.now + shifts_of width + 5) asm.old.parts asm.new.parts (AssignsOne (most_for operand.now + shifts_of width + 5) width (value1 operator width) operand.now to.now)) }
    ensures labels { asm.new.labels ≡ asm.old.labels }
{
    let source = locate(asm, operand, FIRST_SCRATCH)?;
    operate_on_one(asm, operator, width, target(to), source)?;
    finish(asm, to)
}

/// Assigns a word of the width `from` with its sign at another width.
pub fn assign_extended(
    asm: &mut Asm,
    from: Width,
    width: Width,
    operand: &Operand,
    to: &Destination,
) -> Result<(), AllocError>
    requires operand { IsOperand asm.old.labels operand.now }
    requires destination { IsDestination asm.old.labels to.now }
    ensures assigns { OnOk result (Adds (most_for operand.now + shifts_of from + shifts_of width + 4) asm.old.parts asm.new.parts (AssignsOne (most_for operand.now + shifts_of from + shifts_of width + 4) from (sign_extended from width) operand.now to.now)) }
    ensures labels { asm.new.labels ≡ asm.old.labels }
{
    match from {
        Width::W64 => assign_low(asm, from, width, operand, to),
        _ => {
            let source = locate(asm, operand, FIRST_SCRATCH)?;
            let rd = target(to);
            sign(asm, from, rd, source)?;
            narrow(asm, width, rd)?;
            finish(asm, to)
        }
    }
}

/// Assigns the low bits of a word of the width `from`, as many as another width has.
pub fn assign_low(
    asm: &mut Asm,
    from: Width,
    width: Width,
    operand: &Operand,
    to: &Destination,
) -> Result<(), AllocError>
    requires operand { IsOperand asm.old.labels operand.now }
    requires destination { IsDestination asm.old.labels to.now }
    ensures assigns { OnOk result (Adds (most_for operand.now + shifts_of width + 4) asm.old.parts asm.new.parts (AssignsOne (most_for operand.now + shifts_of width + 4) from (low_bits width) operand.now to.now)) }
    ensures labels { asm.new.labels ≡ asm.old.labels }
{
    match width {
        Width::W64 => assign_copy(asm, operand, to),
        _ => {
            let source = locate(asm, operand, FIRST_SCRATCH)?;
            cut(asm, width, target(to), source)?;
            finish(asm, to)
        }
    }
}

/// Assigns what an operator gives on two words of a width.
pub fn assign_binary(
    asm: &mut Asm,
    operator: Op2,
    width: Width,
    left: &Operand,
    right: &Operand,
    to: &Destination,
) -> Result<(), AllocError>
    requires left { IsOperand asm.old.labels left.now }
    requires right { IsOperand asm.old.labels right.now }
    requires destination { IsDestination asm.old.labels to.now }
    ensures assigns { OnOk result (Adds (most_for left.now + most_for right.now + 3 * shifts_of width + 10) asm.old.parts asm.new.parts (AssignsBinary (most_for left.now + most_for right.now + 3 * shifts_of width + 10) operator width left.now right.now to.now)) }
    ensures labels { asm.new.labels ≡ asm.old.labels }
{
    if let Some(number) = small(operator, right) {
        return assign_small(asm, operator, width, left, number, to);
    }
    if let Some(number) = turns(operator, right) {
        return assign_rotated(asm, operator, width, left, number, to);
    }
    if is_plain(operator) {
        return assign_plain(asm, operator, width, left, right, to);
    }
    bring_both(asm, left, right)?;
    operate(asm, operator, width)?;
    put(asm, FIRST_SCRATCH, to)
}

/// Assigns what an operator gives on a word and a number that an instruction of it holds.
fn assign_small(
    asm: &mut Asm,
    operator: Op2,
    width: Width,
    left: &Operand,
    number: u64,
    to: &Destination,
) -> Result<(), AllocError>
    requires small { number < limit_of operator }
    requires left { IsOperand asm.old.labels left.now }
    requires destination { IsDestination asm.old.labels to.now }
    ensures assigns { OnOk result (Adds (most_for left.now + shifts_of width + 7) asm.old.parts asm.new.parts (AssignsBinary (most_for left.now + shifts_of width + 7) operator width left.now (Held (Number number)) to.now)) }
    ensures labels { asm.new.labels ≡ asm.old.labels }
{
    let source = locate(asm, left, FIRST_SCRATCH)?;
    operate_with(asm, operator, width, target(to), source, number)?;
    finish(asm, to)
}

/// Assigns a word rotated by a number.
fn assign_rotated(
    asm: &mut Asm,
    operator: Op2,
    width: Width,
    left: &Operand,
    number: u64,
    to: &Destination,
) -> Result<(), AllocError>
    requires rotation { IsTrue (is_rotation operator) }
    requires left { IsOperand asm.old.labels left.now }
    requires destination { IsDestination asm.old.labels to.now }
    ensures assigns { OnOk result (Adds (most_for left.now + shifts_of width + 7) asm.old.parts asm.new.parts (AssignsBinary (most_for left.now + shifts_of width + 7) operator width left.now (Held (Number number)) to.now)) }
    ensures labels { asm.new.labels ≡ asm.old.labels }
{
    let source = locate(asm, left, FIRST_SCRATCH)?;
    rotate_with(asm, operator, width, target(to), source, number)?;
    finish(asm, to)
}

/// Assigns what an operator gives that one instruction does on words as they are.
fn assign_plain(
    asm: &mut Asm,
    operator: Op2,
    width: Width,
    left: &Operand,
    right: &Operand,
    to: &Destination,
) -> Result<(), AllocError>
    requires plain { IsTrue (is_plain operator) }
    requires left { IsOperand asm.old.labels left.now }
    requires right { IsOperand asm.old.labels right.now }
    requires destination { IsDestination asm.old.labels to.now }
    ensures assigns { OnOk result (Adds (most_for left.now + most_for right.now + shifts_of width + 5) asm.old.parts asm.new.parts (AssignsBinary (most_for left.now + most_for right.now + shifts_of width + 5) operator width left.now right.now to.now)) }
    ensures labels { asm.new.labels ≡ asm.old.labels }
{
    let from = locate_both(asm, left, right)?;
    plain(asm, operator, width, target(to), from.first, from.second)?;
    finish(asm, to)
}

/// Assigns 1 where a comparison holds of two words of a width, and else 0.
pub fn assign_comparison(
    asm: &mut Asm,
    comparison: Cmp,
    width: Width,
    left: &Operand,
    right: &Operand,
    to: &Destination,
) -> Result<(), AllocError>
    requires left { IsOperand asm.old.labels left.now }
    requires right { IsOperand asm.old.labels right.now }
    requires destination { IsDestination asm.old.labels to.now }
    ensures assigns { OnOk result (Adds (most_for left.now + most_for right.now + 2 * shifts_of width + 7) asm.old.parts asm.new.parts (AssignsComparison (most_for left.now + most_for right.now + 2 * shifts_of width + 7) comparison width left.now right.now to.now)) }
    ensures labels { asm.new.labels ≡ asm.old.labels }
{
    if let Some(number) = compared(width, right) {
        return assign_small_comparison(asm, comparison, width, left, number, to);
    }
    let from = ready(asm, comparison, width, left, right)?;
    compare(asm, comparison, target(to), from.first, from.second)?;
    finish(asm, to)
}

/// Assigns 1 where a comparison holds of a word of a width and a number that its instructions hold, and else 0.
fn assign_small_comparison(
    asm: &mut Asm,
    comparison: Cmp,
    width: Width,
    left: &Operand,
    number: u64,
    to: &Destination,
) -> Result<(), AllocError>
    requires small { number < compared_below width }
    requires left { IsOperand asm.old.labels left.now }
    requires destination { IsDestination asm.old.labels to.now }
    ensures assigns { OnOk result (Adds (most_for left.now + 9) asm.old.parts asm.new.parts (AssignsComparison (most_for left.now + 9) comparison width left.now (Held (Number number)) to.now)) }
    ensures labels { asm.new.labels ≡ asm.old.labels }
{
    let source = locate(asm, left, FIRST_SCRATCH)?;
    compare_with(asm, comparison, width, target(to), source, number)?;
    finish(asm, to)
}
