//! Switches: the value is looked for among the ranges of the arms, in ascending order if there is one.

ghost use Rattle.std.specs.Prelude.{◌≡◌, ℕ, ◌+◌, ◌*◌, ◌^◌, ◌<◌, ◌≤◌, flat_map, length, OnOk};
ghost use Rattle.std.specs.List.{All};
ghost use Rattle.rv_asm.specs.Assembly.{IsInner};
ghost use Rattle.cmm_effects.specs.Pieces.{Adds};
ghost use Rattle.cmm_select.specs.Operands.{IsOperand, most_for};
ghost use Rattle.cmm_select.specs.Switches.{AreApart, MakesInner, Switches, ranges_in};

use crate::operand::{Operand, bring_operand};
use crate::searching::{branch_in_spans, go_among};
use crate::span::{in_order, spans_of};
use cmm_abi::registers::FIRST_SCRATCH;
use cmm_graph::Arm;
use rv_asm::{Asm, Label};
use std::alloc::AllocError;

/// Goes to the label of the first arm that is for an operand, by the labels of nodes, and on where none is.
pub fn switch(
    asm: &mut Asm,
    value: &Operand,
    arms: &[Arm],
    labels: &[Label],
) -> Result<(), AllocError>
    requires operand { IsOperand asm.old.labels value.now }
    requires arms { All (λ arm. arm.to.number < length labels.now) arms.now }
    requires inner { All (IsInner asm.old.labels) labels.now }
    ensures switches { OnOk result (Adds (most_for value.now + 27 * ranges_in arms.now) asm.old.parts asm.new.parts (Switches (most_for value.now + 20 * ranges_in arms.now) value.now labels.now arms.now)) }
    ensures halves { OnOk result ((k : ℕ) → ranges_in arms.now ≤ 4 * 2 ^ k → AreApart (flat_map (λ arm. arm.ranges) arms.now) → length asm.old.labels + ranges_in arms.now < 2 ^ 32 →
        Adds (most_for value.now + 27 * ranges_in arms.now) asm.old.parts asm.new.parts (Switches (most_for value.now + (82 + 11 * k)) value.now labels.now arms.now)) }
    ensures labels { OnOk result (MakesInner (ranges_in arms.now) asm.old.labels asm.new.labels) }
{
    bring_operand(asm, value, FIRST_SCRATCH)?;
    let spans = spans_of(asm.alloc(), arms, labels)?;
    match in_order(asm.alloc(), &spans)? {
        Some(ordered) => go_among(asm, &ordered)?,
        None => branch_in_spans(asm, &spans)?,
    }
    Ok(())
}
