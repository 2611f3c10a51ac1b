//! Where control goes.

ghost use Rattle.std.specs.Prelude.{◌≡◌, ◌+◌, ◌*◌, OnOk};
ghost use Rattle.rv_asm.specs.Assembly.{IsInner, IsTarget};
ghost use Rattle.rv_table.specs.Machine.{State, Traps, instruction_step};
ghost use Rattle.rv_table.specs.declared.trap.TrapKind.TheVariants.{Breakpoint};
ghost use Rattle.cmm_effects.specs.Changes.{Keeps};
ghost use Rattle.cmm_effects.specs.Pieces.{Adds, Always, Leads};
ghost use Rattle.cmm_effects.specs.Ways.{Turns};
ghost use Rattle.cmm_select.specs.Going.{Decides};
ghost use Rattle.cmm_select.specs.Operands.{IsOperand, most_for};
ghost use Rattle.cmm_select.specs.Operators.{shifts_of};

use crate::comparing::{branch, ready};
use crate::operand::Operand;
use crate::place::add_to;
use cmm_abi::registers::{FIRST_SCRATCH, ZERO};
use cmm_words::{Cmp, Width};
use rv_asm::{Asm, Label};
use rv_table::Instr;
use std::alloc::AllocError;

/// Goes to a label where a comparison holds of two operands, words of a width, and on otherwise.
pub fn decide(
    asm: &mut Asm,
    comparison: Cmp,
    width: Width,
    left: &Operand,
    right: &Operand,
    to: Label,
) -> Result<(), AllocError>
    requires left { IsOperand asm.old.labels left.now }
    requires right { IsOperand asm.old.labels right.now }
    requires label { IsInner asm.old.labels to }
    ensures decides { OnOk result (Adds (most_for left.now + most_for right.now + (2 * shifts_of width + 3)) asm.old.parts asm.new.parts (Decides (most_for left.now + most_for right.now + (2 * shifts_of width + 3)) comparison width left.now right.now to)) }
    ensures labels { asm.new.labels ≡ asm.old.labels }
{
    let from = ready(asm, comparison, width, left, right)?;
    branch(asm, comparison, from.first, from.second, to)
}

/// Goes to a label. An error is want of memory, and nothing is changed.
pub fn go_to(asm: &mut Asm, to: Label) -> Result<(), AllocError>
    requires { IsTarget asm.old.labels to }
    ensures turns { OnOk result (Adds 2 asm.old.parts asm.new.parts (λ x from on. Turns 2 Always (λ s. x.at to.number) Keeps x from)) }
    ensures labels { asm.new.labels ≡ asm.old.labels }
{
    asm.jump(to)
}

/// Goes on, by one instruction that changes a scratch register alone. An error is want of memory, and nothing is changed.
pub fn go_on(asm: &mut Asm) -> Result<(), AllocError>
    ensures keeps { OnOk result (Adds 1 asm.old.parts asm.new.parts (Leads 1 Always Keeps)) }
    ensures labels { asm.new.labels ≡ asm.old.labels }
{
    asm.emit(add_to(FIRST_SCRATCH, ZERO, 0))
}

/// Ends a run that has gone wrong: a breakpoint, at which the machine traps. An error is want of memory, and nothing is changed.
pub fn stop(asm: &mut Asm) -> Result<(), AllocError>
    ensures traps { OnOk result (Adds 1 asm.old.parts asm.new.parts (λ x from to. (s : State) → s.pc ≡ from → instruction_step x.map s ≡ Traps Breakpoint)) }
    ensures labels { asm.new.labels ≡ asm.old.labels }
{
    asm.emit(Instr::Ebreak)
}
