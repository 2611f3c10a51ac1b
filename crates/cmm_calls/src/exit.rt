//! A frame is left, and control goes back.

ghost use Rattle.std.specs.Prelude.{◌≡◌, ◌+◌, ◌*◌, ◌<◌, ◌≤◌, length, pos, true, OnOk};
ghost use Rattle.std.specs.List.{All, list_all};
ghost use Rattle.rv_asm.specs.Assembly.{IsTarget};
ghost use Rattle.rv_table.specs.Table.{IsValid};
ghost use Rattle.rv_table.specs.declared.instruction.Instr.TheVariants.{Jalr};
ghost use Rattle.cmm_effects.specs.Pieces.{Adds};
ghost use Rattle.cmm_select.specs.Operands.{IsOperand};
ghost use Rattle.cmm_calls.specs.Frames.{CanBeMade, LeavesFrame, Returns, leave_cost};
ghost use Rattle.cmm_calls.specs.Values.{JumpsTo, ReturnsValues, is_operand, parting_cost};

use crate::giving::give;
use crate::room::move_up;
use crate::saved::restore_all;
use cmm_abi::registers::{RETURN_ADDRESS, ZERO};
use cmm_chain::Frame;
use cmm_select::{Operand, go_to, restore};
use rv_asm::{Asm, Label};
use rv_table::Instr;
use std::alloc::AllocError;

/// Leaves a frame: its return address comes back to register 1, each register that is saved to itself, and register 2 moves behind it. An address may
/// wait in register 7.
pub fn leave(asm: &mut Asm, frame: &Frame) -> Result<(), AllocError>
    requires { CanBeMade frame.now }
    ensures leaves { OnOk result (Adds (leave_cost frame.now) asm.old.parts asm.new.parts (LeavesFrame frame.now)) }
    ensures labels { asm.new.labels ≡ asm.old.labels }
{
    restore(asm, RETURN_ADDRESS, frame.return_at)?;
    restore_all(asm, frame)?;
    move_up(asm, frame.size)?;
    Ok(())
}

/// Leaves a frame and goes back to an exit of the site that its return address names, which has one word for each alternate exit before the normal
/// one.
pub fn leave_by(asm: &mut Asm, frame: &Frame, exit: u32) -> Result<(), AllocError>
    requires frame { CanBeMade frame.now }
    requires exit { exit < 512 }
    ensures returns { OnOk result (Adds (leave_cost frame.now + 1) asm.old.parts asm.new.parts (λ x from to. Returns frame.now exit x from)) }
    ensures labels { asm.new.labels ≡ asm.old.labels }
{
    leave(asm, frame)?;
    asm.emit(jump_back(exit))?;
    Ok(())
}

/// Returns values by an exit: they go out, the frame is left, and control goes back to the exit. No operand may be a register to which an earlier
/// value goes.
pub fn return_values(
    asm: &mut Asm,
    frame: &Frame,
    values: &[Operand],
    exit: u32,
) -> Result<(), AllocError>
    requires frame { CanBeMade frame.now }
    requires operands { list_all (is_operand frame.now) values.now ≡ true }
    requires labels { All (IsOperand asm.old.labels) values.now }
    requires few { length values.now ≤ 64 }
    requires exit { exit < 512 }
    ensures returns { OnOk result (Adds (parting_cost frame.now values.now + 1) asm.old.parts asm.new.parts (λ x from to. ReturnsValues frame.now values.now exit x from)) }
    ensures labels { asm.new.labels ≡ asm.old.labels }
{
    give(asm, frame, values)?;
    leave_by(asm, frame, exit)?;
    Ok(())
}

/// Calls in the place of the caller: values go out, the frame is left, and control goes to a label. No operand may be a register to which an earlier
/// value goes.
pub fn jump(asm: &mut Asm, frame: &Frame, values: &[Operand], to: Label) -> Result<(), AllocError>
    requires frame { CanBeMade frame.now }
    requires operands { list_all (is_operand frame.now) values.now ≡ true }
    requires labels { All (IsOperand asm.old.labels) values.now }
    requires few { length values.now ≤ 64 }
    requires to { IsTarget asm.old.labels to }
    ensures jumps { OnOk result (Adds (parting_cost frame.now values.now + 2) asm.old.parts asm.new.parts (λ x from on. JumpsTo frame.now values.now to x from)) }
    ensures labels { asm.new.labels ≡ asm.old.labels }
{
    give(asm, frame, values)?;
    leave(asm, frame)?;
    go_to(asm, to)?;
    Ok(())
}

/// The instruction that goes back to an exit.
fn jump_back(exit: u32) -> Instr
    requires { exit < 512 }
    ensures is { result ≡ Jalr ZERO RETURN_ADDRESS (pos (4 * exit)) }
    ensures valid { IsValid result }
{
    Instr::Jalr {
        rd: ZERO,
        rs1: RETURN_ADDRESS,
        imm: (4 * exit) as i32,
    }
}
