//! Control goes to another procedure, or is cut to a continuation.

ghost use Rattle.std.specs.Prelude.{◌≡◌, ◌+◌, ◌*◌, ◌≤◌, length, slice_get, slice_set, Some, false, true, OnOk};
ghost use Rattle.std.specs.List.{All, list_all};
ghost use Rattle.rv_asm.specs.Assembly.{IsInner, IsTarget, table_limit};
ghost use Rattle.rv_asm.specs.declared.part.Meaning.TheVariants.{Inner};
ghost use Rattle.cmm_effects.specs.Pieces.{Adds};
ghost use Rattle.cmm_select.specs.Operands.{IsOperand, most_for};
ghost use Rattle.cmm_calls.specs.Calls.{Calls, CallsBy, CutsTo, HasExits, JumpsBy, exits_cost};
ghost use Rattle.cmm_calls.specs.Frames.{CanBeMade};
ghost use Rattle.rv_asm.specs.Appending.{AddsWords, IsBehind};
ghost use Rattle.cmm_calls.specs.Values.{is_operand, parting_cost};
ghost use Rattle.cmm_calls.specs.inside.Pairs.{GoesToPair};

use crate::exit::leave;
use crate::giving::give;
use cmm_abi::registers::{FRAME, HELPER, RETURN_ADDRESS, SECOND_SCRATCH, ZERO};
use cmm_chain::Frame;
use cmm_select::{Operand, bring_operand};
use rv_asm::{Asm, Label};
use rv_table::Instr;
use std::alloc::AllocError;

/// Calls: values go out, and control goes to a label. The site, a label that has no place yet, is placed at the return address. No operand may be a
/// register to which an earlier value goes.
pub fn call(
    asm: &mut Asm,
    frame: &Frame,
    values: &[Operand],
    to: Label,
    site: Label,
) -> Result<(), AllocError>
    requires frame { CanBeMade frame.now }
    requires operands { list_all (is_operand frame.now) values.now ≡ true }
    requires labels { All (IsOperand asm.old.labels) values.now }
    requires few { length values.now ≤ 64 }
    requires to { IsTarget asm.old.labels to }
    requires site { slice_get asm.old.labels site.number ≡ Some (Inner false) }
    ensures calls { OnOk result (Adds (12 * length values.now + 2) asm.old.parts asm.new.parts (Calls frame.now values.now to site)) }
    ensures placed { OnOk result (asm.new.labels ≡ slice_set asm.old.labels site.number (Inner true)) }
    ensures behind { OnOk result (IsBehind site 0 asm.new.parts) }
{
    give(asm, frame, values)?;
    asm.call(to)?;
    asm.place(site);
    Ok(())
}

/// Calls the procedure whose address an operand gives: values go out, and control goes there. The site, a label that has no place yet, is placed at
/// the return address. No operand of the values may be a register to which an earlier value goes.
pub fn call_by(
    asm: &mut Asm,
    frame: &Frame,
    to: &Operand,
    values: &[Operand],
    site: Label,
) -> Result<(), AllocError>
    requires frame { CanBeMade frame.now }
    requires address { is_operand frame.now to.now ≡ true }
    requires label { IsOperand asm.old.labels to.now }
    requires operands { list_all (is_operand frame.now) values.now ≡ true }
    requires labels { All (IsOperand asm.old.labels) values.now }
    requires few { length values.now ≤ 64 }
    requires site { slice_get asm.old.labels site.number ≡ Some (Inner false) }
    ensures calls { OnOk result (Adds (most_for to.now + (12 * length values.now + 1)) asm.old.parts asm.new.parts (CallsBy frame.now to.now values.now site)) }
    ensures placed { OnOk result (asm.new.labels ≡ slice_set asm.old.labels site.number (Inner true)) }
    ensures behind { OnOk result (IsBehind site 0 asm.new.parts) }
{
    bring_operand(asm, to, SECOND_SCRATCH)?;
    give(asm, frame, values)?;
    asm.emit(Instr::Jalr {
        rd: RETURN_ADDRESS,
        rs1: SECOND_SCRATCH,
        imm: 0,
    })?;
    asm.place(site);
    Ok(())
}

/// Calls the procedure whose address an operand gives in the caller's place: values go out, the frame is left, and control goes there. No operand of
/// the values may be a register to which an earlier value goes.
pub fn jump_by(
    asm: &mut Asm,
    frame: &Frame,
    to: &Operand,
    values: &[Operand],
) -> Result<(), AllocError>
    requires frame { CanBeMade frame.now }
    requires address { is_operand frame.now to.now ≡ true }
    requires label { IsOperand asm.old.labels to.now }
    requires operands { list_all (is_operand frame.now) values.now ≡ true }
    requires labels { All (IsOperand asm.old.labels) values.now }
    requires few { length values.now ≤ 64 }
    ensures jumps { OnOk result (Adds (most_for to.now + (parting_cost frame.now values.now + 1)) asm.old.parts asm.new.parts (λ x from on. JumpsBy frame.now to.now values.now x from)) }
    ensures labels { asm.new.labels ≡ asm.old.labels }
{
    bring_operand(asm, to, SECOND_SCRATCH)?;
    give(asm, frame, values)?;
    leave(asm, frame)?;
    asm.emit(Instr::Jalr {
        rd: ZERO,
        rs1: SECOND_SCRATCH,
        imm: 0,
    })?;
    Ok(())
}

/// Leads from a site on: to a label for each alternate exit, by a word each, and from behind these words to where the code goes on. A site without
/// alternate exits has no word: control comes back to where the code goes on. An error is want of memory, and nothing is changed.
pub fn lay_exits(asm: &mut Asm, exits: &[Label]) -> Result<(), AllocError>
    requires few { length exits.now ≤ table_limit }
    requires inner { All (IsInner asm.old.labels) exits.now }
    ensures exits { OnOk result (Adds (exits_cost (length exits.now)) asm.old.parts asm.new.parts (HasExits exits.now)) }
    ensures words { OnOk result (AddsWords (length exits.now) asm.old.parts asm.new.parts) }
    ensures labels { asm.new.labels ≡ asm.old.labels }
{
    if exits.is_empty() {
        return Ok(());
    }
    asm.table(exits)?;
    Ok(())
}

/// Cuts: values go out, and control goes to the continuation whose pair has the address that an operand names. No register is restored. No operand of
/// the values may be a register to which an earlier value goes.
pub fn cut(asm: &mut Asm, frame: &Frame, to: &Operand, values: &[Operand]) -> Result<(), AllocError>
    requires frame { CanBeMade frame.now }
    requires pair { is_operand frame.now to.now ≡ true }
    requires label { IsOperand asm.old.labels to.now }
    requires operands { list_all (is_operand frame.now) values.now ≡ true }
    requires labels { All (IsOperand asm.old.labels) values.now }
    requires few { length values.now ≤ 64 }
    ensures cuts { OnOk result (Adds (most_for to.now + (12 * length values.now + 3)) asm.old.parts asm.new.parts (λ x from on. CutsTo frame.now to.now values.now x from)) }
    ensures labels { asm.new.labels ≡ asm.old.labels }
{
    bring_operand(asm, to, SECOND_SCRATCH)?;
    give(asm, frame, values)?;
    go_to_pair(asm)?;
    Ok(())
}

/// Goes to the continuation whose pair has the address in register 7.
fn go_to_pair(asm: &mut Asm) -> Result<(), AllocError>
    ensures goes { OnOk result (Adds 3 asm.old.parts asm.new.parts (λ x from on. GoesToPair x from)) }
    ensures labels { asm.new.labels ≡ asm.old.labels }
{
    asm.emit(Instr::Ld {
        rd: HELPER,
        rs1: SECOND_SCRATCH,
        imm: 0,
    })?;
    asm.emit(Instr::Ld {
        rd: FRAME,
        rs1: SECOND_SCRATCH,
        imm: 8,
    })?;
    asm.emit(Instr::Jalr {
        rd: ZERO,
        rs1: HELPER,
        imm: 0,
    })?;
    Ok(())
}
