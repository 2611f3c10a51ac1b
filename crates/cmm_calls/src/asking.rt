//! The end of a run is requested, or the client is called.

ghost use Rattle.std.specs.Prelude.{◌≡◌, OnOk};
ghost use Rattle.rv_table.specs.declared.request.Request.TheVariants as request;
ghost use Rattle.cmm_effects.specs.Pieces.{Adds};
ghost use Rattle.cmm_effects.specs.Requests.{AsksFor};

use cmm_abi::registers::REQUEST_VALUE;
use cmm_select::choose;
use rv_asm::Asm;
use rv_table::{Instr, Request};
use std::alloc::AllocError;

/// Ends a run at the limit of the stack.
pub fn ask_limit(asm: &mut Asm) -> Result<(), AllocError>
    ensures asks { OnOk result (Adds 2 asm.old.parts asm.new.parts (λ x from to. AsksFor 1 (λ t. request.StackLimit) x from)) }
    ensures labels { asm.new.labels ≡ asm.old.labels }
{
    asm.emit(choose(Request::StackLimit))?;
    asm.emit(Instr::Ecall)?;
    Ok(())
}

/// Ends a run with the value in register 10.
pub fn ask_end(asm: &mut Asm) -> Result<(), AllocError>
    ensures asks { OnOk result (Adds 2 asm.old.parts asm.new.parts (λ x from to. AsksFor 1 (λ t. request.End (t.registers REQUEST_VALUE)) x from)) }
    ensures labels { asm.new.labels ≡ asm.old.labels }
{
    asm.emit(choose(Request::End(0)))?;
    asm.emit(Instr::Ecall)?;
    Ok(())
}

/// Calls the client. Nothing but scratch registers is changed on the way.
pub fn ask_client(asm: &mut Asm) -> Result<(), AllocError>
    ensures asks { OnOk result (Adds 2 asm.old.parts asm.new.parts (λ x from to. AsksFor 1 (λ t. request.Yield) x from)) }
    ensures labels { asm.new.labels ≡ asm.old.labels }
{
    asm.emit(choose(Request::Yield))?;
    asm.emit(Instr::Ecall)?;
    Ok(())
}
