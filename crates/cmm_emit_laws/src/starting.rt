//! The code with which a run begins.

ghost use Rattle.std.specs.Prelude.{◌≡◌, OnOk};
ghost use Rattle.rv_asm.specs.Assembly.{IsTarget};
ghost use Rattle.cmm_effects.specs.Pieces.{Adds};
ghost use Rattle.cmm_emit_laws.specs.Starting.{BeginsRun};

use cmm_calls::ask_end;
use rv_asm::{Asm, Label};
use std::alloc::AllocError;

/// Calls `main`, and ends the run with what it returns.
pub fn start_run(asm: &mut Asm, main: Label) -> Result<(), AllocError>
    requires { IsTarget asm.old.labels main }
    ensures begins { OnOk result (Adds 4 asm.old.parts asm.new.parts (λ x from to. BeginsRun main x from)) }
    ensures labels { asm.new.labels ≡ asm.old.labels }
{
    asm.call(main)?;
    ask_end(asm)?;
    Ok(())
}
