//! The code of a small program, whose contract represents that what is required of code can be met.

ghost use Rattle.std.specs.Prelude.{◌≡◌, ◌≢◌, [], slice_get, Some, false, OnOk};
ghost use Rattle.rv_asm.specs.Appending.{Appends};
ghost use Rattle.rv_asm.specs.declared.part.Meaning.TheVariants.{Inner};
ghost use Rattle.cmm_calls.specs.Frames.{CanBeMade};
ghost use Rattle.cmm_emit_laws.specs.Examples.{ReturnsSeven};

use crate::starting::start_run;
use cmm_calls::{ask_limit, begin, return_values};
use cmm_chain::Frame;
use cmm_select::{Operand, Source};
use rv_asm::{Asm, Label};
use std::alloc::AllocError;

/// The code of `main() { return (7); }` with a frame that has no pairs, behind that with which a run begins; at the label `limit` the run ends at the
/// limit of the stack.
pub fn return_seven(
    asm: &mut Asm,
    frame: &Frame,
    main: Label,
    limit: Label,
) -> Result<(), AllocError>
    requires frame { CanBeMade frame.now }
    requires pairs { frame.now.pairs ≡ [] }
    requires main { slice_get asm.old.labels main.number ≡ Some (Inner false) }
    requires limit { slice_get asm.old.labels limit.number ≡ Some (Inner false) }
    requires apart { main.number ≢ limit.number }
    ensures code { OnOk result (Appends asm.old.parts asm.new.parts (ReturnsSeven frame.now main limit)) }
{
    start_run(asm, main)?;
    asm.place(main);
    begin(asm, frame, &[], &[], &[], limit)?;
    return_values(asm, frame, &[Operand::Held(Source::Number(7))], 0)?;
    asm.place(limit);
    ask_limit(asm)?;
    Ok(())
}
