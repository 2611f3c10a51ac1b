//! The code of a small program with a call, whose contract represents that what is required of calls and sites can be met.

ghost use Rattle.std.specs.Prelude.{◌≡◌, ◌<◌, [], slice_get, Some, false, OnOk};
ghost use Rattle.rv_asm.specs.Appending.{Appends};
ghost use Rattle.rv_asm.specs.declared.part.Meaning.TheVariants.{Inner};
ghost use Rattle.cmm_calls.specs.Frames.{CanBeMade};
ghost use Rattle.cmm_emit_laws.specs.Examples.{CallsOnce};

use crate::starting::start_run;
use cmm_calls::{ask_limit, begin, call, lay_exits, return_values};
use cmm_chain::Frame;
use cmm_select::{Operand, Source};
use rv_asm::{Asm, Label};
use std::alloc::AllocError;

/// The code of `main() { f(); return (7); }` and `f() { return (); }` with frames that have no pairs, behind that with which a run begins; at the
/// label `limit` the run ends at the limit of the stack. The labels have ascending numbers.
pub fn call_once(
    asm: &mut Asm,
    frame: &Frame,
    main: Label,
    callee: Label,
    site: Label,
    behind: Label,
    limit: Label,
) -> Result<(), AllocError>
    requires frame { CanBeMade frame.now }
    requires pairs { frame.now.pairs ≡ [] }
    requires main { slice_get asm.old.labels main.number ≡ Some (Inner false) }
    requires callee { slice_get asm.old.labels callee.number ≡ Some (Inner false) }
    requires site { slice_get asm.old.labels site.number ≡ Some (Inner false) }
    requires behind { slice_get asm.old.labels behind.number ≡ Some (Inner false) }
    requires limit { slice_get asm.old.labels limit.number ≡ Some (Inner false) }
    requires first { main.number < callee.number }
    requires second { callee.number < site.number }
    requires third { site.number < behind.number }
    requires fourth { behind.number < limit.number }
    ensures code { OnOk result (Appends asm.old.parts asm.new.parts (CallsOnce frame.now main callee site behind limit)) }
{
    start_run(asm, main)?;
    asm.place(main);
    begin(asm, frame, &[], &[], &[], limit)?;
    call(asm, frame, &[], callee, site)?;
    lay_exits(asm, &[])?;
    asm.jump(behind)?;
    asm.place(behind);
    return_values(asm, frame, &[Operand::Held(Source::Number(7))], 0)?;
    asm.place(callee);
    begin(asm, frame, &[], &[], &[], limit)?;
    return_values(asm, frame, &[], 0)?;
    asm.place(limit);
    ask_limit(asm)?;
    Ok(())
}
