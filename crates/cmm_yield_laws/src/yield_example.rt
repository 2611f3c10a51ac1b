//! The code of a small program that yields, with which what is required of whole code can be met.

ghost use Rattle.std.specs.Prelude.{◌≡◌, ◌<◌, [], slice_get, Some, false, OnOk};
ghost use Rattle.rv_asm.specs.Appending.{Appends};
ghost use Rattle.rv_asm.specs.declared.part.Meaning.TheVariants.{Inner};
ghost use Rattle.cmm_calls.specs.Frames.{CanBeMade};
ghost use Rattle.cmm_yield_laws.specs.Examples.{YieldsOnce};

use cmm_calls::{ask_client, ask_limit, begin, call, lay_exits, return_values};
use cmm_chain::Frame;
use cmm_emit_laws::starting::start_run;
use cmm_select::{Operand, Source};
use rv_asm::{Asm, Label};
use std::alloc::AllocError;

/// The code of `main() { yield(7); return (7); }` with a frame that has no pairs, behind that with which a run begins; at the label `limit` the run ends at the
/// limit of the stack, and at `client` the client is called. The labels have ascending numbers.
pub fn yield_once(
    asm: &mut Asm,
    frame: &Frame,
    main: Label,
    client: Label,
    site: Label,
    behind: Label,
    limit: Label,
) -> Result<(), AllocError>
    requires frame { CanBeMade frame.now }
    requires pairs { frame.now.pairs ≡ [] }
    requires main { slice_get asm.old.labels main.number ≡ Some (Inner false) }
    requires client { slice_get asm.old.labels client.number ≡ Some (Inner false) }
    requires site { slice_get asm.old.labels site.number ≡ Some (Inner false) }
    requires behind { slice_get asm.old.labels behind.number ≡ Some (Inner false) }
    requires limit { slice_get asm.old.labels limit.number ≡ Some (Inner false) }
    requires first { main.number < client.number }
    requires second { client.number < site.number }
    requires third { site.number < behind.number }
    requires fourth { behind.number < limit.number }
    ensures code { OnOk result (Appends asm.old.parts asm.new.parts (YieldsOnce frame.now main client site behind limit)) }
{
    start_run(asm, main)?;
    asm.place(main);
    begin(asm, frame, &[], &[], &[], limit)?;
    call(
        asm,
        frame,
        &[Operand::Held(Source::Number(7))],
        client,
        site,
    )?;
    lay_exits(asm, &[])?;
    asm.jump(behind)?;
    asm.place(behind);
    return_values(asm, frame, &[Operand::Held(Source::Number(7))], 0)?;
    asm.place(client);
    ask_client(asm)?;
    asm.place(limit);
    ask_limit(asm)?;
    Ok(())
}
