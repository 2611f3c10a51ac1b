//! `exec`: units are built, and their image runs.

ghost use Rattle.std.specs.Prelude.{◌≡◌, ◌≤◌, ◌<◌, ◌++◌, length, map, None, IfOk, IfErr, IfSome, OnOk};
ghost use Rattle.std.specs.List.{All};
ghost use Rattle.std.specs.Option.{option_map};
ghost use Rattle.cmm_compile.specs.Agreement.{Agree};
ghost use Rattle.cmm_image_machine.specs.Machine.{IsStackSize};
ghost use Rattle.cmm_outside.specs.Reads.{AreReadInOrder, Made};
ghost use Rattle.cmm_outside.specs.declared.storage.TheConstants.{NAME_LIMIT};
ghost use Rattle.cmm_run.specs.Outside.{Outside as Streams, outside_of};
ghost use Rattle.cmm_script.specs.Limits.{HasFewValues};
ghost use Rattle.cmm_work.specs.Standing.{standing};
ghost use Rattle.cmm_top.specs.Executing.{CannotRun, Executes};
ghost use Rattle.cmm_work.specs.Files.{HasUnits};
ghost use Rattle.cmm_work.specs.Script.{HasScript};
ghost use Rattle.cmm_work.specs.Reads.{script_in};
ghost use Rattle.cmm_top.specs.Reads.{units_in};
ghost use Rattle.cmm_work.specs.Ending.{work_of};

use crate::sources::sources_of;
use crate::units::built;
use cmm_command::RunLimits;
use cmm_image::Image;
use cmm_outside::{Files, Sink, Source};
use cmm_work::{Ending, Prepared, client_in, run_image, script_of};
use rv_memory::NoMemory;
use std::alloc::Global;

/// The image of the units in files of these names, and the client's script. The error is what the call comes to where there is none: nothing was done then but to read.
fn prepare<'a, F: Files>(
    alloc: Global,
    names: &[&'a str],
    client: Option<&'a str>,
    files: &mut F,
) -> Result<Prepared, Ending<'a>>
    requires short { All (λ name. length name.now ≤ NAME_LIMIT) names.now }
    requires some { 0 < length names.now }
    requires client { IfSome client (λ name. length name.now ≤ NAME_LIMIT) }
    ensures agrees { IfOk result (λ p. HasUnits (F.contents files.old) (map (λ name. name.now) names.now) (λ units. Agree units p.image)) }
    ensures script { IfOk result (λ p. HasScript (F.contents files.old) (option_map (λ name. name.now) client.entry) p.script) }
    ensures few { IfOk result (λ p. HasFewValues p.script) }
    ensures err { (streams : Streams) → IfErr result (λ ending. CannotRun (map (λ name. name.now) names.now) (option_map (λ name. name.now) client.entry) (work_of ending None
        (standing F.contents F.faults F.last_failed files.old streams)
        (standing F.contents F.faults F.last_failed files.new streams))) }
    ensures same { F.contents files.new ≡ F.contents files.old }
    ensures reads { Made (F.reads files.old) (F.reads files.new) (AreReadInOrder (units_in (map (λ name. name.now) names.now) ++ script_in (option_map (λ name. name.now) client.entry))) }
    ensures no_fault { OnOk result (F.faults files.new ≡ F.faults files.old) }
    ensures no_failed_call { OnOk result (F.last_failed files.new ≡ F.last_failed files.old) }
{
    let sources = sources_of(alloc, files, names)?;
    let read = client_in(alloc, files, client)?;
    let image = built(alloc, names, &sources)?;
    let script = script_of(alloc, &read)?;
    Ok(Prepared { image, script })
}

/// What the units in files of these names come to: they are read, built and run, with the client's script in a file. With it the image that ran, if one did.
pub(crate) fn exec<'a, F: Files, I: Source, O: Sink, E: Sink>(
    alloc: Global,
    names: &[&'a str],
    client: Option<&'a str>,
    limits: RunLimits,
    files: &mut F,
    input: &mut I,
    out: &mut O,
    log: &mut E,
) -> (Ending<'a>, Option<Image>)
    requires short { All (λ name. length name.now ≤ NAME_LIMIT) names.now }
    requires some { 0 < length names.now }
    requires client { IfSome client (λ name. length name.now ≤ NAME_LIMIT) }
    requires stack { IsStackSize limits.stack }
    ensures reads { Made (F.reads files.old) (F.reads files.new) (AreReadInOrder (units_in (map (λ name. name.now) names.now) ++ script_in (option_map (λ name. name.now) client.entry))) }
    ensures executes { Executes (map (λ name. name.now) names.now) (option_map (λ name. name.now) client.entry) limits (work_of result.0 result.1
        (standing F.contents F.faults F.last_failed files.old (outside_of I.left I.faults O.taken O.faults E.taken E.faults input.old out.old log.old))
        (standing F.contents F.faults F.last_failed files.new (outside_of I.left I.faults O.taken O.faults E.taken E.faults input.new out.new log.new))) }
{
    let prepared = match prepare(alloc, names, client, files) {
        Ok(prepared) => prepared,
        Err(ending) => return (ending, None),
    };
    match run_image(alloc, prepared, limits, input, out, log) {
        Ok((outcome, session)) => (Ending::Ran(outcome), Some(session.into_image())),
        Err(NoMemory) => (Ending::OutOfMemory, None),
    }
}
