//! `run`: an image is read and runs.

ghost use Rattle.std.specs.Prelude.{◌≡◌, ◌≤◌, ◌∷◌, length, None, IfOk, IfErr, IfSome, OnOk};
ghost use Rattle.std.specs.Option.{option_map};
ghost use Rattle.cmm_image_machine.specs.Machine.{IsStackSize};
ghost use Rattle.cmm_image.specs.Images.{SpellsImage};
ghost use Rattle.cmm_outside.specs.Reads.{AreReadInOrder, Made};
ghost use Rattle.cmm_outside.specs.declared.storage.TheConstants.{NAME_LIMIT};
ghost use Rattle.cmm_run.specs.Outside.{Outside as Streams, outside_of};
ghost use Rattle.cmm_script.specs.Limits.{HasFewValues};
ghost use Rattle.cmm_work.specs.Standing.{standing};
ghost use Rattle.cmm_work.specs.Files.{HasBytes};
ghost use Rattle.cmm_work.specs.Running.{CannotRun, RunsFile};
ghost use Rattle.cmm_work.specs.Script.{HasScript};
ghost use Rattle.cmm_work.specs.Reads.{image_in, script_in};
ghost use Rattle.cmm_work.specs.Ending.{work_of};

use crate::client::{client_in, script_of};
use crate::ending::Ending;
use crate::image::image_of;
use crate::reading::bytes_in;
use crate::saving::left_by;
use crate::session::{Prepared, run_image};
use cmm_command::RunLimits;
use cmm_image::IMAGE_LIMIT;
use cmm_outside::{Files, Sink, Source};
use rv_memory::NoMemory;
use std::alloc::Global;

/// The image in the file of this name, and the client's script. The error is what the call comes to where there is none: nothing was done then but to read.
fn prepare<'a, F: Files>(
    alloc: Global,
    name: &'a str,
    client: Option<&'a str>,
    files: &mut F,
) -> Result<Prepared, Ending<'a>>
    requires short { length name.now ≤ NAME_LIMIT }
    requires client { IfSome client (λ name. length name.now ≤ NAME_LIMIT) }
    ensures spelled { IfOk result (λ p. HasBytes (F.contents files.old) name.now (λ bytes. SpellsImage bytes p.image)) }
    ensures script { IfOk result (λ p. HasScript (F.contents files.old) (option_map (λ name. name.now) client.entry) p.script) }
    ensures few { IfOk result (λ p. HasFewValues p.script) }
    ensures err { (streams : Streams) → IfErr result (λ ending. CannotRun name.now (option_map (λ name. name.now) client.entry) (work_of ending None
        (standing F.contents F.faults F.last_failed files.old streams)
        (standing F.contents F.faults F.last_failed files.new streams))) }
    ensures same { F.contents files.new ≡ F.contents files.old }
    ensures reads { Made (F.reads files.old) (F.reads files.new) (AreReadInOrder (image_in name.now ∷ script_in (option_map (λ name. name.now) client.entry))) }
    ensures no_fault { OnOk result (F.faults files.new ≡ F.faults files.old) }
    ensures no_failed_call { OnOk result (F.last_failed files.new ≡ F.last_failed files.old) }
{
    let bytes = bytes_in(alloc, files, name, IMAGE_LIMIT as u64)?;
    let read = client_in(alloc, files, client)?;
    let image = image_of(alloc, &bytes)?;
    let script = script_of(alloc, &read)?;
    Ok(Prepared { image, script })
}

/// What the image in the file of this name comes to: it is read and run, with the client's script in another file. Where the client stops it, a snapshot is saved.
pub fn run<'a, F: Files, I: Source, O: Sink, E: Sink>(
    alloc: Global,
    name: &'a str,
    client: Option<&'a str>,
    limits: RunLimits,
    save: Option<&'a str>,
    files: &mut F,
    input: &mut I,
    out: &mut O,
    log: &mut E,
) -> Ending<'a>
    requires short { length name.now ≤ NAME_LIMIT }
    requires client { IfSome client (λ name. length name.now ≤ NAME_LIMIT) }
    requires stack { IsStackSize limits.stack }
    requires save { IfSome save (λ name. length name.now ≤ NAME_LIMIT) }
    ensures reads { Made (F.reads files.old) (F.reads files.new) (AreReadInOrder (image_in name.now ∷ script_in (option_map (λ name. name.now) client.entry))) }
    ensures runs { RunsFile name.now (option_map (λ name. name.now) client.entry) limits (option_map (λ name. name.now) save.entry) (work_of result None
        (standing F.contents F.faults F.last_failed files.old (outside_of I.left I.faults O.taken O.faults E.taken E.faults input.old out.old log.old))
        (standing F.contents F.faults F.last_failed files.new (outside_of I.left I.faults O.taken O.faults E.taken E.faults input.new out.new log.new))) }
{
    let prepared = match prepare(alloc, name, client, files) {
        Ok(prepared) => prepared,
        Err(ending) => return ending,
    };
    match run_image(alloc, prepared, limits, input, out, log) {
        Ok((outcome, session)) => left_by(alloc, outcome, &session, save, files),
        Err(NoMemory) => Ending::OutOfMemory,
    }
}
