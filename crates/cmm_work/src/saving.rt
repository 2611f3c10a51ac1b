//! `--save`: a run that the client stopped is saved to a file.

ghost use Rattle.std.specs.Prelude.{◌≡◌, ◌≤◌, length, None, Some, IfSome};
ghost use Rattle.std.specs.Option.{option_map};
ghost use Rattle.cmm_outside.specs.declared.storage.TheConstants.{NAME_LIMIT};
ghost use Rattle.cmm_run.specs.Outside.{Outside as Streams};
ghost use Rattle.cmm_run.specs.Sessions.{machine_of};
ghost use Rattle.cmm_run.specs.declared.outcome.Outcome.TheVariants.{Stopped};
ghost use Rattle.cmm_work.specs.Standing.{standing};
ghost use Rattle.cmm_work.specs.Saving.{Saves, is_stopped as is_stop, saved_to};
ghost use Rattle.cmm_work.specs.Ending.{work_of};

use crate::ending::Ending;
use cmm_outside::{Failed, Files, write_file};
use cmm_run::{Outcome, Session};
use std::alloc::{AllocError, Global};

/// What a run leaves that had this outcome: where the client stopped it and a file is named, a snapshot of it is written there.
pub(crate) fn left_by<'a, F: Files>(
    alloc: Global,
    outcome: Outcome,
    session: &Session,
    save: Option<&'a str>,
    files: &mut F,
) -> Ending<'a>
    requires answered { session.now.answer ≡ Some outcome }
    requires save { IfSome save (λ name. length name.now ≤ NAME_LIMIT) }
    ensures same_reads { F.reads files.new ≡ F.reads files.old }
    ensures saves { (first last : Streams) → Saves session.now.launch.image session.now.launch.stack_size (machine_of session.now) outcome
        (saved_to (is_stop outcome) (option_map (λ name. name.now) save.entry)) (work_of result None
        (standing F.contents F.faults F.last_failed files.old first)
        (standing F.contents F.faults F.last_failed files.new last)) }
{
    if !is_stopped(outcome) {
        return Ending::Ran(outcome);
    }
    match save {
        None => Ending::Ran(outcome),
        Some(name) => save_to(alloc, session, name, files),
    }
}

/// Whether the client has stopped the run.
fn is_stopped(outcome: Outcome) -> bool
    ensures { result ≡ is_stop outcome }
{
    match outcome {
        Outcome::Stopped => true,
        Outcome::Done(_) => false,
        Outcome::StackLimit => false,
        Outcome::StepLimit => false,
        Outcome::Trap(_) => false,
        Outcome::InputFault => false,
        Outcome::OutputFault => false,
        Outcome::Torn(_) => false,
    }
}

/// Writes a snapshot of a run that the client stopped to the file of this name.
fn save_to<'a, F: Files>(
    alloc: Global,
    session: &Session,
    name: &'a str,
    files: &mut F,
) -> Ending<'a>
    requires stopped { session.now.answer ≡ Some Stopped }
    requires short { length name.now ≤ NAME_LIMIT }
    ensures same_reads { F.reads files.new ≡ F.reads files.old }
    ensures saves { (first last : Streams) → Saves session.now.launch.image session.now.launch.stack_size (machine_of session.now) Stopped
        (Some name.now) (work_of result None
        (standing F.contents F.faults F.last_failed files.old first)
        (standing F.contents F.faults F.last_failed files.new last)) }
{
    let bytes = match session.snapshot(alloc) {
        Ok(bytes) => bytes,
        Err(AllocError) => return Ending::OutOfMemory,
    };
    match write_file(files, name, &bytes) {
        Ok(()) => Ending::Ran(Outcome::Stopped),
        Err(Failed) => Ending::FileFault(name),
    }
}
