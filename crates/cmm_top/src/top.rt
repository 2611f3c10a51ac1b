//! `cmm_main`: the call that the program makes.

ghost use Rattle.std.specs.Prelude.{◌<◌, ◌^◌, length};
ghost use Rattle.cmm_outside.specs.Reads.{AreReadInOrder, Made};
ghost use Rattle.cmm_run.specs.Outside.{outside_of};
ghost use Rattle.cmm_top.specs.Answers.{Answers, ComesTo, Does};
ghost use Rattle.cmm_work.specs.Standing.{standing};
ghost use Rattle.cmm_top.specs.Reads.{read_by, read_for};
ghost use Rattle.cmm_top.specs.Words.{texts};
ghost use Rattle.cmm_work.specs.Ending.{work_of};
ghost use Rattle.cmm_top.specs.inside.Tasks.{CanBeDone, plain_task};

use crate::building::build;
use crate::executing::exec;
use crate::finish::Finish;
use crate::generating::generate;
use crate::task::{Task, task_in};
use cmm_command::laws::commands_are_in_range;
use cmm_command::{CommandFault, command_of};
use cmm_image::Image;
use cmm_outside::{Files, Sink, Source};
use cmm_work::{Ending, Form, close, convert, inspect, run, walk};
use std::alloc::Global;

/// What a task comes to, before the line that says so. With it the image that was loaded to be run, if `exec` or `gen` did.
fn done<'a, F: Files, I: Source, O: Sink, E: Sink>(
    alloc: Global,
    task: &Task<'a>,
    files: &mut F,
    input: &mut I,
    out: &mut O,
    log: &mut E,
) -> (Ending<'a>, Option<Image>)
    requires { CanBeDone (plain_task task.now) }
    ensures reads { Made (F.reads files.old) (F.reads files.new) (AreReadInOrder (read_for (plain_task task.now))) }
    ensures does { Does (plain_task task.now) (work_of result.0 result.1
        (standing F.contents F.faults F.last_failed files.old (outside_of I.left I.faults O.taken O.faults E.taken E.faults input.old out.old log.old))
        (standing F.contents F.faults F.last_failed files.new (outside_of I.left I.faults O.taken O.faults E.taken E.faults input.new out.new log.new))) }
{
    match task {
        Task::Execute {
            units,
            client,
            limits,
        } => {
            let names = units.as_slice();
            exec(alloc, names, *client, *limits, files, input, out, log)
        }
        Task::Run {
            image,
            client,
            limits,
            save,
        } => {
            let ending = run(
                alloc, *image, *client, *limits, *save, files, input, out, log,
            );
            (ending, None)
        }
        Task::Walk { image, snapshot } => {
            let ending = walk(alloc, *image, *snapshot, files, out);
            (ending, None)
        }
        Task::Build { units, image } => {
            let ending = build(alloc, units.as_slice(), *image, files);
            (ending, None)
        }
        Task::Generate { number } => generate(alloc, *number, input, out, log),
        Task::Convert { image, file } => {
            let ending = convert(alloc, Form::Elf, *image, *file, files);
            (ending, None)
        }
        Task::Migrate { image, file } => {
            let ending = convert(alloc, Form::SecondVersion, *image, *file, files);
            (ending, None)
        }
        Task::Inspect { file } => {
            let ending = inspect(alloc, *file, files);
            (ending, None)
        }
    }
}

/// What the words come to, before the line that says so.
fn ended<'a, F: Files, I: Source, O: Sink, E: Sink>(
    alloc: Global,
    words: &'a [String],
    files: &mut F,
    input: &mut I,
    out: &mut O,
    log: &mut E,
) -> (Ending<'a>, Option<Image>)
    ensures reads { Made (F.reads files.old) (F.reads files.new) (AreReadInOrder (read_by (texts words.now))) }
    ensures comes { ComesTo (texts words.now) (work_of result.0 result.1
        (standing F.contents F.faults F.last_failed files.old (outside_of I.left I.faults O.taken O.faults E.taken E.faults input.old out.old log.old))
        (standing F.contents F.faults F.last_failed files.new (outside_of I.left I.faults O.taken O.faults E.taken E.faults input.new out.new log.new))) }
{
    commands_are_in_range();
    match command_of(alloc, words) {
        Ok(command) => match task_in(command) {
            Some(task) => done(alloc, &task, files, input, out, log),
            None => (Ending::Usage, None),
        },
        Err(fault) => match fault {
            CommandFault::Usage => (Ending::Usage, None),
            CommandFault::Memory => (Ending::OutOfMemory, None),
        },
    }
}

/// Does what the words of the command line ask for. The words are those after the program's name.
///
/// - `build UNIT .. -o IMAGE` builds the units in files and writes their image to a file.
/// - `run IMAGE` runs the image in a file, and answers its yields as the script of `--client` says. Where that stops it, `--save` writes a snapshot.
/// - `walk IMAGE SNAPSHOT` writes the walk of the program that a snapshot has.
/// - `exec UNIT ..` builds the units in files and runs their image in the same way.
/// - `gen NUMBER` builds the unit of a number, tells the counts of its program and runs its image.
/// - `elf IMAGE -o FILE` writes the ELF file of the image in a file.
/// - `migrate IMAGE -o IMAGE` writes the image in a file, of version 1, in version 2.
/// - `segments FILE` tells the segments of an ELF file.
pub fn cmm_main<F: Files, I: Source, O: Sink, E: Sink>(
    alloc: Global,
    words: &[String],
    files: &mut F,
    input: &mut I,
    out: &mut O,
    log: &mut E,
) -> Finish
    requires { length words.now < 2 ^ 32 }
    ensures reads { Made (F.reads files.old) (F.reads files.new) (AreReadInOrder (read_by (texts words.now))) }
    ensures answers { Answers (record {
      words = texts words.now;
      before = standing F.contents F.faults F.last_failed files.old (outside_of I.left I.faults O.taken O.faults E.taken E.faults input.old out.old log.old);
      after = standing F.contents F.faults F.last_failed files.new (outside_of I.left I.faults O.taken O.faults E.taken E.faults input.new out.new log.new);
      status = result.status;
      image = result.image;
    }) }
{
    let (ending, image) = ended(alloc, words, files, input, out, log);
    Finish {
        status: close(&ending, log),
        image,
    }
}
