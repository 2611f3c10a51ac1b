//! `gen`: the unit of a number is built, its counts are told, and its image runs.

ghost use Rattle.std.specs.Prelude.{◌≡◌, ◌≤◌, ◌∷◌, [], ℕ, Option, None, IfOk, IfErr};
ghost use Rattle.cmm_compile.specs.Agreement.{AgreesWith};
ghost use Rattle.cmm_program.specs.InRange.{IsInRange};
ghost use Rattle.cmm_program.specs.Limits.{token_limit};
ghost use Rattle.cmm_front.specs.Programs.{IsProgramOf};
ghost use Rattle.cmm_generated.specs.Generated.{generated};
ghost use Rattle.cmm_outside.specs.Output.{WritesAll};
ghost use Rattle.cmm_outside.specs.Storage.{Contents, FailedCall};
ghost use Rattle.cmm_run.specs.Outside.{outside_of};
ghost use Rattle.cmm_work.specs.Standing.{Outside};
ghost use Rattle.cmm_top.specs.Generating.{Generates, HasNoImage};
ghost use Rattle.cmm_top.specs.Counts.{counts_lines, site_count};
ghost use Rattle.cmm_work.specs.Ending.{work_of};

use crate::units::refusal;
use cmm_command::{RunLimits, USUAL_STACK, USUAL_STEPS};
use cmm_compile::{Compiled, compile_program};
use cmm_image::Image;
use cmm_items::Items;
use cmm_outside::{Failed, Sink, Source};
use cmm_program::Program;
use cmm_report::{Part, write_parts};
use cmm_script::Script;
use cmm_work::{Ending, Prepared, load};
use rv_memory::NoMemory;
use std::alloc::{AllocError, Global};

/// How far the run goes.
const LIMITS: RunLimits = RunLimits {
    steps: USUAL_STEPS,
    stack: USUAL_STACK,
};

/// The program of the unit of a number, and its image. The error is what the call comes to where there is none.
fn compiled(alloc: Global, number: u64) -> Result<Compiled, Ending<'static>>
    ensures means { IfOk result (λ c. IsProgramOf (generated number ∷ []) c.program) }
    ensures range { IfOk result (λ c. IsInRange c.program) }
    ensures agrees { IfOk result (λ c. AgreesWith c.program c.image) }
    ensures err { (o : Outside) → IfErr result (λ ending. HasNoImage number (work_of ending None o o)) }
{
    let unit = match cmm_generated::generate(alloc, number) {
        Ok(unit) => Items::from_vec(unit),
        Err(AllocError) => return Err(Ending::OutOfMemory),
    };
    match compile_program(alloc, &[unit]) {
        Ok(compiled) => Ok(compiled),
        Err(fault) => Err(refusal(&["generated"], fault)),
    }
}

/// How many call sites a program has.
fn count_sites(program: &Program) -> u64
    requires { site_count program.now ≤ token_limit }
    ensures { result ≡ site_count program.now }
{
    let mut count = 0;
    for procedure in program.procs.as_slice() {
        count += procedure.sites.len() as u64;
    }
    count
}

/// Tells how many procedures and how many call sites a program has.
fn put_counts<E: Sink>(program: &Program, log: &mut E) -> Result<(), Failed>
    requires { site_count program.now ≤ token_limit }
    ensures { WritesAll E.taken E.faults log.old log.new (counts_lines program.now) result }
{
    write_parts(
        log,
        &[
            Part::Text(b"procedures "),
            Part::Number(program.procs.len() as u64),
            Part::Text(b"\nsites "),
            Part::Number(count_sites(program)),
            Part::Text(b"\n"),
        ],
    )
}

/// What the unit of a number comes to: it is built, the counts of its program are told, and its image runs. With it the image, if it was loaded.
pub(crate) fn generate<I: Source, O: Sink, E: Sink>(
    alloc: Global,
    number: u64,
    input: &mut I,
    out: &mut O,
    log: &mut E,
) -> (Ending<'static>, Option<Image>)
    ensures { (files : Option Contents) (faults : ℕ) (failed : Option FailedCall) → Generates number (work_of result.0 result.1
        (record {
          files = files;
          file_faults = faults;
          last_failed = failed;
          streams = outside_of I.left I.faults O.taken O.faults E.taken E.faults input.old out.old log.old;
        })
        (record {
          files = files;
          file_faults = faults;
          last_failed = failed;
          streams = outside_of I.left I.faults O.taken O.faults E.taken E.faults input.new out.new log.new;
        })) }
{
    let Compiled { program, image } = match compiled(alloc, number) {
        Ok(compiled) => compiled,
        Err(ending) => return (ending, None),
    };
    let prepared = Prepared {
        image,
        script: Script::empty(alloc),
    };
    let mut session = match load(alloc, prepared, LIMITS) {
        Ok(session) => session,
        Err(NoMemory) => return (Ending::OutOfMemory, None),
    };
    let Ok(()) = put_counts(&program, log) else {
        return (Ending::OutputFault, Some(session.into_image()));
    };
    let outcome = session.run(input, out, log);
    (Ending::Ran(outcome), Some(session.into_image()))
}
