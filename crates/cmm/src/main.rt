//! The program `cmm`: the top call over the real files and streams. Its log is standard error.
#![tactic(auto)]

ghost use Rattle.std.specs.Prelude.{◌≡◌, ◌<◌, ◌≤◌, ◌^◌, length, IfOk, OnErr};
ghost use Rattle.cmm_work.specs.declared.status.Status.TheVariants.{Usage, Memory};
ghost use Rattle.cmm_outside.specs.Reads.{AreReadInOrder, Made};
ghost use Rattle.cmm_run.specs.Outside.{outside_of};
ghost use Rattle.cmm_top.specs.Answers.{EndsWith};
ghost use Rattle.cmm_work.specs.Standing.{standing};
ghost use Rattle.cmm_top.specs.Reads.{read_by};
ghost use Rattle.cmm_top.specs.Words.{texts};
ghost use Rattle.cmm_work.specs.Status.{number_of};

use cmm_outside::{Files, Sink, Source, StdFiles, StdSink, StdSource};
use cmm_top::{Status, cmm_main};
use std::alloc::{AllocError, Global};
use std::process::ExitCode;
use std::{env, io};

fn main(rt: HostRuntime) -> ExitCode {
    let words = words(&rt);
    ExitCode::from(run(
        rt.alloc(),
        words,
        &mut StdFiles::new(rt),
        &mut StdSource::new(rt.stdin()),
        &mut StdSink::new(rt.stdout()),
        &mut StdSink::new(rt.stderr()),
    ))
}

/// Does what the words ask for over these files and streams, and gives the exit status. Words that could not be had for want of memory,
/// and 2^32 words or more, have a status of their own and no line.
fn run<F: Files, I: Source, O: Sink, E: Sink>(
    alloc: Global,
    words: Result<Vec<String>, AllocError>,
    files: &mut F,
    input: &mut I,
    out: &mut O,
    log: &mut E,
) -> u8
    ensures none { OnErr words (result ≡ number_of Memory) }
    ensures many { IfOk words (λ given. 2 ^ 32 ≤ length given.items → result ≡ number_of Usage) }
    ensures reads { IfOk words (λ given. length given.items < 2 ^ 32 → Made (F.reads files.old) (F.reads files.new) (AreReadInOrder (read_by (texts given.items)))) }
    ensures answers { IfOk words (λ given. length given.items < 2 ^ 32 → EndsWith (λ status image. record {
      words = texts given.items;
      before = standing F.contents F.faults F.last_failed files.old (outside_of I.left I.faults O.taken O.faults E.taken E.faults input.old out.old log.old);
      after = standing F.contents F.faults F.last_failed files.new (outside_of I.left I.faults O.taken O.faults E.taken E.faults input.new out.new log.new);
      status = status;
      image = image;
    }) result) }
{
    let Ok(words) = words else {
        return Status::Memory.number();
    };
    if words.len() >= 0x1_0000_0000 {
        return Status::Usage.number();
    }
    cmm_main(alloc, &words, files, input, out, log)
        .status
        .number()
}

/// The words of the command line after the program's name; none of them where one is not text, which no command takes.
fn words(rt: &HostRuntime) -> Result<Vec<String>, AllocError> {
    match env::args(rt) {
        Ok(args) => args.skip(1).collect(rt.alloc()),
        Err(error) if error.kind() == io::ErrorKind::OutOfMemory => Err(AllocError),
        Err(_) => Ok(Vec::new(rt.alloc())),
    }
}
