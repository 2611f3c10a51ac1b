//! The line that closes the log.

ghost use Rattle.std.specs.Prelude.{◌≡◌};
ghost use Rattle.cmm_outside.specs.Output.{WritesAll};
ghost use Rattle.cmm_work.specs.Ending.{Closes, line_of, status_at};
ghost use Rattle.cmm_work.specs.Lines.{bad_elf_line, bad_image_line, bad_script_line, bad_snapshot_line, outcome_line, refused_line, segments_line};

use crate::ending::Ending;
use crate::status::Status;
use cmm_outside::{Failed, Sink, write_all};
use cmm_report::{Part, write_parts};
use cmm_rules::Rule;
use cmm_run::Outcome;
use cmm_static_semantics::Fault;

/// Writes the line of an ending, and answers the call's status.
pub fn close<E: Sink>(ending: &Ending, log: &mut E) -> Status
    ensures { Closes ending.now (E.taken log.old) (E.taken log.new) (E.faults log.old) (E.faults log.new) result }
{
    match write_line(ending, log) {
        Ok(()) => status_of(ending),
        Err(Failed) => Status::OutputFault,
    }
}

fn status_of(ending: &Ending) -> Status
    ensures { result ≡ status_at ending.now }
{
    match ending {
        Ending::Usage => Status::Usage,
        Ending::Refused(..) => Status::Refused,
        Ending::BadImage { .. } => Status::BadImage,
        Ending::BadScript { .. } => Status::BadScript,
        Ending::BadSnapshot { .. } => Status::BadSnapshot,
        Ending::BadElf { .. } => Status::BadElf,
        Ending::FileFault(_) => Status::FileFault,
        Ending::OutputFault => Status::OutputFault,
        Ending::OutOfMemory => Status::Memory,
        Ending::Written | Ending::Walked | Ending::Inspected { .. } => Status::Done,
        Ending::Ran(outcome) => Status::of(outcome),
    }
}

/// Writes the line of an ending. A file or a walk that was written has none, and neither has a fault of output or log.
fn write_line<E: Sink>(ending: &Ending, log: &mut E) -> Result<(), Failed>
    ensures { WritesAll E.taken E.faults log.old log.new (line_of ending.now) result }
{
    match *ending {
        Ending::Usage => write_all(log, b"usage\n"),
        Ending::Refused(name, fault) => write_fault(fault, name, log),
        Ending::BadImage { rule, offset } => write_image_fault(rule, offset, log),
        Ending::BadScript { rule, line } => write_script_fault(rule, line, log),
        Ending::FileFault(name) => write_parts(
            log,
            &[
                Part::Text(b"file fault "),
                Part::Text(name.as_bytes()),
                Part::Text(b"\n"),
            ],
        ),
        Ending::BadSnapshot { rule, offset } => write_snapshot_fault(rule, offset, log),
        Ending::BadElf { rule, offset } => write_elf_fault(rule, offset, log),
        Ending::OutputFault | Ending::Written | Ending::Walked => Ok(()),
        Ending::OutOfMemory => write_all(log, b"out of memory\n"),
        Ending::Inspected {
            code,
            initial,
            start,
        } => write_segments(code, initial, start, log),
        Ending::Ran(outcome) => write_outcome(outcome, log),
    }
}

/// Writes the line of a refused unit.
fn write_fault<E: Sink>(fault: Fault, name: &str, log: &mut E) -> Result<(), Failed>
    ensures { WritesAll E.taken E.faults log.old log.new (refused_line name.now fault) result }
{
    write_parts(
        log,
        &[
            Part::Text(name.as_bytes()),
            Part::Text(b":"),
            Part::Number(u64::from(fault.line)),
            Part::Text(b":"),
            Part::Number(u64::from(fault.column)),
            Part::Text(b": "),
            Part::Number(u64::from(fault.rule.number())),
            Part::Text(b" "),
            Part::Text(fault.rule.text().as_bytes()),
            Part::Text(b"\n"),
        ],
    )
}

/// Writes the line of bytes that are no image.
fn write_image_fault<E: Sink>(rule: Rule, offset: u64, log: &mut E) -> Result<(), Failed>
    ensures { WritesAll E.taken E.faults log.old log.new (bad_image_line rule offset) result }
{
    write_parts(
        log,
        &[
            Part::Text(b"bad image "),
            Part::Number(u64::from(rule.number())),
            Part::Text(b" at "),
            Part::Number(offset),
            Part::Text(b"\n"),
        ],
    )
}

/// Writes the line of bytes that are no snapshot.
fn write_snapshot_fault<E: Sink>(rule: Rule, offset: u64, log: &mut E) -> Result<(), Failed>
    ensures { WritesAll E.taken E.faults log.old log.new (bad_snapshot_line rule offset) result }
{
    write_parts(
        log,
        &[
            Part::Text(b"bad snapshot "),
            Part::Number(u64::from(rule.number())),
            Part::Text(b" at "),
            Part::Number(offset),
            Part::Text(b"\n"),
        ],
    )
}

/// Writes the line of bytes that are no ELF file of an image.
fn write_elf_fault<E: Sink>(rule: Rule, offset: u64, log: &mut E) -> Result<(), Failed>
    ensures { WritesAll E.taken E.faults log.old log.new (bad_elf_line rule offset) result }
{
    write_parts(
        log,
        &[
            Part::Text(b"bad elf "),
            Part::Number(u64::from(rule.number())),
            Part::Text(b" at "),
            Part::Number(offset),
            Part::Text(b"\n"),
        ],
    )
}

/// Writes the line of an ELF file: the lengths of its code and its data, and where it starts.
fn write_segments<E: Sink>(code: u64, initial: u64, start: u64, log: &mut E) -> Result<(), Failed>
    ensures { WritesAll E.taken E.faults log.old log.new (segments_line code initial start) result }
{
    write_parts(
        log,
        &[
            Part::Text(b"code "),
            Part::Number(code),
            Part::Text(b" data "),
            Part::Number(initial),
            Part::Text(b" start "),
            Part::Address(start),
            Part::Text(b"\n"),
        ],
    )
}

/// Writes the line of bytes that are no script.
fn write_script_fault<E: Sink>(rule: Rule, line: u32, log: &mut E) -> Result<(), Failed>
    ensures { WritesAll E.taken E.faults log.old log.new (bad_script_line rule line) result }
{
    write_parts(
        log,
        &[
            Part::Text(b"bad script "),
            Part::Number(u64::from(rule.number())),
            Part::Text(b" line "),
            Part::Number(u64::from(line)),
            Part::Text(b"\n"),
        ],
    )
}

/// Writes the line of a run. A run that ends for a fault of output or log has none.
fn write_outcome<E: Sink>(outcome: Outcome, log: &mut E) -> Result<(), Failed>
    ensures { WritesAll E.taken E.faults log.old log.new (outcome_line outcome) result }
{
    match outcome {
        Outcome::Done(value) => write_parts(
            log,
            &[
                Part::Text(b"result "),
                Part::Number(value),
                Part::Text(b"\n"),
            ],
        ),
        Outcome::Stopped => write_all(log, b"stopped\n"),
        Outcome::StackLimit => write_all(log, b"stack limit\n"),
        Outcome::StepLimit => write_all(log, b"step limit\n"),
        Outcome::Trap(trap) => write_parts(
            log,
            &[
                Part::Text(b"trap "),
                Part::Number(u64::from(trap.kind.number())),
                Part::Text(b" at "),
                Part::Address(trap.pc),
                Part::Text(b"\n"),
            ],
        ),
        Outcome::InputFault => write_all(log, b"input fault\n"),
        Outcome::OutputFault => Ok(()),
        Outcome::Torn(torn) => write_parts(
            log,
            &[
                Part::Text(b"torn "),
                Part::Address(torn.frame),
                Part::Text(b" "),
                Part::Address(torn.address),
                Part::Text(b"\n"),
            ],
        ),
    }
}
