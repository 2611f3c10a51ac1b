//! The lines of the log, and where the client stands behind them.
ghost use Rattle.std.specs.Prelude.{◌≡◌, IfSome, Ok, Err};
ghost use Rattle.rv_table.specs.Machine.{State};
ghost use Rattle.cmm_abi.specs.Regions.{Region};
ghost use Rattle.cmm_image.specs.declared.parts.ImageParts.{ImageParts};
ghost use Rattle.cmm_outside.specs.Output.{WritesAll};
ghost use Rattle.cmm_script.specs.Lines.{descriptor_line, refused_line};
ghost use Rattle.cmm_image_machine.specs.Frames.{chain_of};
ghost use Rattle.cmm_image_machine.specs.Machine.{askable};
ghost use Rattle.cmm_program.specs.Commands.{listed};
ghost use Rattle.cmm_walk.specs.Activations.{Fits, IsIn, element_of};
ghost use Rattle.rv_memory.specs.Regions.{region_of as region_of_memory};
ghost use Rattle.rv_memory.specs.States.{state_of as state_with};
ghost use Rattle.cmm_client.specs.Stops.{cursor_of, region_of, state_of};
ghost use Rattle.cmm_client.specs.inside.Replies.{Replies, ReplyFits, at_text, meant, reply_of, variable_text};

use crate::cursor::Cursor;
use crate::reply::{After, Reply};
use crate::stopped::{Stopped, Thread};
use cmm_image::Image;
use cmm_outside::{Failed, Sink, write_all};
use cmm_report::{Part, write_parts};
use cmm_resume::Refusal;
use cmm_rules::Rule;
use cmm_walk::{Activation, Var, WalkError, procedure_of, site_at, write_walk};

/// Says what came of a command, with the cursor where it was before.
pub(crate) fn say<E: Sink>(
    asked: Result<Reply, Refusal>,
    i: &Image,
    stopped: &Stopped,
    cursor: Cursor,
    log: &mut E,
) -> Result<After, Failed>
    requires fits { ReplyFits i.now (region_of stopped.now) asked }
    requires cursor { IfSome cursor.activation (Fits i.now (region_of stopped.now)) }
    ensures { Replies E.taken E.faults log.old log.new i.now (region_of stopped.now) (state_of stopped.now)
        (reply_of (cursor_of i.now cursor) (state_of stopped.now) (meant i.now (region_of stopped.now) (cursor_of i.now cursor) (state_of stopped.now) asked)) result }
{
    match asked {
        Ok(reply) => say_reply(reply, i, stopped, cursor, log),
        Err(refusal) => say_refusal(refusal, cursor, log),
    }
}

/// Says what a command came to that was not refused.
fn say_reply<E: Sink>(
    reply: Reply,
    i: &Image,
    stopped: &Stopped,
    cursor: Cursor,
    log: &mut E,
) -> Result<After, Failed>
    requires fits { ReplyFits i.now (region_of stopped.now) (Ok reply) }
    requires cursor { IfSome cursor.activation (Fits i.now (region_of stopped.now)) }
    ensures { Replies E.taken E.faults log.old log.new i.now (region_of stopped.now) (state_of stopped.now)
        (reply_of (cursor_of i.now cursor) (state_of stopped.now) (meant i.now (region_of stopped.now) (cursor_of i.now cursor) (state_of stopped.now) (Ok reply))) result }
{
    let stays = Ok(After::Goes(cursor));
    match reply {
        Reply::Walk => list(i, stopped.at_cursor(), cursor, log),
        Reply::Stands(a) => {
            let there = Cursor {
                activation: Some(a),
            };
            put_at(log, &a, i).and(Ok(After::Goes(there)))
        }
        Reply::Descriptor(value) => put_descriptor(log, value).and(stays),
        Reply::Variable(n, variable) => put_variable(log, n, &variable).and(stays),
        Reply::Changed => write_all(log, b"ok\n").and(stays),
        Reply::Resumed => write_all(log, b"resume\n").and(Ok(After::Resumes)),
        Reply::Stopped => Ok(After::Stops),
    }
}

/// Says by which rule a command was refused. A break of the chain has no line.
fn say_refusal<E: Sink>(refusal: Refusal, cursor: Cursor, log: &mut E) -> Result<After, Failed>
    ensures { (i : ImageParts) (r : Region) (s : State) → IfSome cursor.activation (Fits i r) →
        Replies E.taken E.faults log.old log.new i r s (reply_of (cursor_of i cursor) s (meant i r (cursor_of i cursor) s (Err refusal))) result }
{
    match refusal {
        Refusal::ByRule(rule) => put_refused(log, rule).and(Ok(After::Goes(cursor))),
        Refusal::Torn(torn) => Ok(After::Tears(torn)),
    }
}

/// Writes the walk of a thread.
fn list<E: Sink>(i: &Image, thread: &Thread, cursor: Cursor, log: &mut E) -> Result<After, Failed>
    requires { IfSome cursor.activation (Fits i.now (region_of_memory thread.now.memory)) }
    ensures { let r = region_of_memory thread.now.memory in let s = state_with thread.now.regs thread.now.memory in
        Replies E.taken E.faults log.old log.new i.now r s
        (reply_of (cursor_of i.now cursor) s (listed (askable i.now r) (cursor_of i.now cursor) s (chain_of i.now r s))) result }
{
    match write_walk(i, &thread.regs, &thread.memory, log) {
        Ok(()) => Ok(After::Goes(cursor)),
        Err(error) => match error {
            WalkError::Torn(torn) => Ok(After::Tears(torn)),
            WalkError::Failed => Err(Failed),
        },
    }
}

/// Writes where the cursor stands now.
fn put_at<E: Sink>(log: &mut E, a: &Activation, i: &Image) -> Result<(), Failed>
    requires { IsIn i.now a.now }
    ensures { WritesAll E.taken E.faults log.old log.new (at_text (element_of i.now a.now)) result }
{
    let site = site_at(i, a.site);
    let procedure = procedure_of(a, i);
    write_parts(
        log,
        &[
            Part::Text(b"at "),
            Part::Text(procedure.name.as_bytes()),
            Part::Text(b" site "),
            Part::Number(u64::from(site.number)),
            Part::Text(b"\n"),
        ],
    )
}

/// Writes a descriptor.
fn put_descriptor<E: Sink>(log: &mut E, value: u64) -> Result<(), Failed>
    ensures { WritesAll E.taken E.faults log.old log.new (descriptor_line value) result }
{
    write_parts(
        log,
        &[Part::Text(b"desc "), Part::Number(value), Part::Text(b"\n")],
    )
}

/// Writes the value of a variable.
fn put_variable<E: Sink>(log: &mut E, n: u32, variable: &Var) -> Result<(), Failed>
    ensures { WritesAll E.taken E.faults log.old log.new (variable_text n variable.now) result }
{
    match *variable {
        Var::Dead => write_parts(
            log,
            &[
                Part::Text(b"var "),
                Part::Number(u64::from(n)),
                Part::Text(b" dead\n"),
            ],
        ),
        Var::Live { value, .. } => write_parts(
            log,
            &[
                Part::Text(b"var "),
                Part::Number(u64::from(n)),
                Part::Text(b" "),
                Part::Number(value),
                Part::Text(b"\n"),
            ],
        ),
    }
}

/// Writes by which rule a command was refused.
fn put_refused<E: Sink>(log: &mut E, rule: Rule) -> Result<(), Failed>
    ensures { WritesAll E.taken E.faults log.old log.new (refused_line rule) result }
{
    write_parts(
        log,
        &[
            Part::Text(b"refused "),
            Part::Number(u64::from(rule.number())),
            Part::Text(b"\n"),
        ],
    )
}
