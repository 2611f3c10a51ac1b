//! A yield, and the client's answer to it.
ghost use Rattle.std.specs.Prelude.{◌≡◌, [], length, IfOk, IfSome};
ghost use Rattle.std.specs.List.{All};
ghost use Rattle.cmm_outside.specs.Output.{WritesAll};
ghost use Rattle.cmm_script.specs.Limits.{GivesFew, HasFewValues};
ghost use Rattle.cmm_program.specs.Commands.{answer_of};
ghost use Rattle.cmm_image_machine.specs.Machine.{askable};
ghost use Rattle.cmm_walk.specs.Activations.{Fits};
ghost use Rattle.cmm_client.specs.Stops.{cursor_of, map_of, region_of, state_of};
ghost use Rattle.cmm_client.specs.Yields.{IsLeft, at_yield, with_values};

use crate::block::commands_for;
use crate::command::command;
use crate::cursor::Cursor;
use crate::reply::After;
use crate::stopped::Stopped;
use crate::values::{values_of, yield_count};
use cmm_image::Image;
use cmm_outside::{Failed, Sink};
use cmm_report::put_yield;
use cmm_script::{Command, Script};
use cmm_walk::{Torn, youngest};

/// How the client leaves a program.
#[derive(Clone, Copy)]
pub enum Left {
    /// It goes on.
    Running,
    /// The run is stopped.
    Stopped,
    /// The chain of frames breaks here, where the client looked for an activation.
    Torn(Torn),
}

/// Writes the line of a yield, and does what the script says to it. Where the chain of frames breaks at its first point, nothing is written. The
/// error is that a write failed, and then a front of the lines is written.
pub fn answer_yield<E: Sink>(
    i: &Image,
    script: &Script,
    stopped: &mut Stopped,
    log: &mut E,
) -> Result<Left, Failed>
    requires few { HasFewValues script.now }
    requires initial { (map_of stopped.old).data_length ≡ length i.now.initial }
    ensures writes { WritesAll E.taken E.faults log.old log.new (at_yield i.now (region_of stopped.old) script.now (state_of stopped.old)).text result }
    ensures left { IfOk result (λ left. IsLeft (at_yield i.now (region_of stopped.old) script.now (state_of stopped.old)).left left (state_of stopped.new)) }
    ensures map { map_of stopped.new ≡ map_of stopped.old }
    ensures region { region_of stopped.new ≡ region_of stopped.old }
{
    let thread = stopped.running();
    let first = match youngest(i, &thread.regs, &thread.memory) {
        Ok(first) => first,
        Err(torn) => return Ok(Left::Torn(torn)),
    };
    let values = values_of(stopped);
    let count = yield_count(first, i);
    let cursor = Cursor { activation: first };
    answer_values(&values[..count], cursor, i, script, stopped, log)
}

/// Writes the line of a yield of these values, and runs the block of the script that answers them, with the cursor here at first. The error is that a
/// write failed, and then a front of the lines is written.
pub fn answer_values<E: Sink>(
    values: &[u64],
    cursor: Cursor,
    i: &Image,
    script: &Script,
    stopped: &mut Stopped,
    log: &mut E,
) -> Result<Left, Failed>
    requires few { HasFewValues script.now }
    requires fits { IfSome cursor.activation (Fits i.now (region_of stopped.old)) }
    requires initial { (map_of stopped.old).data_length ≡ length i.now.initial }
    ensures writes { WritesAll E.taken E.faults log.old log.new
        (with_values i.now (region_of stopped.old) script.now values.now (cursor_of i.now cursor) (state_of stopped.old)).text result }
    ensures left { IfOk result (λ left. IsLeft
        (with_values i.now (region_of stopped.old) script.now values.now (cursor_of i.now cursor) (state_of stopped.old)).left left (state_of stopped.new)) }
    ensures map { map_of stopped.new ≡ map_of stopped.old }
    ensures region { region_of stopped.new ≡ region_of stopped.old }
{
    put_yield(log, values)?;
    let commands = commands_for(script, values);
    answer(i, stopped, values, cursor, commands, log)
}

/// Does commands, one after the other, until one resumes or stops the program, or comes to a break of the chain. At their end it is stopped.
fn answer<E: Sink>(
    i: &Image,
    stopped: &mut Stopped,
    yielded: &[u64],
    first: Cursor,
    commands: &[Command],
    log: &mut E,
) -> Result<Left, Failed>
    requires fits { IfSome first.activation (Fits i.now (region_of stopped.old)) }
    requires few { All GivesFew commands.now }
    requires initial { (map_of stopped.old).data_length ≡ length i.now.initial }
    ensures writes { WritesAll E.taken E.faults log.old log.new
        (answer_of (askable i.now (region_of stopped.old)) yielded.now [] (cursor_of i.now first) (state_of stopped.old) commands.now).text result }
    ensures left { IfOk result (λ left. IsLeft
        (answer_of (askable i.now (region_of stopped.old)) yielded.now [] (cursor_of i.now first) (state_of stopped.old) commands.now).left left (state_of stopped.new)) }
    ensures map { map_of stopped.new ≡ map_of stopped.old }
    ensures region { region_of stopped.new ≡ region_of stopped.old }
{
    let mut cursor = first;
    for next in commands {
        match command(i, stopped, yielded, cursor, next, log)? {
            After::Goes(to) => cursor = to,
            After::Resumes => return Ok(Left::Running),
            After::Stops => return Ok(Left::Stopped),
            After::Tears(torn) => return Ok(Left::Torn(torn)),
        }
    }
    Ok(Left::Stopped)
}
