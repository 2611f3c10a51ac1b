//! One command.
//!
//! A command is a row of each of: `Command` and the reader's table of `cmm_script`, its meaning in `Commands.asked` of `cmm_program`, and `asked` below,
//! where its function has the law of that meaning as its clause `asked`. Which thread it acts on is that of the accessor of `Stopped` by which its
//! function takes it:
//!
//! | command | thread | function |
//! |---|---|---|
//! | `list` | `at_cursor` | `saying::list` |
//! | `youngest` | `at_cursor` | `looking::to_youngest` |
//! | `next` | `at_cursor` | `looking::to_next` |
//! | `desc` | none: it reads the image's tables alone | `looking::describe` |
//! | `seek` | `at_cursor` | `looking::to_sought` |
//! | `var` | `at_cursor` | `looking::show_variable` |
//! | `set` | `at_cursor` | `changing::set_variable` |
//! | `poke` | `at_cursor` | `changing::poke_label` |
//! | `return` | `running` | `changing::return_to` |
//! | `unwind` | `running` | `changing::unwind_to` |
//! | `cut` | `running` | `changing::cut_to` |
//! | `stop` | none: the run is over | `yielding::answer` |
ghost use Rattle.std.specs.Prelude.{◌≡◌, length, IfSome};
ghost use Rattle.cmm_script.specs.Limits.{GivesFew};
ghost use Rattle.cmm_program.specs.Commands.{asked as asked_in, reply};
ghost use Rattle.cmm_image_machine.specs.Machine.{askable};
ghost use Rattle.cmm_walk.specs.Activations.{Fits};
ghost use Rattle.cmm_client.specs.Stops.{cursor_of, map_of, region_of, state_of};
ghost use Rattle.cmm_client.specs.inside.Replies.{Keeps, Replies, ReplyFits, StaysWhere, meant};

use crate::changing::{cut_to, poke_label, return_to, set_variable, unwind_to};
use crate::cursor::Cursor;
use crate::looking::{describe, show_variable, to_next, to_sought, to_youngest};
use crate::reply::{After, Reply};
use crate::saying::say;
use crate::stopped::Stopped;
use cmm_image::Image;
use cmm_outside::{Failed, Sink};
use cmm_resume::Refusal;
use cmm_script::Command;

/// Does a command, with the cursor here, and says in the log what came of it.
pub(crate) fn command<E: Sink>(
    i: &Image,
    stopped: &mut Stopped,
    yielded: &[u64],
    cursor: Cursor,
    command: &Command,
    log: &mut E,
) -> Result<After, Failed>
    requires fits { IfSome cursor.activation (Fits i.now (region_of stopped.old)) }
    requires few { GivesFew command.now }
    requires initial { (map_of stopped.old).data_length ≡ length i.now.initial }
    ensures replies { Replies E.taken E.faults log.old log.new i.now (region_of stopped.old) (state_of stopped.new)
        (reply (askable i.now (region_of stopped.old)) yielded.now (cursor_of i.now cursor) (state_of stopped.old) command.now) result }
    ensures stays { StaysWhere (state_of stopped.old) (state_of stopped.new) result }
    ensures map { map_of stopped.new ≡ map_of stopped.old }
    ensures region { region_of stopped.new ≡ region_of stopped.old }
{
    let asked = asked(i, stopped, yielded, cursor, command);
    say(asked, i, stopped, cursor, log)
}

/// What comes of a command.
fn asked(
    i: &Image,
    stopped: &mut Stopped,
    yielded: &[u64],
    cursor: Cursor,
    command: &Command,
) -> Result<Reply, Refusal>
    requires fits { IfSome cursor.activation (Fits i.now (region_of stopped.old)) }
    requires few { GivesFew command.now }
    requires initial { (map_of stopped.old).data_length ≡ length i.now.initial }
    ensures asked { asked_in (askable i.now (region_of stopped.old)) yielded.now (cursor_of i.now cursor) (state_of stopped.old) command.now
        ≡ meant i.now (region_of stopped.old) (cursor_of i.now cursor) (state_of stopped.new) result }
    ensures fits { ReplyFits i.now (region_of stopped.old) result }
    ensures keeps { Keeps (state_of stopped.old) (state_of stopped.new) result }
    ensures map { map_of stopped.new ≡ map_of stopped.old }
    ensures region { region_of stopped.new ≡ region_of stopped.old }
{
    match command {
        Command::List => Ok(Reply::Walk),
        Command::Youngest => to_youngest(i, stopped),
        Command::Next => to_next(cursor, i, stopped),
        Command::Desc(token) => describe(cursor, i, *token),
        Command::Seek(token, value) => to_sought(yielded, cursor, i, stopped, *token, *value),
        Command::Var(n) => show_variable(cursor, i, stopped, *n),
        Command::Set(n, value) => set_variable(yielded, cursor, i, stopped, *n, *value),
        Command::Poke(label, at, value) => poke_label(
            yielded,
            i,
            stopped,
            label.as_slice(),
            *at,
            *value,
        ),
        Command::Return(exit, values) => return_to(yielded, i, stopped, *exit, values.as_slice()),
        Command::Unwind(exit, values) => unwind_to(
            yielded,
            cursor,
            i,
            stopped,
            *exit,
            values.as_slice(),
        ),
        Command::Cut(to, values) => cut_to(yielded, i, stopped, *to, values.as_slice()),
        Command::Stop => Ok(Reply::Stopped),
    }
}
