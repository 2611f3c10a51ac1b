//! Commands that change a stopped program, or let it go on.
ghost use Rattle.std.specs.Prelude.{◌≡◌, ◌≤◌, length, IfSome};
ghost use Rattle.cmm_script.specs.declared.script.Command.TheVariants.{Cut, Poke, Return, Set, Unwind};
ghost use Rattle.cmm_program.specs.Asking.{Cursor as CursorOver};
ghost use Rattle.cmm_program.specs.Commands.{asked};
ghost use Rattle.cmm_image_machine.specs.Frames.{Element};
ghost use Rattle.cmm_image_machine.specs.Machine.{askable};
ghost use Rattle.cmm_walk.specs.Activations.{Fits};
ghost use Rattle.cmm_client.specs.Stops.{cursor_of, map_of, region_of, state_of};
ghost use Rattle.cmm_client.specs.inside.Replies.{Keeps, ReplyFits, meant};

use crate::cursor::{Cursor, activation_at};
use crate::given::{number_given, numbers_given};
use crate::reply::Reply;
use crate::stopped::Stopped;
use cmm_image::Image;
use cmm_resume::{Refusal, poke, resume_cut, resume_return, resume_unwind, set_local_var};
use cmm_script::Value;

/// `set`: a value for a variable of the activation at the cursor.
pub(crate) fn set_variable(
    yielded: &[u64],
    cursor: Cursor,
    i: &Image,
    stopped: &mut Stopped,
    n: u32,
    value: Value,
) -> Result<Reply, Refusal>
    requires { IfSome cursor.activation (Fits i.now (region_of stopped.old)) }
    ensures asked { asked (askable i.now (region_of stopped.old)) yielded.now (cursor_of i.now cursor) (state_of stopped.old) (Set n value)
        ≡ meant i.now (region_of stopped.old) (cursor_of i.now cursor) (state_of stopped.new) result }
    ensures map { map_of stopped.new ≡ map_of stopped.old }
    ensures region { region_of stopped.new ≡ region_of stopped.old }
    ensures fits { ReplyFits i.now (region_of stopped.old) result }
    ensures keeps { Keeps (state_of stopped.old) (state_of stopped.new) result }
{
    let value = number_given(yielded, value)?;
    let a = activation_at(cursor)?;
    let thread = stopped.at_cursor_mut();
    set_local_var(&a, i, &mut thread.regs, &mut thread.memory, n, value).and(Ok(Reply::Changed))
}

/// `poke`: a value of 8 bytes behind a data label, in data of the image's own length.
pub(crate) fn poke_label(
    yielded: &[u64],
    i: &Image,
    stopped: &mut Stopped,
    label: &[u8],
    offset: u64,
    value: Value,
) -> Result<Reply, Refusal>
    requires { (map_of stopped.old).data_length ≡ length i.now.initial }
    ensures asked { (cursor : CursorOver Element) → asked (askable i.now (region_of stopped.old)) yielded.now cursor (state_of stopped.old) (Poke label.now offset value)
        ≡ meant i.now (region_of stopped.old) cursor (state_of stopped.new) result }
    ensures map { map_of stopped.new ≡ map_of stopped.old }
    ensures region { region_of stopped.new ≡ region_of stopped.old }
    ensures fits { ReplyFits i.now (region_of stopped.old) result }
    ensures keeps { Keeps (state_of stopped.old) (state_of stopped.new) result }
{
    let value = number_given(yielded, value)?;
    let thread = stopped.at_cursor_mut();
    poke(i, &mut thread.memory, label, offset, value).and(Ok(Reply::Changed))
}

/// `return`: the youngest activation of the thread that runs goes on at an exit, as a return takes it.
pub(crate) fn return_to(
    yielded: &[u64],
    i: &Image,
    stopped: &mut Stopped,
    exit: u32,
    values: &[Value],
) -> Result<Reply, Refusal>
    requires { length values.now ≤ 64 }
    ensures asked { (cursor : CursorOver Element) → asked (askable i.now (region_of stopped.old)) yielded.now cursor (state_of stopped.old) (Return exit values.now)
        ≡ meant i.now (region_of stopped.old) cursor (state_of stopped.new) result }
    ensures map { map_of stopped.new ≡ map_of stopped.old }
    ensures region { region_of stopped.new ≡ region_of stopped.old }
    ensures fits { ReplyFits i.now (region_of stopped.old) result }
    ensures keeps { Keeps (state_of stopped.old) (state_of stopped.new) result }
{
    let numbers = numbers_given(yielded, values)?;
    let thread = stopped.running_mut();
    let numbers = &numbers[..values.len()];
    resume_return(i, &mut thread.regs, &mut thread.memory, exit, numbers).and(Ok(Reply::Resumed))
}

/// `unwind`: the thread that runs goes on in the activation at the cursor, at an unwind exit.
pub(crate) fn unwind_to(
    yielded: &[u64],
    cursor: Cursor,
    i: &Image,
    stopped: &mut Stopped,
    exit: u32,
    values: &[Value],
) -> Result<Reply, Refusal>
    requires fits { IfSome cursor.activation (Fits i.now (region_of stopped.old)) }
    requires few { length values.now ≤ 64 }
    ensures asked { asked (askable i.now (region_of stopped.old)) yielded.now (cursor_of i.now cursor) (state_of stopped.old) (Unwind exit values.now)
        ≡ meant i.now (region_of stopped.old) (cursor_of i.now cursor) (state_of stopped.new) result }
    ensures map { map_of stopped.new ≡ map_of stopped.old }
    ensures region { region_of stopped.new ≡ region_of stopped.old }
    ensures fits { ReplyFits i.now (region_of stopped.old) result }
    ensures keeps { Keeps (state_of stopped.old) (state_of stopped.new) result }
{
    let numbers = numbers_given(yielded, values)?;
    let a = activation_at(cursor)?;
    let thread = stopped.running_mut();
    let numbers = &numbers[..values.len()];
    let resumed = resume_unwind(&a, i, &mut thread.regs, &mut thread.memory, exit, numbers);
    resumed.and(Ok(Reply::Resumed))
}

/// `cut`: control of the thread that runs goes to a continuation.
pub(crate) fn cut_to(
    yielded: &[u64],
    i: &Image,
    stopped: &mut Stopped,
    to: Value,
    values: &[Value],
) -> Result<Reply, Refusal>
    requires { length values.now ≤ 64 }
    ensures asked { (cursor : CursorOver Element) → asked (askable i.now (region_of stopped.old)) yielded.now cursor (state_of stopped.old) (Cut to values.now)
        ≡ meant i.now (region_of stopped.old) cursor (state_of stopped.new) result }
    ensures map { map_of stopped.new ≡ map_of stopped.old }
    ensures region { region_of stopped.new ≡ region_of stopped.old }
    ensures fits { ReplyFits i.now (region_of stopped.old) result }
    ensures keeps { Keeps (state_of stopped.old) (state_of stopped.new) result }
{
    let to = number_given(yielded, to)?;
    let numbers = numbers_given(yielded, values)?;
    let thread = stopped.running_mut();
    let numbers = &numbers[..values.len()];
    resume_cut(i, &mut thread.regs, &mut thread.memory, to, numbers).and(Ok(Reply::Resumed))
}
