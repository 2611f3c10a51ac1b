//! Commands that look at the activations of a stopped program, those of the thread at the cursor.
ghost use Rattle.std.specs.Prelude.{◌≡◌, [], IfSome};
ghost use Rattle.rv_memory.specs.Regions.{region_of as region_of_memory};
ghost use Rattle.rv_memory.specs.States.{state_of as state_with};
ghost use Rattle.rv_table.specs.Machine.{State};
ghost use Rattle.rv_table.specs.declared.registers.Regs.{Regs as RegsOf};
ghost use Rattle.cmm_abi.specs.Regions.{Region};
ghost use Rattle.cmm_script.specs.declared.script.Command.TheVariants.{Desc, Next, Seek, Var as VarOf, Youngest};
ghost use Rattle.cmm_program.specs.Asking.{Cursor as CursorOver};
ghost use Rattle.cmm_program.specs.Commands.{asked, seeking};
ghost use Rattle.cmm_image_machine.specs.Frames.{Element};
ghost use Rattle.cmm_image_machine.specs.Machine.{askable};
ghost use Rattle.cmm_walk.specs.Activations.{Fits, IsIn, element_of};
ghost use Rattle.cmm_client.specs.Stops.{cursor_of, region_of, state_of};
ghost use Rattle.cmm_client.specs.inside.Replies.{ReplyFits, meant, standing};

use crate::cursor::{Cursor, activation_at};
use crate::given::number_given;
use crate::reply::Reply;
use crate::stopped::Stopped;
use cmm_image::Image;
use cmm_resume::Refusal;
use cmm_rules::Rule;
use cmm_script::Value;
use cmm_walk::{Activation, NoVar, Torn, descriptor, local_var, next_activation, youngest};
use rv_memory::Memory;

/// The cursor goes to what was looked for, if there is one.
fn stand(found: Result<Option<Activation>, Torn>) -> Result<Reply, Refusal>
    ensures { result ≡ standing found }
{
    match found {
        Ok(Some(a)) => Ok(Reply::Stands(a)),
        Ok(None) => Err(Refusal::ByRule(Rule::NoActivation)),
        Err(torn) => Err(Refusal::Torn(torn)),
    }
}

/// `youngest`: the cursor to the youngest activation.
pub(crate) fn to_youngest(i: &Image, stopped: &Stopped) -> Result<Reply, Refusal>
    ensures asked { (cursor : CursorOver Element) → asked (askable i.now (region_of stopped.now)) [] cursor (state_of stopped.now) Youngest
        ≡ meant i.now (region_of stopped.now) cursor (state_of stopped.now) result }
    ensures fits { ReplyFits i.now (region_of stopped.now) result }
{
    let thread = stopped.at_cursor();
    stand(youngest(i, &thread.regs, &thread.memory))
}

/// `next`: the cursor to the next older activation.
pub(crate) fn to_next(cursor: Cursor, i: &Image, stopped: &Stopped) -> Result<Reply, Refusal>
    requires { IfSome cursor.activation (Fits i.now (region_of stopped.now)) }
    ensures asked { asked (askable i.now (region_of stopped.now)) [] (cursor_of i.now cursor) (state_of stopped.now) Next
        ≡ meant i.now (region_of stopped.now) (cursor_of i.now cursor) (state_of stopped.now) result }
    ensures fits { ReplyFits i.now (region_of stopped.now) result }
{
    let a = activation_at(cursor)?;
    stand(next_activation(&a, i, &stopped.at_cursor().memory))
}

/// `seek`: the cursor to the first activation, from the one at the cursor towards older ones, to which the span of a token gives a descriptor.
pub(crate) fn to_sought(
    yielded: &[u64],
    cursor: Cursor,
    i: &Image,
    stopped: &Stopped,
    token: u64,
    value: Value,
) -> Result<Reply, Refusal>
    requires { IfSome cursor.activation (Fits i.now (region_of stopped.now)) }
    ensures asked { asked (askable i.now (region_of stopped.now)) yielded.now (cursor_of i.now cursor) (state_of stopped.now) (Seek token value)
        ≡ meant i.now (region_of stopped.now) (cursor_of i.now cursor) (state_of stopped.now) result }
    ensures fits { ReplyFits i.now (region_of stopped.now) result }
{
    let value = number_given(yielded, value)?;
    let from = activation_at(cursor)?;
    sought(&from, i, &stopped.at_cursor().memory, token, value)
}

/// The cursor goes to the first activation, from this one towards older ones, with this descriptor of a token.
fn sought(
    from: &Activation,
    i: &Image,
    m: &Memory,
    token: u64,
    value: u64,
) -> Result<Reply, Refusal>
    requires { Fits i.now (region_of_memory m.now) from.now }
    ensures sought { (r : RegsOf) (cursor : CursorOver Element) → seeking (askable i.now (region_of_memory m.now)) (state_with r m.now) (element_of i.now from.now) token value
        ≡ meant i.now (region_of_memory m.now) cursor (state_with r m.now) result }
    ensures fits { ReplyFits i.now (region_of_memory m.now) result }
{
    let mut next = Some(*from);
    while let Some(a) = next {
        if descriptor(&a, i, token) == value {
            return Ok(Reply::Stands(a));
        }
        next = match next_activation(&a, i, m) {
            Ok(found) => found,
            Err(torn) => return Err(Refusal::Torn(torn)),
        };
    }
    Err(Refusal::ByRule(Rule::NoActivation))
}

/// `desc`: the descriptor that the span of a token gives the activation at the cursor.
pub(crate) fn describe(cursor: Cursor, i: &Image, token: u64) -> Result<Reply, Refusal>
    requires { IfSome cursor.activation (IsIn i.now) }
    ensures asked { (r : Region) (s : State) → asked (askable i.now r) [] (cursor_of i.now cursor) s (Desc token)
        ≡ meant i.now r (cursor_of i.now cursor) s result }
    ensures fits { (r : Region) → ReplyFits i.now r result }
{
    let a = activation_at(cursor)?;
    Ok(Reply::Descriptor(descriptor(&a, i, token)))
}

/// `var`: a variable of the activation at the cursor.
pub(crate) fn show_variable(
    cursor: Cursor,
    i: &Image,
    stopped: &Stopped,
    n: u32,
) -> Result<Reply, Refusal>
    requires { IfSome cursor.activation (Fits i.now (region_of stopped.now)) }
    ensures asked { asked (askable i.now (region_of stopped.now)) [] (cursor_of i.now cursor) (state_of stopped.now) (VarOf n)
        ≡ meant i.now (region_of stopped.now) (cursor_of i.now cursor) (state_of stopped.now) result }
    ensures fits { ReplyFits i.now (region_of stopped.now) result }
{
    let a = activation_at(cursor)?;
    let thread = stopped.at_cursor();
    match local_var(&a, i, &thread.regs, &thread.memory, n) {
        Ok(variable) => Ok(Reply::Variable(n, variable)),
        Err(NoVar) => Err(Refusal::ByRule(Rule::NoVariable)),
    }
}
