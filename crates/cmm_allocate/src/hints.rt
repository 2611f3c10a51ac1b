//! Which temporary registers suit locals, by the values that are passed: advice to the colouring, on which no clause depends.
//!
//! A local that takes a value suits the register in which it comes, and one that is passed that in which it goes: then nothing has to move. Both sides of a
//! copy suit one register. A local that suits several gets the one that is found first.

ghost use Rattle.std.specs.Prelude.{◌≡◌, ◌+◌, ◌<◌, ◌^◌, IfSome, slice_index_or};
ghost use Rattle.cmm_live.specs.Locals.{local_count};
ghost use Rattle.cmm_allocate.specs.Allocated.{temporaries};

use crate::colouring::TEMPORARIES;
use cmm_abi::registers::FIRST_VALUE;
use cmm_abi::values::IN_REGISTERS;
use cmm_colour::Hint;
use cmm_graph::{Argument, Destination, Graph, Local, NodeKind, Operand, Rvalue, Variable};
use cmm_live::number_of;
use cmm_program::Target;
use std::alloc::{AllocError, Global};

/// The colour of the register in which the value with this index travels, if locals get that register.
fn colour_of_value(index: usize) -> Option<u32>
    ensures { IfSome result (λ colour. slice_index_or temporaries colour 0 ≡ FIRST_VALUE + index) }
{
    if index >= IN_REGISTERS as usize {
        return None;
    }
    let register = FIRST_VALUE + index as u8;
    let colour = TEMPORARIES.iter().position(|it| *it == register)?;
    Some(colour as u32)
}

/// Lets a local suit a colour, if there is one and none suits it yet.
fn suit(g: &Graph, local: Local, colour: Option<u32>, hints: &mut Vec<Hint>)
    requires { local_count g.now < 2 ^ 32 }
{
    if let Some(number) = number_of(g, local) {
        if let Some(hint) = hints.get_mut(number as usize) {
            hint.preferred = hint.preferred.or(colour);
        }
    }
}

/// The colour that suits a local, if one does.
fn suited(g: &Graph, local: Local, hints: &[Hint]) -> Option<u32>
    requires { local_count g.now < 2 ^ 32 }
{
    let number = number_of(g, local)?;
    hints.get(number as usize)?.preferred
}

/// Lets formals suit the registers in which their values come.
fn suit_formals(g: &Graph, formals: &[Variable], hints: &mut Vec<Hint>)
    requires { local_count g.now < 2 ^ 32 }
{
    for (index, formal) in formals.iter().enumerate() {
        suit(g, Local::Variable(*formal), colour_of_value(index), hints);
    }
}

/// Lets variables suit the registers in which the values come that they take.
fn suit_targets(g: &Graph, to: &[Target], hints: &mut Vec<Hint>)
    requires { local_count g.now < 2 ^ 32 }
{
    for (index, target) in to.iter().enumerate() {
        if let Target::Variable(number, _) = *target {
            let local = Local::Variable(Variable { number });
            suit(g, local, colour_of_value(index), hints);
        }
    }
}

/// Lets the local that is passed as the value with this index, if it is one, suit the register in which that goes.
fn suit_value(g: &Graph, index: usize, value: Operand, hints: &mut Vec<Hint>)
    requires { local_count g.now < 2 ^ 32 }
{
    if let Operand::Local(local) = value {
        suit(g, local, colour_of_value(index), hints);
    }
}

/// Lets locals that are passed suit the registers in which they go.
fn suit_arguments(g: &Graph, arguments: &[Argument], hints: &mut Vec<Hint>)
    requires { local_count g.now < 2 ^ 32 }
{
    for (index, argument) in arguments.iter().enumerate() {
        suit_value(g, index, argument.value, hints);
    }
}

/// Lets locals that are passed to the client suit the registers in which they go.
fn suit_values(g: &Graph, values: &[Operand], hints: &mut Vec<Hint>)
    requires { local_count g.now < 2 ^ 32 }
{
    for (index, value) in values.iter().enumerate() {
        suit_value(g, index, *value, hints);
    }
}

/// Lets the locals suit registers whose values a node takes or passes.
fn suit_passed(g: &Graph, kind: &NodeKind, hints: &mut Vec<Hint>)
    requires { local_count g.now < 2 ^ 32 }
{
    match kind {
        NodeKind::Entry { formals, .. } => suit_formals(g, formals.as_slice(), hints),
        NodeKind::CopyIn { to, .. } => suit_targets(g, to.as_slice(), hints),
        NodeKind::Call { arguments, .. }
        | NodeKind::Jump { arguments, .. }
        | NodeKind::Cut { arguments, .. } => suit_arguments(g, arguments.as_slice(), hints),
        NodeKind::Return { results, .. } => suit_arguments(g, results.as_slice(), hints),
        NodeKind::Yield { values, .. } => suit_values(g, values.as_slice(), hints),
        _ => {}
    }
}

/// The local that an assignment gives a value, if it is one.
fn assigned(to: Destination) -> Option<Local> {
    match to {
        Destination::Target(Target::Variable(number, _)) => {
            Some(Local::Variable(Variable { number }))
        }
        Destination::Target(Target::Register(..)) => None,
        Destination::Temporary(temporary) => Some(Local::Temporary(temporary)),
    }
}

/// Lets the two sides of a copy suit what suits the other.
fn suit_copied(g: &Graph, kind: &NodeKind, hints: &mut Vec<Hint>)
    requires { local_count g.now < 2 ^ 32 }
{
    if let NodeKind::Assign { to, value, .. } = kind {
        if let Rvalue::Copy(Operand::Local(from)) = *value {
            if let Some(to) = assigned(*to) {
                suit(g, to, suited(g, from, hints), hints);
                suit(g, from, suited(g, to, hints), hints);
            }
        }
    }
}

/// For each local of a graph, by its number, the colour of a temporary register that suits it, if one does. An error is want of memory.
pub(crate) fn hints(alloc: Global, g: &Graph) -> Result<Vec<Hint>, AllocError>
    requires { local_count g.now < 2 ^ 32 }
{
    let none = Hint {
        uses: 0,
        preferred: None,
    };
    let mut hints = vec![in alloc; none; (g.variables + g.temporaries) as usize]?;
    for node in g.nodes.as_slice() {
        suit_passed(g, &node.kind, &mut hints);
    }
    for node in g.nodes.as_slice() {
        suit_copied(g, &node.kind, &mut hints);
    }
    Ok(hints)
}
