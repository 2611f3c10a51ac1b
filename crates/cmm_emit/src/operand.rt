//! What code has for operands of nodes.

ghost use Rattle.std.specs.Prelude.{◌≡◌, IsTrue, IfOk};
ghost use Rattle.std.specs.List.{list_all};
ghost use Rattle.cmm_graph.specs.declared.operand.Local.TheVariants as local;
ghost use Rattle.cmm_emit.specs.Naming.{argument_operands, code_destination, code_operand, code_operands, constant_operand, has_argument, has_constant, has_destination, has_landing, has_local, has_operand, has_target, landing_labels, place, target_destination, target_destinations, variable_places};

use crate::context::{Context, Targets, named_at};
use cmm_chain::Location;
use cmm_graph::{Argument, ContinuationId, Destination, Local, Operand, Variable};
use cmm_items::Items;
use cmm_program::Target;
use cmm_select::{Destination as CodeDestination, Operand as CodeOperand, Source};
use cmm_words::Constant;
use rv_asm::Label;
use std::alloc::{AllocError, Global};

/// The place of a local.
pub(crate) fn place_of(context: &Context, local: Local) -> Location
    requires { IsTrue (has_local context.now local) }
    ensures { result ≡ place context.now local }
{
    let number = match local {
        Local::Variable(variable) => variable.number as usize,
        Local::Temporary(temporary) => context.variables as usize + temporary.number as usize,
    };
    context.places.as_slice()[number]
}

/// A number, or a label with what is added to it.
fn constant_operand(targets: &Targets, constant: Constant) -> CodeOperand
    requires { IsTrue (has_constant targets.now constant) }
    ensures { result ≡ constant_operand targets.now constant }
{
    match constant {
        Constant::Number(number, _) => CodeOperand::Held(Source::Number(number)),
        Constant::Code { proc, plus } => CodeOperand::Symbol {
            of: named_at(targets.procedures.as_slice(), proc),
            plus,
        },
        Constant::Address { label, plus } => CodeOperand::Symbol {
            of: named_at(targets.data_labels.as_slice(), label),
            plus,
        },
    }
}

/// What code has for an operand of a node.
pub(crate) fn code_operand(context: &Context, targets: &Targets, operand: Operand) -> CodeOperand
    requires { IsTrue (has_operand context.now targets.now operand) }
    ensures { result ≡ code_operand context.now targets.now operand }
{
    match operand {
        Operand::Constant(constant) => constant_operand(targets, constant),
        Operand::Local(local) => CodeOperand::Held(Source::Place(place_of(context, local))),
        Operand::Stackdata(label) => CodeOperand::Held(Source::Address(
            context.frame.stack.as_slice()[label.number as usize],
        )),
        Operand::Continuation(continuation) => CodeOperand::Held(Source::Address(
            context.frame.pairs.as_slice()[continuation.number as usize],
        )),
    }
}

/// Where code puts what a variable or a global register takes.
pub(crate) fn target_destination(
    context: &Context,
    targets: &Targets,
    target: Target,
) -> CodeDestination
    requires { IsTrue (has_target context.now targets.now target) }
    ensures { result ≡ target_destination context.now targets.now target }
{
    match target {
        Target::Variable(number, _) => {
            CodeDestination::Place(place_of(context, Local::Variable(Variable { number })))
        }
        Target::Register(number, _) => {
            CodeDestination::Register(named_at(targets.registers.as_slice(), number))
        }
    }
}

/// Where code puts what an assignment assigns.
pub(crate) fn code_destination(
    context: &Context,
    targets: &Targets,
    destination: Destination,
) -> CodeDestination
    requires { IsTrue (has_destination context.now targets.now destination) }
    ensures { result ≡ code_destination context.now targets.now destination }
{
    match destination {
        Destination::Target(target) => target_destination(context, targets, target),
        Destination::Temporary(temporary) => {
            CodeDestination::Place(place_of(context, Local::Temporary(temporary)))
        }
    }
}

/// The places of variables.
pub(crate) fn variable_places(
    alloc: Global,
    context: &Context,
    variables: &[Variable],
) -> Result<Items<Location>, AllocError>
    requires { IsTrue (list_all (λ v. has_local context.now (local.Variable v)) variables.now) }
    ensures { IfOk result (λ places. places ≡ variable_places context.now variables.now) }
{
    let mut places = Items::new(alloc);
    for variable in variables {
        places.push(place_of(context, Local::Variable(*variable)))?;
    }
    Ok(places)
}

/// What code has for values that are passed.
pub(crate) fn argument_operands(
    alloc: Global,
    context: &Context,
    targets: &Targets,
    arguments: &[Argument],
) -> Result<Items<CodeOperand>, AllocError>
    requires { IsTrue (list_all (has_argument context.now targets.now) arguments.now) }
    ensures { IfOk result (λ operands. operands ≡ argument_operands context.now targets.now arguments.now) }
{
    let mut operands = Items::new(alloc);
    for argument in arguments {
        operands.push(code_operand(context, targets, argument.value))?;
    }
    Ok(operands)
}

/// What code has for several operands.
pub(crate) fn code_operands(
    alloc: Global,
    context: &Context,
    targets: &Targets,
    values: &[Operand],
) -> Result<Items<CodeOperand>, AllocError>
    requires { IsTrue (list_all (has_operand context.now targets.now) values.now) }
    ensures { IfOk result (λ operands. operands ≡ code_operands context.now targets.now values.now) }
{
    let mut operands = Items::new(alloc);
    for value in values {
        operands.push(code_operand(context, targets, *value))?;
    }
    Ok(operands)
}

/// Where code puts what several targets take.
pub(crate) fn target_destinations(
    alloc: Global,
    context: &Context,
    targets: &Targets,
    to: &[Target],
) -> Result<Items<CodeDestination>, AllocError>
    requires { IsTrue (list_all (has_target context.now targets.now) to.now) }
    ensures { IfOk result (λ destinations. destinations ≡ target_destinations context.now targets.now to.now) }
{
    let mut destinations = Items::new(alloc);
    for target in to {
        destinations.push(target_destination(context, targets, *target))?;
    }
    Ok(destinations)
}

/// The labels of the landings of continuations.
pub(crate) fn landing_labels(
    alloc: Global,
    context: &Context,
    continuations: &[ContinuationId],
) -> Result<Items<Label>, AllocError>
    requires { IsTrue (list_all (has_landing context.now) continuations.now) }
    ensures { IfOk result (λ labels. labels ≡ landing_labels context.now continuations.now) }
{
    let mut labels = Items::new(alloc);
    for continuation in continuations {
        labels.push(context.landings.as_slice()[continuation.number as usize])?;
    }
    Ok(labels)
}
