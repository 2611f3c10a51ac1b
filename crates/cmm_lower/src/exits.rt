//! The continuations that annotations name.

ghost use Rattle.std.specs.Prelude.{◌≡◌, ◌++◌, map, IfOk, OnOk};
ghost use Rattle.std.specs.List.{All};
ghost use Rattle.cmm_static_semantics.specs.Calls as calls;
ghost use Rattle.cmm_lower.specs.Fitting.{FlowsFit, IsContinuation};
ghost use Rattle.cmm_lower.specs.inside.Exits.{names_by};
ghost use Rattle.cmm_elaboration.specs.Sites as meaning;
ghost use Rattle.cmm_proc_scope.specs.Bodies.{scope_of_body};

use cmm_ast::{Flow, FlowForm, Ident};
use cmm_items::Items;
use cmm_lower_parts::continuation_number;
use cmm_proc_scope::BodyNames;
use cmm_typing::Names;
use std::alloc::{AllocError, Global};

/// The ways of a call that annotations speak of.
#[derive(Clone, Copy)]
pub(crate) enum Exits {
    Cuts,
    Unwinds,
    Returns,
}

/// The continuations to which the activation may be cut.
fn cut_names(flow: &Flow) -> &[Ident]
    ensures { result.now ≡ meaning.cut_names flow.now }
{
    match &flow.form {
        FlowForm::CutsTo(names) => names.as_slice(),
        FlowForm::UnwindsTo(_) => &[],
        FlowForm::ReturnsTo(_) => &[],
        FlowForm::Aborts => &[],
        FlowForm::NeverReturns => &[],
    }
}

/// The continuations of unwind exits.
fn unwind_names(flow: &Flow) -> &[Ident]
    ensures { result.now ≡ meaning.unwind_names flow.now }
{
    match &flow.form {
        FlowForm::CutsTo(_) => &[],
        FlowForm::UnwindsTo(names) => names.as_slice(),
        FlowForm::ReturnsTo(_) => &[],
        FlowForm::Aborts => &[],
        FlowForm::NeverReturns => &[],
    }
}

/// The continuations of alternate exits.
fn return_names(flow: &Flow) -> &[Ident]
    ensures { result.now ≡ calls.return_names flow.now }
{
    match &flow.form {
        FlowForm::CutsTo(_) => &[],
        FlowForm::UnwindsTo(_) => &[],
        FlowForm::ReturnsTo(names) => names.as_slice(),
        FlowForm::Aborts => &[],
        FlowForm::NeverReturns => &[],
    }
}

/// What an annotation names, if it speaks of these ways.
fn names_by(exits: Exits, flow: &Flow) -> &[Ident]
    ensures { result.now ≡ names_by exits flow.now }
{
    match exits {
        Exits::Cuts => cut_names(flow),
        Exits::Unwinds => unwind_names(flow),
        Exits::Returns => return_names(flow),
    }
}

/// Adds the numbers of continuations of the procedure.
fn add_numbers<'a, N: Names>(
    names: &BodyNames<'a, N>,
    continuations: &[Ident],
    to: &mut Items<u32>,
) -> Result<(), AllocError>
    ensures { OnOk result (All (IsContinuation (scope_of_body N.senses names.now)) continuations.now →
        to.new ≡ to.old ++ map (meaning.continuation_of (scope_of_body N.senses names.now)) continuations.now) }
{
    for continuation in continuations {
        to.push(continuation_number(names, continuation))?;
    }
    Ok(())
}

/// The numbers of the continuations that annotations name for these ways, where they name continuations of the procedure alone. Fails only for
/// want of memory.
pub(crate) fn continuations_by<'a, N: Names>(
    alloc: Global,
    names: &BodyNames<'a, N>,
    exits: Exits,
    flows: &[Flow],
) -> Result<Items<u32>, AllocError>
    ensures { FlowsFit (scope_of_body N.senses names.now) flows.now →
        IfOk result (λ numbers. numbers ≡ meaning.continuations_by (scope_of_body N.senses names.now) (names_by exits) flows.now) }
{
    let mut numbers = Items::new(alloc);
    for flow in flows {
        add_numbers(names, names_by(exits, flow), &mut numbers)?;
    }
    Ok(numbers)
}
