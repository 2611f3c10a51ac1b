//! Statements without blocks (C-- Language Specification 2.0, statements).

ghost use Rattle.std.specs.Prelude.{◌≡◌, ◌<◌, ◌^◌, List, map, Option, Some, IfOk};
ghost use Rattle.std.specs.List.{All};
ghost use Rattle.cmm_static_semantics.specs.Calls.{foreign_callee};
ghost use Rattle.cmm_static_semantics.specs.Limits.{number_or_zero};
ghost use Rattle.cmm_static_semantics.specs.Scopes.{senses};
ghost use Rattle.cmm_static_semantics.specs.Statements.{passed};
ghost use Rattle.cmm_static_semantics.specs.Typing.{of_primary};
ghost use Rattle.cmm_ast.specs.declared.statement.Flow.{Flow as FlowTree};
ghost use Rattle.cmm_lower.specs.Fitting.{ExitFits, FlowsFit, FormFits};
ghost use Rattle.cmm_lower.specs.inside.Exits.{names_by};
ghost use Rattle.cmm_elaboration.specs.Bodies as meaning;
ghost use Rattle.cmm_elaboration.specs.Resolving as resolving;
ghost use Rattle.cmm_elaboration.specs.Sites as sites;
ghost use Rattle.cmm_lower_parts.specs.Fitting.{ActualsFit, CalleeFits, PlaceFits};
ghost use Rattle.cmm_proc_scope.specs.Bodies.{scope_of_body};
ghost use Rattle.cmm_typing.specs.Fitting.{AreWords};
ghost use Rattle.cmm_typing.specs.Resolved.{AlignmentsFit};

use crate::exits::{Exits, continuations_by};
use crate::sites::is_yield;
use crate::switches::value_width;
use cmm_ast::{
    Actual, Callee, Exit, Expr, Flow, Ident, Kinded, Lvalue as LvalueTree, Primary, StmtForm, Text,
};
use cmm_check_procedure::foreign_callee;
use cmm_items::Items;
use cmm_lower_parts::{callee_of, number_of_primary_at, place_of, target_of, value_of, values_of};
use cmm_proc_scope::BodyNames;
use cmm_program::{Expression, Form, Lvalue};
use cmm_static_semantics::{Host, Operator};
use cmm_typing::{Names, checked_named};
use cmm_words::{Constant, Op2, Width};
use std::alloc::{AllocError, Global};

fn places_of<'a, N: Names>(
    alloc: Global,
    names: &BodyNames<'a, N>,
    to: &[LvalueTree],
) -> Result<Items<Lvalue>, AllocError>
    requires { AreWords (senses (scope_of_body N.senses names.now)) }
    ensures { All PlaceFits to.now → IfOk result (λ places. places ≡ map (resolving.place_of (senses (scope_of_body N.senses names.now))) to.now) }
{
    let mut places = Items::new(alloc);
    for place in to {
        let made = place_of(alloc, names, place)?;
        places.push(made)?;
    }
    Ok(places)
}

fn sides_of<'a, N: Names>(
    alloc: Global,
    names: &BodyNames<'a, N>,
    values: &[Expr],
) -> Result<Items<Expression>, AllocError>
    requires { AreWords (senses (scope_of_body N.senses names.now)) }
    ensures { All AlignmentsFit values.now → IfOk result (λ sides. sides ≡ map (resolving.value_of (senses (scope_of_body N.senses names.now))) values.now) }
{
    let mut sides = Items::new(alloc);
    for value in values {
        let made = value_of(alloc, names, value)?;
        sides.push(made)?;
    }
    Ok(sides)
}

/// An assignment.
#[inline(never)]
pub(crate) fn assign_form<'a, N: Names>(
    alloc: Global,
    names: &BodyNames<'a, N>,
    to: &[LvalueTree],
    values: &[Expr],
) -> Result<Form, AllocError>
    requires { AreWords (senses (scope_of_body N.senses names.now)) }
    ensures { All PlaceFits to.now → All AlignmentsFit values.now → IfOk result (λ form. form ≡
        Form.Assign (map (resolving.place_of (senses (scope_of_body N.senses names.now))) to.now)
        (map (resolving.value_of (senses (scope_of_body N.senses names.now))) values.now)) }
{
    let to = places_of(alloc, names, to)?;
    let values = sides_of(alloc, names, values)?;
    Ok(Form::Assign { to, values })
}

/// The division that a checked operator is.
fn division(operator: Option<Operator>) -> Op2
    ensures { result ≡ meaning.division operator }
{
    match operator {
        Some(Operator::Binary(operator)) => operator,
        _ => Op2::Divu,
    }
}

/// A checked operator at a call site.
#[inline(never)]
pub(crate) fn checked_form<'a, N: Names>(
    alloc: Global,
    names: &BodyNames<'a, N>,
    site: u32,
    operator: &Ident,
    left: &Expr,
    right: &Expr,
) -> Result<Form, AllocError>
    requires { AreWords (senses (scope_of_body N.senses names.now)) }
    ensures { AlignmentsFit left.now → AlignmentsFit right.now →
        IfOk result (λ form. form ≡ meaning.checked_form (scope_of_body N.senses names.now) site operator.now left.now right.now) }
{
    let operator = division(checked_named(&operator.name));
    let width = value_width(names, left).unwrap_or(Width::W64);
    let left = value_of(alloc, names, left)?;
    let right = value_of(alloc, names, right)?;
    Ok(Form::Checked {
        site,
        operator,
        width,
        left,
        right,
    })
}

/// A call within C--, at a call site: of `yield`, or of another procedure.
fn call_form<'a, N: Names>(
    alloc: Global,
    names: &BodyNames<'a, N>,
    site: u32,
    callee: &Callee,
    actuals: &[Actual],
) -> Result<Form, AllocError>
    requires { AreWords (senses (scope_of_body N.senses names.now)) }
    ensures { CalleeFits callee.now.form → ActualsFit actuals.now → IfOk result (λ form. form ≡
        meaning.call_form (scope_of_body N.senses names.now) site callee.now (resolving.values_of (senses (scope_of_body N.senses names.now)) actuals.now)) }
{
    let values = values_of(alloc, names, actuals)?;
    if is_yield(names, callee) {
        return Ok(Form::Yield { site, values });
    }
    let callee = callee_of(alloc, names, callee)?;
    Ok(Form::Call {
        site,
        callee,
        actuals: values,
    })
}

/// The foreign call that writes the first of some values.
fn put_byte(mut values: Items<Expression>) -> Form
    ensures { result ≡ meaning.put_byte values }
{
    values.truncate(1);
    match values.pop() {
        Some(value) => Form::PutByte(value),
        None => Form::PutByte(Expression::Known(Constant::Number(0, Width::W64))),
    }
}

/// The foreign call that reads a byte into the first of some results.
fn get_byte<'a, N: Names>(names: &BodyNames<'a, N>, results: &[Kinded]) -> Form
    ensures { result ≡ meaning.get_byte (scope_of_body N.senses names.now) results.now }
{
    match results {
        [taken, ..] => Form::GetByte(target_of(names, &taken.name)),
        [] => Form::Empty,
    }
}

/// A call of a procedure of the host.
fn host_form<'a, N: Names>(
    names: &BodyNames<'a, N>,
    host: Option<Host>,
    results: &[Kinded],
    values: Items<Expression>,
) -> Form
    ensures { result ≡ meaning.host_form (scope_of_body N.senses names.now) host results.now values }
{
    match host {
        Some(Host::PutByte) => put_byte(values),
        Some(Host::GetByte) => get_byte(names, results),
        Some(Host::Yield) => Form::Empty,
        None => Form::Empty,
    }
}

/// A foreign call.
fn foreign_form<'a, N: Names>(
    alloc: Global,
    names: &BodyNames<'a, N>,
    results: &[Kinded],
    callee: &Callee,
    actuals: &[Actual],
) -> Result<Form, AllocError>
    requires { AreWords (senses (scope_of_body N.senses names.now)) }
    ensures { ActualsFit actuals.now → IfOk result (λ form. form ≡
        meaning.host_form (scope_of_body N.senses names.now) (foreign_callee (scope_of_body N.senses names.now) callee.now) results.now
        (resolving.values_of (senses (scope_of_body N.senses names.now)) actuals.now)) }
{
    let values = values_of(alloc, names, actuals)?;
    Ok(host_form(names, foreign_callee(names, callee), results, values))
}

/// A call, foreign where a convention is said; else it has this number among the call sites.
#[inline(never)]
pub(crate) fn any_call_form<'a, N: Names>(
    alloc: Global,
    names: &BodyNames<'a, N>,
    site: u32,
    results: &[Kinded],
    convention: &Option<Text>,
    callee: &Callee,
    actuals: &[Actual],
) -> Result<Form, AllocError>
    requires { AreWords (senses (scope_of_body N.senses names.now)) }
    ensures { (flows : List FlowTree) → FormFits (scope_of_body N.senses names.now) (StmtForm.Call results.now convention.now callee.now actuals.now flows) →
        IfOk result (λ form. form ≡ meaning.form_of (scope_of_body N.senses names.now) site (StmtForm.Call results.now convention.now callee.now actuals.now flows)) }
{
    match convention {
        Some(_) => foreign_form(alloc, names, results, callee, actuals),
        None => call_form(alloc, names, site, callee, actuals),
    }
}

/// A jump.
#[inline(never)]
pub(crate) fn jump_form<'a, N: Names>(
    alloc: Global,
    names: &BodyNames<'a, N>,
    callee: &Callee,
    actuals: &[Actual],
) -> Result<Form, AllocError>
    requires { AreWords (senses (scope_of_body N.senses names.now)) }
    ensures { CalleeFits callee.now.form → ActualsFit actuals.now → IfOk result (λ form. form ≡
        Form.Jump (resolving.callee_of (senses (scope_of_body N.senses names.now)) callee.now) (resolving.values_of (senses (scope_of_body N.senses names.now)) actuals.now)) }
{
    let callee = callee_of(alloc, names, callee)?;
    let actuals = values_of(alloc, names, actuals)?;
    Ok(Form::Jump { callee, actuals })
}

/// A number of an exit. What is 2^32 or more is given as 2^32 - 1.
fn exit_number<'a, N: Names>(names: &BodyNames<'a, N>, number: &Primary) -> u32
    requires { AreWords (senses (scope_of_body N.senses names.now)) }
    ensures { number_or_zero (senses (scope_of_body N.senses names.now)) (of_primary number.now) < 2 ^ 32 →
        result ≡ number_or_zero (senses (scope_of_body N.senses names.now)) (of_primary number.now) }
{
    u32::try_from(number_of_primary_at(names, number)).unwrap_or(u32::MAX)
}

/// A return of some values, by the normal exit of a site without alternates where it says no exit.
fn exit_form<'a, N: Names>(
    names: &BodyNames<'a, N>,
    exit: &Option<Exit>,
    values: Items<Expression>,
) -> Form
    requires { AreWords (senses (scope_of_body N.senses names.now)) }
    ensures { ExitFits (scope_of_body N.senses names.now) exit.now → result ≡ meaning.return_form (scope_of_body N.senses names.now) exit.now values }
{
    match exit {
        None => Form::Return {
            exit: 0,
            alternates: 0,
            values,
        },
        Some(exit) => Form::Return {
            exit: exit_number(names, &exit.index),
            alternates: exit_number(names, &exit.count),
            values,
        },
    }
}

/// What is passed, where it is in brackets.
fn passed(values: &Option<Items<Actual>>) -> &[Actual]
    ensures { result.now ≡ passed values.now }
{
    match values {
        Some(values) => values.as_slice(),
        None => &[],
    }
}

/// A return.
#[inline(never)]
pub(crate) fn return_form<'a, N: Names>(
    alloc: Global,
    names: &BodyNames<'a, N>,
    exit: &Option<Exit>,
    values: &Option<Items<Actual>>,
) -> Result<Form, AllocError>
    requires { AreWords (senses (scope_of_body N.senses names.now)) }
    ensures { ExitFits (scope_of_body N.senses names.now) exit.now → ActualsFit (passed values.now) → IfOk result (λ form. form ≡
        meaning.return_form (scope_of_body N.senses names.now) exit.now (resolving.values_of (senses (scope_of_body N.senses names.now)) (passed values.now))) }
{
    let values = values_of(alloc, names, passed(values))?;
    Ok(exit_form(names, exit, values))
}

/// A cut.
#[inline(never)]
pub(crate) fn cut_form<'a, N: Names>(
    alloc: Global,
    names: &BodyNames<'a, N>,
    callee: &Callee,
    actuals: &[Actual],
    flows: &[Flow],
) -> Result<Form, AllocError>
    requires { AreWords (senses (scope_of_body N.senses names.now)) }
    ensures { CalleeFits callee.now.form → ActualsFit actuals.now → FlowsFit (scope_of_body N.senses names.now) flows.now → IfOk result (λ form. form ≡
        Form.Cut (resolving.callee_of (senses (scope_of_body N.senses names.now)) callee.now) (resolving.values_of (senses (scope_of_body N.senses names.now)) actuals.now)
        (sites.continuations_by (scope_of_body N.senses names.now) sites.cut_names flows.now)) }
{
    let to = callee_of(alloc, names, callee)?;
    let values = values_of(alloc, names, actuals)?;
    let own = continuations_by(alloc, names, Exits::Cuts, flows)?;
    Ok(Form::Cut { to, values, own })
}
