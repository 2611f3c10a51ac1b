//! The statements of a body, with numbers for names, and its call sites, in one walk in textual order.
//!
//! Blocks nest as deep as the rules allow, so what a level holds on the stack is kept small: functions that make a statement which holds no block are never inlined.

ghost use Rattle.std.specs.Prelude.{◌≡◌, ◌<◌, ◌^◌, length, Option, IfOk, OnOk};
ghost use Rattle.cmm_static_semantics.specs.Scopes.{senses};
ghost use Rattle.cmm_lower.specs.inside.Making.{ArmsMade, FormMade, OtherwiseMade, PartMade, PartsMade, StatementMade};
ghost use Rattle.cmm_proc_scope.specs.Bodies.{scope_of_body};
ghost use Rattle.cmm_typing.specs.Fitting.{AreWords};

use crate::forms::{any_call_form, assign_form, checked_form, cut_form, jump_form, return_form};
use crate::sites::add_site;
use crate::spans::{SpanValue, with_span};
use crate::switches::{case_of, value_width};
use crate::tokens::own_tokens;
use cmm_ast::{Arm as ArmTree, Otherwise, Part, Stmt, StmtForm};
use cmm_items::Items;
use cmm_lower_parts::{condition_of, continuation_number, span_value, value_of};
use cmm_proc_scope::BodyNames;
use cmm_program::{Arm, Form, Site, Statement};
use cmm_typing::Names;
use cmm_words::Width;
use std::alloc::{AllocError, Global};

/// The number of the next call site.
fn next_site(sites: &Items<Site>) -> u32
    ensures { length sites.now < 2 ^ 32 → result ≡ length sites.now }
{
    u32::try_from(sites.len()).unwrap_or(u32::MAX)
}

/// Statements, in the order of their trees.
#[cycle(bodies)]
pub(crate) fn statements_of<'a, N: Names>(
    alloc: Global,
    names: &BodyNames<'a, N>,
    parts: &[Part],
    spans: &[SpanValue],
    sites: &mut Items<Site>,
) -> Result<Items<Statement>, AllocError>
    requires { AreWords (senses (scope_of_body N.senses names.now)) }
    ensures { IfOk result (λ made. PartsMade (scope_of_body N.senses names.now) spans.now sites.old sites.new parts.now made) }
{
    let mut made = Items::new(alloc);
    for part in parts {
        add_part(alloc, names, part, spans, sites, &mut made)?;
    }
    Ok(made)
}

/// Adds the statement that a part of a block is, if it is one.
#[cycle(bodies)]
fn add_part<'a, N: Names>(
    alloc: Global,
    names: &BodyNames<'a, N>,
    part: &Part,
    spans: &[SpanValue],
    sites: &mut Items<Site>,
    to: &mut Items<Statement>,
) -> Result<(), AllocError>
    requires { AreWords (senses (scope_of_body N.senses names.now)) }
    ensures { OnOk result (PartMade (scope_of_body N.senses names.now) spans.now sites.old sites.new part.now to.old to.new) }
{
    match part {
        Part::Local(_) => Ok(()),
        Part::Stmt(stmt) => {
            let made = statement_of(alloc, names, stmt, spans, sites)?;
            to.push(made)?;
            Ok(())
        }
    }
}

/// A statement, whose site, if it is one, is added before those inside it.
#[cycle(bodies)]
fn statement_of<'a, N: Names>(
    alloc: Global,
    names: &BodyNames<'a, N>,
    stmt: &Stmt,
    spans: &[SpanValue],
    sites: &mut Items<Site>,
) -> Result<Statement, AllocError>
    requires { AreWords (senses (scope_of_body N.senses names.now)) }
    ensures { IfOk result (λ made. StatementMade (scope_of_body N.senses names.now) spans.now sites.old sites.new stmt.now made) }
{
    let tokens = own_tokens(stmt);
    let site = next_site(sites);
    add_site(alloc, names, &stmt.form, spans, sites)?;
    let form = form_of(alloc, names, site, &stmt.form, spans, sites)?;
    Ok(Statement { tokens, form })
}

/// What a statement is that has this number, if it is a call site.
#[cycle(bodies)]
fn form_of<'a, N: Names>(
    alloc: Global,
    names: &BodyNames<'a, N>,
    site: u32,
    form: &StmtForm,
    spans: &[SpanValue],
    sites: &mut Items<Site>,
) -> Result<Form, AllocError>
    requires { AreWords (senses (scope_of_body N.senses names.now)) }
    ensures { IfOk result (λ made. FormMade (scope_of_body N.senses names.now) spans.now sites.old sites.new site form.now made) }
{
    match form {
        StmtForm::If {
            condition,
            then,
            otherwise,
        } => {
            let condition = condition_of(alloc, names, condition)?;
            let then = statements_of(alloc, names, then.parts.as_slice(), spans, sites)?;
            let otherwise = otherwise_of(alloc, names, otherwise, spans, sites)?;
            Ok(Form::If {
                condition,
                then,
                otherwise,
            })
        }
        StmtForm::Switch { value, arms, .. } => {
            let width = value_width(names, value);
            let value = value_of(alloc, names, value)?;
            let arms = arms_of(alloc, names, width, arms.as_slice(), spans, sites)?;
            Ok(Form::Switch { value, arms })
        }
        StmtForm::Span { key, value, body } => {
            let inside = with_span(alloc, span_value(names, key, value), spans)?;
            let body = statements_of(
                alloc,
                names,
                body.parts.as_slice(),
                inside.as_slice(),
                sites,
            )?;
            Ok(Form::Span(body))
        }
        StmtForm::Assign { to, values } => {
            assign_form(alloc, names, to.as_slice(), values.as_slice())
        }
        StmtForm::Checked {
            operator,
            left,
            right,
            ..
        } => checked_form(alloc, names, site, operator, left, right),
        StmtForm::Call {
            results,
            convention,
            callee,
            actuals,
            ..
        } => any_call_form(
            alloc,
            names,
            site,
            results.as_slice(),
            convention,
            callee,
            actuals.as_slice(),
        ),
        StmtForm::Jump { callee, actuals } => jump_form(alloc, names, callee, actuals.as_slice()),
        StmtForm::Return { exit, values } => return_form(alloc, names, exit, values),
        StmtForm::Label(name) => Ok(Form::Label(names.label_number(&name.name))),
        StmtForm::Continuation { name, .. } => {
            Ok(Form::Continuation(continuation_number(names, name)))
        }
        StmtForm::Goto(name) => Ok(Form::Goto(names.label_number(&name.name))),
        StmtForm::Cut {
            callee,
            actuals,
            flows,
        } => cut_form(alloc, names, callee, actuals.as_slice(), flows.as_slice()),
        StmtForm::Empty => Ok(Form::Empty),
    }
}

/// What stands after the block of an `if`.
#[cycle(bodies)]
fn otherwise_of<'a, N: Names>(
    alloc: Global,
    names: &BodyNames<'a, N>,
    otherwise: &Otherwise,
    spans: &[SpanValue],
    sites: &mut Items<Site>,
) -> Result<Items<Statement>, AllocError>
    requires { AreWords (senses (scope_of_body N.senses names.now)) }
    ensures { IfOk result (λ made. OtherwiseMade (scope_of_body N.senses names.now) spans.now sites.old sites.new otherwise.now made) }
{
    match otherwise {
        Otherwise::Nothing => Ok(Items::new(alloc)),
        Otherwise::Else(block) => {
            statements_of(alloc, names, block.parts.as_slice(), spans, sites)
        }
        Otherwise::ElseIf(stmt) => {
            let inner = statement_of(alloc, names, stmt.get(), spans, sites)?;
            let mut made = Items::new(alloc);
            made.push(inner)?;
            Ok(made)
        }
    }
}

/// The arms of a switch on values of a width.
#[cycle(bodies)]
fn arms_of<'a, N: Names>(
    alloc: Global,
    names: &BodyNames<'a, N>,
    width: Option<Width>,
    arms: &[ArmTree],
    spans: &[SpanValue],
    sites: &mut Items<Site>,
) -> Result<Items<Arm>, AllocError>
    requires { AreWords (senses (scope_of_body N.senses names.now)) }
    ensures { IfOk result (λ made. ArmsMade (scope_of_body N.senses names.now) spans.now sites.old sites.new width arms.now made) }
{
    let mut made = Items::new(alloc);
    for arm in arms {
        let case = case_of(alloc, names, width, &arm.case)?;
        let body = statements_of(alloc, names, arm.body.parts.as_slice(), spans, sites)?;
        made.push(Arm { case, body })?;
    }
    Ok(made)
}
