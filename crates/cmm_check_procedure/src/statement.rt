//! The forms of statements.
#![tactic(auto, using(cmm_static_semantics::proofs::Shared::first_of_append))]

ghost use Rattle.std.specs.Prelude.{◌≡◌, OnOk};
ghost use Rattle.cmm_static_semantics.specs.Scopes.{senses};
ghost use Rattle.cmm_static_semantics.specs.Spots.{first_of};
ghost use Rattle.cmm_static_semantics.specs.Statements as rules;
ghost use Rattle.cmm_proc_scope.specs.Bodies.{scope_of_body};
ghost use Rattle.cmm_check_procedure.specs.inside.Forms.{call_spots, checked_site_spots, cut_spots, foreign_spots, jump_spots, own_spots, passed_spots, returned_spots, span_spots};
ghost use Rattle.cmm_check_procedure.specs.inside.Parted.{arms_spots, form_spots, value_width};
ghost use Rattle.cmm_typing.specs.Fitting.{AreWords};

use crate::assignment::note_assignment;
use crate::callee::{note_callee, note_foreign_callee};
use crate::checked::note_checked;
use crate::flows::{note_flows, note_site_flows};
use crate::foreign::is_foreign;
use crate::naming::note_goto;
use crate::passing::{note_actuals, note_parameters, note_results};
use crate::returning::note_exit;
use crate::switch::note_switch;
use cmm_ast::{Actual, Callee, Exit, Expr, Flow, Ident, Kinded, Primary, Stmt, StmtForm, Text};
use cmm_items::Items;
use cmm_proc_scope::BodyNames;
use cmm_rules::Rule;
use cmm_static_semantics::{Spot, unless};
use cmm_typing::{Names, note_bits, note_constant, note_number_of_primary, note_test, wanted};
use cmm_words::Width;
use std::alloc::{AllocError, Global};

/// Notes the faults of the key and the value of a span, which are constants.
fn note_span<'a, N: Names>(
    names: &BodyNames<'a, N>,
    key: &Primary,
    value: &Expr,
    best: &mut Option<Spot>,
)
    requires { AreWords (senses (scope_of_body N.senses names.now)) }
    ensures { best.new ≡ first_of best.old (span_spots (scope_of_body N.senses names.now) key.now value.now) }
{
    note_number_of_primary(names, key, best);
    note_constant(names, value, best);
}

/// Notes the faults of a call within C--.
fn note_own_call<'a, N: Names>(
    names: &BodyNames<'a, N>,
    results: &Items<Kinded>,
    callee: &Callee,
    actuals: &Items<Actual>,
    flows: &Items<Flow>,
    best: &mut Option<Spot>,
)
    requires { AreWords (senses (scope_of_body N.senses names.now)) }
    ensures { best.new ≡ first_of best.old (own_spots (scope_of_body N.senses names.now) results.now callee.now actuals.now flows.now) }
{
    note_results(names, results.as_slice(), best);
    note_callee(names, true, callee, best);
    note_actuals(names, actuals.as_slice(), best);
    note_site_flows(names, flows.as_slice(), best);
}

/// Notes the faults of a call of the host: rule 38 where it calls none of its procedures.
fn note_foreign_call<'a, N: Names>(
    names: &BodyNames<'a, N>,
    convention: &Text,
    results: &Items<Kinded>,
    callee: &Callee,
    actuals: &Items<Actual>,
    flows: &Items<Flow>,
    best: &mut Option<Spot>,
)
    requires { AreWords (senses (scope_of_body N.senses names.now)) }
    ensures { best.new ≡ first_of best.old (foreign_spots (scope_of_body N.senses names.now) convention.now results.now callee.now actuals.now flows.now) }
{
    let is_host_call = is_foreign(
        names,
        convention,
        results.as_slice(),
        callee,
        actuals.as_slice(),
        flows.as_slice(),
    );
    note_results(names, results.as_slice(), best);
    note_foreign_callee(names, callee, best);
    note_actuals(names, actuals.as_slice(), best);
    note_flows(names, flows.as_slice(), best);
    unless(best, is_host_call, Rule::BadHostCall, callee.token);
}

/// Notes the faults of a call: of the host, where a convention is said.
fn note_call<'a, N: Names>(
    names: &BodyNames<'a, N>,
    convention: &Option<Text>,
    results: &Items<Kinded>,
    callee: &Callee,
    actuals: &Items<Actual>,
    flows: &Items<Flow>,
    best: &mut Option<Spot>,
)
    requires { AreWords (senses (scope_of_body N.senses names.now)) }
    ensures { best.new ≡ first_of best.old (call_spots (scope_of_body N.senses names.now) convention.now results.now callee.now actuals.now flows.now) }
{
    match convention {
        None => note_own_call(names, results, callee, actuals, flows, best),
        Some(convention) => {
            note_foreign_call(names, convention, results, callee, actuals, flows, best);
        }
    }
}

/// Notes the faults of a jump, whose callee is no procedure of the host.
fn note_jump<'a, N: Names>(
    names: &BodyNames<'a, N>,
    callee: &Callee,
    actuals: &Items<Actual>,
    best: &mut Option<Spot>,
)
    requires { AreWords (senses (scope_of_body N.senses names.now)) }
    ensures { best.new ≡ first_of best.old (jump_spots (scope_of_body N.senses names.now) callee.now actuals.now) }
{
    note_callee(names, false, callee, best);
    note_actuals(names, actuals.as_slice(), best);
}

/// Notes the faults of a cut, with its annotations.
fn note_cut<'a, N: Names>(
    names: &BodyNames<'a, N>,
    callee: &Callee,
    actuals: &Items<Actual>,
    flows: &Items<Flow>,
    best: &mut Option<Spot>,
)
    requires { AreWords (senses (scope_of_body N.senses names.now)) }
    ensures { best.new ≡ first_of best.old (cut_spots (scope_of_body N.senses names.now) callee.now actuals.now flows.now) }
{
    note_jump(names, callee, actuals, best);
    note_flows(names, flows.as_slice(), best);
}

/// Notes the faults of what is returned, where it is in brackets.
fn note_passed<'a, N: Names>(
    names: &BodyNames<'a, N>,
    values: &Option<Items<Actual>>,
    best: &mut Option<Spot>,
)
    requires { AreWords (senses (scope_of_body N.senses names.now)) }
    ensures { best.new ≡ first_of best.old (passed_spots (scope_of_body N.senses names.now) values.now) }
{
    match values {
        Some(values) => note_actuals(names, values.as_slice(), best),
        None => {}
    }
}

/// The width of the value of a switch, if that is not broken.
fn value_width<'a, N: Names>(names: &BodyNames<'a, N>, value: &Expr) -> Option<Width>
    requires { AreWords (senses (scope_of_body N.senses names.now)) }
    ensures { result ≡ value_width (scope_of_body N.senses names.now) value.now }
{
    match wanted(names, None, value) {
        Ok(bits) => Some(bits.width),
        Err(_) => None,
    }
}

/// Notes the faults of the arms of a switch. Other statements have none.
fn note_arms<'a, N: Names>(
    alloc: Global,
    names: &BodyNames<'a, N>,
    form: &StmtForm,
    best: &mut Option<Spot>,
) -> Result<(), AllocError>
    requires { AreWords (senses (scope_of_body N.senses names.now)) }
    ensures { OnOk result (best.new ≡ first_of best.old (arms_spots (scope_of_body N.senses names.now) form.now)) }
{
    match form {
        StmtForm::Switch { range, value, arms } => {
            let width = value_width(names, value);
            note_switch(alloc, names, width, range, arms.as_slice(), best)
        }
        StmtForm::Empty => Ok(()),
        StmtForm::If { .. } => Ok(()),
        StmtForm::Span { .. } => Ok(()),
        StmtForm::Assign { .. } => Ok(()),
        StmtForm::Checked { .. } => Ok(()),
        StmtForm::Call { .. } => Ok(()),
        StmtForm::Jump { .. } => Ok(()),
        StmtForm::Return { .. } => Ok(()),
        StmtForm::Label(_) => Ok(()),
        StmtForm::Continuation { .. } => Ok(()),
        StmtForm::Goto(_) => Ok(()),
        StmtForm::Cut { .. } => Ok(()),
    }
}

/// Notes the faults of a return: those of its exit and of what is returned.
fn note_return<'a, N: Names>(
    names: &BodyNames<'a, N>,
    exit: &Option<Exit>,
    values: &Option<Items<Actual>>,
    best: &mut Option<Spot>,
)
    requires { AreWords (senses (scope_of_body N.senses names.now)) }
    ensures { best.new ≡ first_of best.old (returned_spots (scope_of_body N.senses names.now) exit.now values.now) }
{
    note_exit(names, exit, best);
    note_passed(names, values, best);
}

/// Notes the faults of a checked operator with its annotations.
fn note_checked_site<'a, N: Names>(
    names: &BodyNames<'a, N>,
    place: &Ident,
    operator: &Ident,
    left: &Expr,
    right: &Expr,
    flows: &Items<Flow>,
    best: &mut Option<Spot>,
)
    requires { AreWords (senses (scope_of_body N.senses names.now)) }
    ensures { best.new ≡ first_of best.old (checked_site_spots (scope_of_body N.senses names.now) place.now operator.now left.now right.now flows.now) }
{
    note_checked(names, place, operator, left, right, best);
    note_site_flows(names, flows.as_slice(), best);
}

/// Notes the faults of a form of statement, which begins at a token, the arms of a switch left out.
fn note_form<'a, N: Names>(
    names: &BodyNames<'a, N>,
    token: u32,
    form: &StmtForm,
    best: &mut Option<Spot>,
)
    requires { AreWords (senses (scope_of_body N.senses names.now)) }
    ensures { best.new ≡ first_of best.old (form_spots (scope_of_body N.senses names.now) token form.now) }
{
    match form {
        StmtForm::Empty => {}
        StmtForm::If { condition, .. } => note_test(names, condition, best),
        StmtForm::Switch { value, .. } => note_bits(names, None, value, best),
        StmtForm::Span { key, value, .. } => note_span(names, key, value, best),
        StmtForm::Assign { to, values } => note_assignment(names, token, to, values, best),
        StmtForm::Checked {
            result,
            operator,
            left,
            right,
            flows,
        } => note_checked_site(names, result, operator, left, right, flows, best),
        StmtForm::Call {
            results,
            convention,
            callee,
            actuals,
            flows,
        } => note_call(names, convention, results, callee, actuals, flows, best),
        StmtForm::Jump { callee, actuals } => note_jump(names, callee, actuals, best),
        StmtForm::Return { exit, values } => note_return(names, exit, values, best),
        StmtForm::Label(_) => {}
        StmtForm::Continuation { parameters, .. } => {
            note_parameters(names, parameters.as_slice(), best);
        }
        StmtForm::Goto(name) => note_goto(names, name, best),
        StmtForm::Cut {
            callee,
            actuals,
            flows,
        } => note_cut(names, callee, actuals, flows, best),
    }
}

/// Notes the faults of a statement, the blocks inside it left out. Fails only for want of memory.
pub fn note_statement<'a, N: Names>(
    alloc: Global,
    names: &BodyNames<'a, N>,
    stmt: &Stmt,
    best: &mut Option<Spot>,
) -> Result<(), AllocError>
    requires { AreWords (senses (scope_of_body N.senses names.now)) }
    ensures { OnOk result (best.new ≡ first_of best.old (rules.stmt_spots (scope_of_body N.senses names.now) stmt.now.token stmt.now.form)) }
{
    note_form(names, stmt.token, &stmt.form, best);
    note_arms(alloc, names, &stmt.form, best)
}
