//! Annotations of call sites and cuts.
#![tactic(auto, using(cmm_static_semantics::proofs::Shared::first_of_append))]

ghost use Rattle.std.specs.Prelude.{◌≡◌, flat_map, slice_get, option_copied};
ghost use Rattle.cmm_static_semantics.specs.Calls as calls;
ghost use Rattle.cmm_static_semantics.specs.Expressions.{past_limit};
ghost use Rattle.cmm_static_semantics.specs.Spots.{first_of};
ghost use Rattle.cmm_rules.specs.declared.rule.Rule.TheVariants.{Limit};
ghost use Rattle.cmm_proc_scope.specs.Bodies.{scope_of_body};

use crate::naming::note_exit;
use cmm_ast::{Flow, FlowForm, Ident};
use cmm_proc_scope::BodyNames;
use cmm_rules::Rule;
use cmm_static_semantics::{Spot, unless};
use cmm_typing::Names;

/// How many alternate exits a call site may have.
const EXITS_LIMIT: usize = 64;

fn flow_names(flow: &Flow) -> &[Ident]
    ensures { result.now ≡ calls.flow_names flow.now }
{
    match &flow.form {
        FlowForm::CutsTo(names) => names.as_slice(),
        FlowForm::UnwindsTo(names) => names.as_slice(),
        FlowForm::ReturnsTo(names) => names.as_slice(),
        FlowForm::Aborts => &[],
        FlowForm::NeverReturns => &[],
    }
}

/// The alternate exits.
fn return_names(flow: &Flow) -> &[Ident]
    ensures { result.now ≡ calls.return_names flow.now }
{
    match &flow.form {
        FlowForm::CutsTo(_) => &[],
        FlowForm::UnwindsTo(_) => &[],
        FlowForm::ReturnsTo(names) => names.as_slice(),
        FlowForm::Aborts => &[],
        FlowForm::NeverReturns => &[],
    }
}

fn note_exits<'a, N: Names>(names: &BodyNames<'a, N>, exits: &[Ident], best: &mut Option<Spot>)
    ensures { best.new ≡ first_of best.old (flat_map (calls.exit_spots (scope_of_body N.senses names.now)) exits.now) }
{
    for exit in exits {
        note_exit(names, exit, best);
    }
}

/// Notes annotations to what is no continuation of the procedure: rule 29.
pub fn note_flows<'a, N: Names>(names: &BodyNames<'a, N>, flows: &[Flow], best: &mut Option<Spot>)
    ensures { best.new ≡ first_of best.old (calls.flows_spots (scope_of_body N.senses names.now) flows.now) }
{
    for flow in flows {
        note_exits(names, flow_names(flow), best);
    }
}

/// The alternate exit at an index among those of some annotations, if there is one.
fn exit_at(flows: &[Flow], index: usize) -> Option<&Ident>
    ensures { option_copied result ≡ slice_get (flat_map calls.return_names flows.now) index }
{
    let mut before = index;
    let mut left = flows;
    while let [flow, more @ ..] = left {
        let exits = return_names(flow);
        if before < exits.len() {
            return Some(&exits[before]);
        }
        before -= exits.len();
        left = more;
    }
    None
}

/// Notes that there are too many alternate exits: rule 40.
fn note_many_exits(flows: &[Flow], best: &mut Option<Spot>)
    ensures { best.new ≡ first_of best.old (past_limit Limit 64 (λ i. i.token) (flat_map calls.return_names flows.now)) }
{
    match exit_at(flows, EXITS_LIMIT) {
        Some(exit) => unless(best, false, Rule::Limit, exit.token),
        None => {}
    }
}

/// Notes the faults of the annotations of a call site: rules 29 and 40.
pub fn note_site_flows<'a, N: Names>(
    names: &BodyNames<'a, N>,
    flows: &[Flow],
    best: &mut Option<Spot>,
)
    ensures { best.new ≡ first_of best.old (calls.site_flows_spots (scope_of_body N.senses names.now) flows.now) }
{
    note_flows(names, flows, best);
    note_many_exits(flows, best);
}
