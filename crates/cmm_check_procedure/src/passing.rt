//! What is passed, and what takes it.
#![tactic(auto, using(cmm_static_semantics::proofs::Shared::first_of_append))]

ghost use Rattle.std.specs.Prelude.{◌≡◌, flat_map};
ghost use Rattle.cmm_static_semantics.specs.Calls as calls;
ghost use Rattle.cmm_static_semantics.specs.Scopes.{senses};
ghost use Rattle.cmm_static_semantics.specs.Spots.{first_of};
ghost use Rattle.cmm_proc_scope.specs.Bodies.{scope_of_body};
ghost use Rattle.cmm_typing.specs.Fitting.{AreWords};

use crate::naming::{note_parameter, note_target};
use crate::past_limit::note_past_limit;
use cmm_ast::{Actual, Kinded};
use cmm_proc_scope::BodyNames;
use cmm_rules::Rule;
use cmm_static_semantics::Spot;
use cmm_typing::{Names, note_bits};

/// How many values a list of those passed or taken may have.
const VALUES_LIMIT: usize = 64;

/// Notes the faults of values that are passed: those of each, and rule 33 where there are too many.
pub fn note_actuals<'a, N: Names>(
    names: &BodyNames<'a, N>,
    actuals: &[Actual],
    best: &mut Option<Spot>,
)
    requires { AreWords (senses (scope_of_body N.senses names.now)) }
    ensures { best.new ≡ first_of best.old (calls.actuals_spots (scope_of_body N.senses names.now) actuals.now) }
{
    note_past_limit(Rule::TooManyValues, VALUES_LIMIT, actuals, best);
    for actual in actuals {
        note_bits(names, None, &actual.value, best);
    }
}

/// Notes the faults of names that take what a call returns: rules 21, 22 and 33.
pub fn note_results<'a, N: Names>(
    names: &BodyNames<'a, N>,
    results: &[Kinded],
    best: &mut Option<Spot>,
)
    ensures { best.new ≡ first_of best.old (calls.results_spots (scope_of_body N.senses names.now) results.now) }
{
    note_past_limit(Rule::TooManyValues, VALUES_LIMIT, results, best);
    for taken in results {
        note_target(names, &taken.name, best);
    }
}

/// Notes the faults of the parameters of a continuation: rules 30 and 33.
pub fn note_parameters<'a, N: Names>(
    names: &BodyNames<'a, N>,
    parameters: &[Kinded],
    best: &mut Option<Spot>,
)
    ensures { best.new ≡ first_of best.old (calls.parameters_spots (scope_of_body N.senses names.now) parameters.now) }
{
    note_past_limit(Rule::TooManyValues, VALUES_LIMIT, parameters, best);
    for parameter in parameters {
        note_parameter(names, parameter, best);
    }
}
