//! The limits on a procedure.
#![tactic(auto, using(cmm_static_semantics::proofs::Shared::first_of_append))]

ghost use Rattle.std.specs.Prelude.{◌≡◌, ◌+◌, ◌-◌, nat_le, map};
ghost use Rattle.cmm_static_semantics.specs.Expressions.{past_limit};
ghost use Rattle.cmm_static_semantics.specs.Limits as limits;
ghost use Rattle.cmm_static_semantics.specs.Scopes.{senses};
ghost use Rattle.cmm_static_semantics.specs.Senses.{Senses};
ghost use Rattle.cmm_static_semantics.specs.Spots.{first_of, unless};
ghost use Rattle.cmm_static_semantics.specs.Statements.{scope_of};
ghost use Rattle.cmm_rules.specs.declared.rule.Rule.TheVariants.{Limit};
ghost use Rattle.cmm_proc_scope.specs.Bodies.{scope_of_body};
ghost use Rattle.cmm_typing.specs.Fitting.{AreWords};
ghost use Rattle.cmm_program.specs.Limits.{procedure_token_limit, variable_limit};

use crate::stackdata::note_rooms;
use cmm_ast::{Ident, Proc};
use cmm_proc_scope::{BodyNames, ProcNames};
use cmm_rules::Rule;
use cmm_static_semantics::{Spot, unless};
use cmm_typing::Names;

/// How many tokens a procedure may have, from its name to its closing brace.
const TOKENS_LIMIT: u32 = 131_072;

/// How many variables a procedure may have, its formals included.
const VARIABLES_LIMIT: usize = 1024;

/// Notes that a procedure has too many tokens: rule 40.
fn note_tokens(proc: &Proc, best: &mut Option<Spot>)
    ensures { best.new ≡ first_of best.old (unless (nat_le (proc.now.past - proc.now.name.token) procedure_token_limit) Limit (proc.now.name.token + procedure_token_limit)) }
{
    let first = proc.name.token;
    let tokens = proc.past.saturating_sub(first);
    if tokens > TOKENS_LIMIT {
        unless(best, false, Rule::Limit, first + TOKENS_LIMIT);
    }
}

/// Notes the first variable past the limit: rule 40.
fn note_variables(names: &[&Ident], best: &mut Option<Spot>)
    ensures { best.new ≡ first_of best.old (past_limit Limit variable_limit (λ i. i.token) (map (λ v. v.now) names.now)) }
{
    match names.get(VARIABLES_LIMIT) {
        Some(name) => unless(best, false, Rule::Limit, name.token),
        None => {}
    }
}

/// Notes what a procedure has past a limit, rule 40: tokens, variables and stackdata. Its names mean what `names` tells.
pub fn note_limits<'a, N: Names>(
    own: &ProcNames<'_>,
    names: &BodyNames<'a, N>,
    best: &mut Option<Spot>,
)
    requires { AreWords (senses (scope_of_body N.senses names.now)) }
    ensures { (outer : Senses) → scope_of_body N.senses names.now ≡ scope_of outer own.now →
        best.new ≡ first_of best.old (limits.proc_limits outer own.now) }
{
    note_tokens(own.tree(), best);
    note_variables(own.variables(), best);
    note_rooms(names, own.rooms(), best);
}
