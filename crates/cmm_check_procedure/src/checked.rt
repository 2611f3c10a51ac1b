//! Checked operators.
#![tactic(auto, using(cmm_static_semantics::proofs::Shared::first_of_append))]

ghost use Rattle.std.specs.Prelude.{◌≡◌};
ghost use Rattle.cmm_static_semantics.specs.Algebras.{knowns};
ghost use Rattle.cmm_static_semantics.specs.Operators as operators;
ghost use Rattle.cmm_static_semantics.specs.Scopes.{senses};
ghost use Rattle.cmm_static_semantics.specs.Senses.{target_width};
ghost use Rattle.cmm_static_semantics.specs.Spots.{first_of};
ghost use Rattle.cmm_static_semantics.specs.Statements as rules;
ghost use Rattle.cmm_static_semantics.specs.Typing as typing;
ghost use Rattle.cmm_proc_scope.specs.Bodies.{scope_of_body};
ghost use Rattle.cmm_check_procedure.specs.inside.Forms.{unknown_spots};
ghost use Rattle.cmm_typing.specs.Fitting.{AreWords, FitsTyped};

use crate::naming::note_target;
use cmm_ast::{Expr, Ident};
use cmm_operators::faulty;
use cmm_proc_scope::BodyNames;
use cmm_rules::Rule;
use cmm_static_semantics::{Known, Operand, Operands, Operator, Sense, Spot, Typed, unless};
use cmm_typing::{Judged, Names, applied_to_two, checked_named, judge, note_inner, note_judged};
use cmm_words::Width;

/// A checked operator at its operands, if it is one: else rule 26.
fn applied(
    token: u32,
    operator: Option<Operator>,
    left: Operand<Known, ()>,
    right: Operand<Known, ()>,
) -> Judged<Typed<Known, ()>>
    requires left { FitsTyped left.typed }
    requires right { FitsTyped right.typed }
    ensures { result ≡ typing.applied knowns token operator (Operands.Two left right) }
{
    match operator {
        Some(operator) => applied_to_two(operator, token, left, right),
        None => Err(faulty(Rule::UnknownOperator, token)),
    }
}

/// What a checked operator at its operands is judged to be.
fn checked_type<N: Names>(
    names: &N,
    operator: &Ident,
    left: &Expr,
    right: &Expr,
) -> Judged<Typed<Known, ()>>
    requires { AreWords (N.senses names.now) }
    ensures { result ≡ rules.checked_type (N.senses names.now) operator.now left.now right.now }
{
    match (judge(names, left), judge(names, right)) {
        (Ok(a), Ok(b)) => applied(
            operator.token,
            checked_named(&operator.name),
            Operand {
                token: left.token,
                typed: a,
            },
            Operand {
                token: right.token,
                typed: b,
            },
        ),
        (Ok(_), Err(broken)) => Err(broken),
        (Err(broken), Ok(_)) => Err(broken),
        (Err(first), Err(second)) => Err(Spot::sooner_of(first, second)),
    }
}

/// Whether the place of the result is of the operands' width.
fn result_fits(width: Option<Width>, judged: &Judged<Typed<Known, ()>>) -> bool
    ensures { result ≡ rules.result_fits width judged.now }
{
    let Some(width) = width else {
        return true;
    };
    match judged {
        Ok(Typed::Bits(bits)) => bits.width.bits() == width.bits(),
        Ok(Typed::Test(_)) => true,
        Err(_) => true,
    }
}

/// Notes an operator that is no division: rule 26.
fn note_unknown(operator: &Ident, best: &mut Option<Spot>)
    ensures { best.new ≡ first_of best.old (unknown_spots operator.now) }
{
    let is_checked = checked_named(&operator.name).is_some();
    unless(best, is_checked, Rule::UnknownOperator, operator.token);
}

/// Notes the faults of a checked operator, its annotations left out: rules 21 and 22 of the result's place, those of the operands, and 23
/// where the place is of another width.
pub(crate) fn note_checked<'a, N: Names>(
    names: &BodyNames<'a, N>,
    place: &Ident,
    operator: &Ident,
    left: &Expr,
    right: &Expr,
    best: &mut Option<Spot>,
)
    requires { AreWords (senses (scope_of_body N.senses names.now)) }
    ensures { best.new ≡ first_of best.old (rules.checked_spots (scope_of_body N.senses names.now) place.now operator.now left.now right.now) }
{
    let judged = checked_type(names, operator, left, right);
    let width = Sense::target_width(names.sense(&place.name));
    note_target(names, place, best);
    note_unknown(operator, best);
    note_judged(&judged, best);
    note_inner(names, left, best);
    note_inner(names, right, best);
    let fits = result_fits(width, &judged);
    unless(best, fits, Rule::WidthsDiffer, operator.token);
}
