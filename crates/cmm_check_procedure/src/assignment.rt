//! Assignments.
#![tactic(auto, using(cmm_static_semantics::proofs::Shared::first_of_append))]

ghost use Rattle.std.specs.Prelude.{◌≡◌, flat_map};
ghost use Rattle.cmm_static_semantics.specs.Scopes.{senses};
ghost use Rattle.cmm_static_semantics.specs.Spots.{first_of};
ghost use Rattle.cmm_static_semantics.specs.Statements as rules;
ghost use Rattle.cmm_proc_scope.specs.Bodies.{scope_of_body};
ghost use Rattle.cmm_check_procedure.specs.inside.Sides.{assignment_spots, past_first, side_spots};
ghost use Rattle.cmm_typing.specs.Fitting.{AreWords};

use crate::naming::note_target;
use cmm_ast::{Expr, Lvalue};
use cmm_items::Items;
use cmm_proc_scope::BodyNames;
use cmm_rules::Rule;
use cmm_static_semantics::{Sense, Spot, unless};
use cmm_typing::{Names, note_bits, note_bits_of_memory, width_of};
use cmm_words::Width;

/// Notes the faults of what is assigned to: rules 21 and 22 of a name, and those of a word in memory.
fn note_lvalue<'a, N: Names>(names: &BodyNames<'a, N>, place: &Lvalue, best: &mut Option<Spot>)
    requires { AreWords (senses (scope_of_body N.senses names.now)) }
    ensures { best.new ≡ first_of best.old (rules.lvalue_spots (scope_of_body N.senses names.now) place.now) }
{
    match place {
        Lvalue::Name(name) => note_target(names, name, best),
        Lvalue::Memory(memory) => note_bits_of_memory(
            names,
            None,
            memory.width.token,
            memory,
            best,
        ),
    }
}

fn note_lvalues<'a, N: Names>(names: &BodyNames<'a, N>, to: &[Lvalue], best: &mut Option<Spot>)
    requires { AreWords (senses (scope_of_body N.senses names.now)) }
    ensures { best.new ≡ first_of best.old (flat_map (rules.lvalue_spots (scope_of_body N.senses names.now)) to.now) }
{
    for place in to {
        note_lvalue(names, place, best);
    }
}

/// The width of what is assigned to, if it has one that is not broken.
fn lvalue_width<'a, N: Names>(names: &BodyNames<'a, N>, place: &Lvalue) -> Option<Width>
    ensures { result ≡ rules.lvalue_width (scope_of_body N.senses names.now) place.now }
{
    match place {
        Lvalue::Name(name) => Sense::target_width(names.sense(&name.name)),
        Lvalue::Memory(memory) => width_of(names, &memory.width),
    }
}

/// Notes the faults of a value, which has the width of the first of the places that are left: rule 23.
fn note_side<'a, N: Names>(
    names: &BodyNames<'a, N>,
    places: &[Lvalue],
    value: &Expr,
    best: &mut Option<Spot>,
)
    requires { AreWords (senses (scope_of_body N.senses names.now)) }
    ensures { best.new ≡ first_of best.old (side_spots (scope_of_body N.senses names.now) places.now value.now) }
{
    match places {
        [place, ..] => note_bits(names, lvalue_width(names, place), value, best),
        [] => note_bits(names, None, value, best),
    }
}

/// The places after the first.
fn past_first(places: &[Lvalue]) -> &[Lvalue]
    ensures { result.now ≡ past_first places.now }
{
    match places {
        [_, rest @ ..] => rest,
        [] => &[],
    }
}

fn note_sides<'a, N: Names>(
    names: &BodyNames<'a, N>,
    to: &[Lvalue],
    values: &[Expr],
    best: &mut Option<Spot>,
)
    requires { AreWords (senses (scope_of_body N.senses names.now)) }
    ensures { best.new ≡ first_of best.old (rules.sides (scope_of_body N.senses names.now) to.now values.now) }
{
    let mut places = to;
    let mut left = values;
    while let [value, more @ ..] = left {
        note_side(names, places, value, best);
        places = past_first(places);
        left = more;
    }
}

/// Notes the faults of an assignment: rule 28 where there are more places than values or fewer, and those of its sides.
pub(crate) fn note_assignment<'a, N: Names>(
    names: &BodyNames<'a, N>,
    token: u32,
    to: &Items<Lvalue>,
    values: &Items<Expr>,
    best: &mut Option<Spot>,
)
    requires { AreWords (senses (scope_of_body N.senses names.now)) }
    ensures { best.new ≡ first_of best.old (assignment_spots (scope_of_body N.senses names.now) token to.now values.now) }
{
    unless(best, to.len() == values.len(), Rule::CountsDiffer, token);
    note_lvalues(names, to.as_slice(), best);
    note_sides(names, to.as_slice(), values.as_slice(), best);
}
