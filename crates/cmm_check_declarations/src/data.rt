//! Data: their types, how many values they have, and what they begin as.
#![tactic(auto, using(cmm_static_semantics::proofs::Shared::first_of_append))]

ghost use Rattle.std.specs.Prelude.{◌≡◌, flat_map};
ghost use Rattle.cmm_static_semantics.specs.Expressions.{constant_alone_spots};
ghost use Rattle.cmm_static_semantics.specs.Judging.{if_ok};
ghost use Rattle.cmm_static_semantics.specs.Constants as constants;
ghost use Rattle.cmm_static_semantics.specs.Spots.{first_of};
ghost use Rattle.cmm_static_semantics.specs.Units as units;
ghost use Rattle.cmm_typing.specs.Fitting.{AreWords};

use cmm_ast::{Count, Datum, DatumForm, Expr, Initial, TypeName};
use cmm_rules::Rule;
use cmm_static_semantics::{Spot, unless};
use cmm_typing::{
    Names, note_alignment, note_constant_alone, note_number, note_type, note_width, number_of,
    width_of,
};
use cmm_words::Width;

/// The value of a compile-time constant of 64 bits, if it is not broken.
pub(crate) fn number<N: Names>(names: &N, e: &Expr) -> Option<u64>
    requires { AreWords (N.senses names.now) }
    ensures { result ≡ if_ok (constants.number_of (N.senses names.now) e.now) }
{
    match number_of(names, e) {
        Ok(value) => Some(value),
        Err(_) => None,
    }
}

/// How many values something begins with, if it says.
pub(crate) fn initial_count(initial: &Initial) -> Option<u64>
    ensures { result ≡ units.initial_count initial.now }
{
    match initial {
        Initial::Zeros => None,
        Initial::Values(values) => Some(values.len() as u64),
        Initial::Text(text) => Some(text.bytes.len() as u64),
    }
}

/// Whether a size and a count are the same, where both are known.
fn is_count(size: Option<u64>, count: Option<u64>) -> bool
    ensures { result ≡ units.is_count size count }
{
    let Some(size) = size else {
        return true;
    };
    match count {
        Some(count) => size == count,
        None => true,
    }
}

/// Whether a datum has as many values as it says; one whose size is left out has some.
fn counts_agree<N: Names>(names: &N, count: &Count, initial: &Initial) -> bool
    requires { AreWords (N.senses names.now) }
    ensures { result ≡ units.counts_agree (N.senses names.now) count.now initial.now }
{
    match count {
        Count::One => true,
        Count::OfInitial => initial_count(initial).is_some(),
        Count::Of(e) => is_count(number(names, e), initial_count(initial)),
    }
}

fn note_count<N: Names>(names: &N, count: &Count, best: &mut Option<Spot>)
    requires { AreWords (N.senses names.now) }
    ensures { best.new ≡ first_of best.old (units.count_spots (N.senses names.now) count.now) }
{
    match count {
        Count::Of(e) => note_number(names, e, best),
        Count::One => {}
        Count::OfInitial => {}
    }
}

fn note_values<N: Names>(names: &N, width: Option<Width>, values: &[Expr], best: &mut Option<Spot>)
    requires { AreWords (N.senses names.now) }
    ensures { best.new ≡ first_of best.old (flat_map (constant_alone_spots (N.senses names.now) width) values.now) }
{
    for value in values {
        note_constant_alone(names, width, value, best);
    }
}

/// Values are constants of the datum's width; a text is of bits8.
fn note_initial<N: Names>(names: &N, t: &TypeName, initial: &Initial, best: &mut Option<Spot>)
    requires { AreWords (N.senses names.now) }
    ensures { best.new ≡ first_of best.old (units.initial_spots (N.senses names.now) t.now initial.now) }
{
    match initial {
        Initial::Zeros => {}
        Initial::Values(values) => {
            note_values(names, width_of(names, t), values.as_slice(), best);
        }
        Initial::Text(_) => note_width(8, t.token, width_of(names, t), best),
    }
}

/// Notes the faults of a datum.
pub(crate) fn note_datum<N: Names>(names: &N, datum: &Datum, best: &mut Option<Spot>)
    requires { AreWords (N.senses names.now) }
    ensures { best.new ≡ first_of best.old (units.datum_spots (N.senses names.now) datum.now.token datum.now.form) }
{
    match &datum.form {
        DatumForm::Label(_) => {}
        DatumForm::Align(alignment) => note_alignment(alignment, best),
        DatumForm::Data {
            width,
            count,
            initial,
        } => {
            note_type(names, width, best);
            note_count(names, count, best);
            note_initial(names, width, initial, best);
            let agree = counts_agree(names, count, initial);
            unless(best, agree, Rule::CountsDiffer, datum.token);
        }
    }
}
