//! What stands in a unit: declarations, data and spans.
#![tactic(auto, using(cmm_static_semantics::proofs::Shared::first_of_append))]

ghost use Rattle.std.specs.Prelude.{◌≡◌, map, flat_map};
ghost use Rattle.cmm_static_semantics.specs.Spots.{first_of};
ghost use Rattle.cmm_static_semantics.specs.Units as units;
ghost use Rattle.cmm_symbols.specs.Shown.{thing_item};
ghost use Rattle.cmm_typing.specs.Fitting.{AreWords};

use crate::data::note_datum;
use cmm_ast::{DeclForm, Item, TypeName};
use cmm_static_semantics::Spot;
use cmm_symbols::Thing;
use cmm_typing::{Names, note_constant, note_number_of_primary, note_type, note_width, width_of};

/// The type of an import or export is bits64.
fn note_link_type<N: Names>(names: &N, t: &Option<TypeName>, best: &mut Option<Spot>)
    ensures { best.new ≡ first_of best.old (units.link_type_spots (N.senses names.now) t.now) }
{
    match t {
        None => {}
        Some(t) => {
            note_type(names, t, best);
            note_width(64, t.token, width_of(names, t), best);
        }
    }
}

fn note_declaration<N: Names>(names: &N, form: &DeclForm, best: &mut Option<Spot>)
    ensures { best.new ≡ first_of best.old (units.decl_spots (N.senses names.now) form.now) }
{
    match form {
        DeclForm::Import { width, .. } => note_link_type(names, width, best),
        DeclForm::Export { width, .. } => note_link_type(names, width, best),
        DeclForm::Const { .. } => {}
        DeclForm::Typedef { .. } => {}
        DeclForm::Register { .. } => {}
        DeclForm::Target(_) => {}
    }
}

/// Notes the faults of an item. What its names are declared as, and what stands in a span, are not looked into.
pub fn note_item<N: Names>(names: &N, item: &Item, best: &mut Option<Spot>)
    requires { AreWords (N.senses names.now) }
    ensures { best.new ≡ first_of best.old (units.item_spots (N.senses names.now) item.now) }
{
    match item {
        Item::Decl(decl) => note_declaration(names, &decl.form, best),
        Item::Datum(datum) => note_datum(names, datum, best),
        Item::Proc(_) => {}
        Item::Span { key, value, .. } => {
            note_number_of_primary(names, key, best);
            note_constant(names, value, best);
        }
    }
}

fn note_thing<'a, N: Names>(names: &N, thing: Thing<'a>, best: &mut Option<Spot>)
    requires { AreWords (N.senses names.now) }
    ensures { best.new ≡ first_of best.old (units.item_spots (N.senses names.now) (thing_item thing.entry)) }
{
    match thing {
        Thing::Item(item) => note_item(names, item, best),
        Thing::Decl(decl) => note_declaration(names, &decl.form, best),
        Thing::Proc(_) => {}
    }
}

/// Notes the faults of imports, exports, data and spans: rules 21 to 28, 38 and 40. Procedures are not looked into.
pub fn note_items<'a, N: Names>(names: &N, things: &[Thing<'a>], best: &mut Option<Spot>)
    requires { AreWords (N.senses names.now) }
    ensures { best.new ≡ first_of best.old (flat_map (units.item_spots (N.senses names.now)) (map thing_item things.now)) }
{
    for thing in things {
        note_thing(names, *thing, best);
    }
}
