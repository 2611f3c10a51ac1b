//! Properties of the target machine.

ghost use Rattle.std.specs.Prelude.{◌≡◌, [], flat_map, map};
ghost use Rattle.cmm_static_semantics.specs.Spots.{first_of};
ghost use Rattle.cmm_static_semantics.specs.Units.{is_of_target, property_spots, target_decl_spots};
ghost use Rattle.cmm_symbols.specs.Shown.{thing_item};

use cmm_ast::{ByteOrder, Decl, DeclForm, Item, Property, PropertyForm};
use cmm_rules::Rule;
use cmm_static_semantics::{Spot, unless};
use cmm_symbols::Thing;

/// Whether it is a property of the machine for which code is made.
fn is_of_target(property: PropertyForm) -> bool
    ensures { result ≡ is_of_target property }
{
    match property {
        PropertyForm::Memsize(bits) => bits.value == 8,
        PropertyForm::Byteorder(order) => matches!(order, ByteOrder::Little),
        PropertyForm::Pointersize(bits) => bits.value == 64,
        PropertyForm::Wordsize(bits) => bits.value == 64,
    }
}

fn note_property(property: Property, best: &mut Option<Spot>)
    ensures { best.new ≡ first_of best.old (property_spots property) }
{
    unless(
        best,
        is_of_target(property.form),
        Rule::OtherTarget,
        property.token,
    );
}

fn note_properties(properties: &[Property], best: &mut Option<Spot>)
    ensures { best.new ≡ first_of best.old (flat_map property_spots properties.now) }
{
    for property in properties {
        note_property(*property, best);
    }
}

fn note_decl(decl: &Decl, best: &mut Option<Spot>)
    ensures { best.new ≡ first_of best.old (target_decl_spots (Item.Decl decl.now)) }
{
    match &decl.form {
        DeclForm::Target(properties) => note_properties(properties.as_slice(), best),
        DeclForm::Import { .. } => {}
        DeclForm::Export { .. } => {}
        DeclForm::Const { .. } => {}
        DeclForm::Typedef { .. } => {}
        DeclForm::Register { .. } => {}
    }
}

fn note_thing<'a>(thing: Thing<'a>, best: &mut Option<Spot>)
    ensures { best.new ≡ first_of best.old (target_decl_spots (thing_item thing.entry)) }
{
    match thing {
        Thing::Item(item) => match item {
            Item::Decl(decl) => note_decl(decl, best),
            Item::Proc(_) => {}
            Item::Datum(_) => {}
            Item::Span { .. } => {}
        },
        Thing::Decl(decl) => note_decl(decl, best),
        Thing::Proc(_) => {}
    }
}

/// Notes properties of another machine: rule 37.
pub(crate) fn note_targets<'a>(things: &[Thing<'a>], best: &mut Option<Spot>)
    ensures { best.new ≡ first_of best.old (flat_map target_decl_spots (map thing_item things.now)) }
{
    for thing in things {
        note_thing(*thing, best);
    }
}
