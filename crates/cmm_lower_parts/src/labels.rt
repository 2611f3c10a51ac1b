//! The data labels of a program (C-- Language Specification 2.0, data sections).

ghost use Rattle.std.specs.Prelude.{◌≡◌, ◌+◌, ◌++◌, [], ◌∷◌, ◌<◌, ◌^◌, ℕ, false, map, IfOk, OnOk};
ghost use Rattle.cmm_static_semantics.specs.Items.{items_of, top_items, within};
ghost use Rattle.cmm_elaboration.specs.Data as meaning;
ghost use Rattle.cmm_symbols.specs.Shown.{alone};
ghost use Rattle.cmm_lower_parts.specs.Held.{held, label_held};
ghost use Rattle.cmm_lower_parts.specs.inside.Passing.{Passes};

use crate::links::Links;
use cmm_ast::{Datum, DatumForm, Ident, Item, TopLevel, Unit};
use cmm_items::Items;
use cmm_program::Label;
use cmm_symbols::{Thing, things_in};
use std::alloc::{AllocError, Global};

/// What is known of a section up to some datum.
#[derive(Drop)]
struct Passed<'a> {
    /// The number of that datum.
    datum: u32,
    /// The labels that are to stand on the next datum that is no alignment, or else at the end of the section.
    waiting: Items<&'a Ident>,
}

/// A label, on a datum or at the end of the one before it.
fn label_at<'a>(
    alloc: Global,
    links: &Links<'a>,
    name: &Ident,
    datum: u32,
    at_end: bool,
) -> Result<Label, AllocError>
    ensures { IfOk result (λ label. label ≡ meaning.label_at (map (λ e. e.now) links.now.exports.now) name.now (record { datum = datum; at_end = at_end })) }
{
    Ok(Label {
        name: name.name.clone()?,
        links: links.get(alloc, &name.name)?,
        datum,
        at_end,
    })
}

/// Adds labels that stand at one place.
fn add_at<'a>(
    alloc: Global,
    links: &Links<'a>,
    names: &[&Ident],
    datum: u32,
    at_end: bool,
    to: &mut Items<Label>,
) -> Result<(), AllocError>
    ensures { OnOk result (to.new ≡ to.old ++ map (λ i. meaning.label_at (map (λ e. e.now) links.now.exports.now) i.now (record { datum = datum; at_end = at_end })) names.now) }
{
    for name in names {
        let label = label_at(alloc, links, name, datum, at_end)?;
        to.push(label)?;
    }
    Ok(())
}

/// The number after one; 2^32 - 1 stays.
fn next(number: u32) -> u32
    ensures { (n : ℕ) → number ≡ held n → result ≡ held (n + 1) }
{
    number.saturating_add(1)
}

/// Adds a label to those that wait.
fn wait<'b>(name: &'b Ident, passed: Passed<'b>) -> Result<Passed<'b>, AllocError>
    ensures datum { IfOk result (λ next. next.datum ≡ passed.entry.datum) }
    ensures waiting { IfOk result (λ next. map (λ i. i.now) next.waiting ≡ map (λ i. i.now) passed.entry.waiting ++ name.now ∷ []) }
{
    let Passed { datum, mut waiting } = passed;
    waiting.push(name)?;
    Ok(Passed { datum, waiting })
}

/// Passes an alignment.
fn pass_alignment<'b>(passed: Passed<'b>) -> Passed<'b>
    ensures datum { (n : ℕ) → passed.entry.datum ≡ held n → result.datum ≡ held (n + 1) }
    ensures waiting { result.waiting ≡ passed.entry.waiting }
{
    let Passed { datum, waiting } = passed;
    Passed {
        datum: next(datum),
        waiting,
    }
}

/// Passes a datum with values, on which stand the labels that wait.
fn pass_data<'a, 'b>(
    alloc: Global,
    links: &Links<'a>,
    passed: Passed<'b>,
    to: &mut Items<Label>,
) -> Result<Passed<'b>, AllocError>
    ensures labels { OnOk result (to.new ≡ to.old ++ map (λ i. meaning.label_at (map (λ e. e.now) links.now.exports.now) i.now (record { datum = passed.entry.datum; at_end = false })) passed.entry.waiting) }
    ensures waiting { IfOk result (λ next. next.waiting ≡ []) }
    ensures datum { IfOk result (λ next. (n : ℕ) → passed.entry.datum ≡ held n → next.datum ≡ held (n + 1)) }
{
    add_at(
        alloc,
        links,
        passed.waiting.as_slice(),
        passed.datum,
        false,
        to,
    )?;
    Ok(Passed {
        datum: next(passed.datum),
        waiting: Items::new(alloc),
    })
}

fn pass_datum<'a, 'b>(
    alloc: Global,
    links: &Links<'a>,
    datum: &'b Datum,
    passed: Passed<'b>,
    to: &mut Items<Label>,
) -> Result<Passed<'b>, AllocError>
    ensures { IfOk result (λ next. Passes (map (λ e. e.now) links.now.exports.now) (within [] (Item.Datum datum.now) ∷ []) passed.entry next to.old to.new) }
{
    match &datum.form {
        DatumForm::Label(name) => wait(name, passed),
        DatumForm::Align(_) => Ok(pass_alignment(passed)),
        DatumForm::Data { .. } => pass_data(alloc, links, passed, to),
    }
}

fn pass_item<'a, 'b>(
    alloc: Global,
    links: &Links<'a>,
    item: &'b Item,
    passed: Passed<'b>,
    to: &mut Items<Label>,
) -> Result<Passed<'b>, AllocError>
    ensures { IfOk result (λ next. Passes (map (λ e. e.now) links.now.exports.now) (within [] item.now ∷ []) passed.entry next to.old to.new) }
{
    match item {
        Item::Datum(datum) => pass_datum(alloc, links, datum, passed, to),
        Item::Decl(_) => Ok(passed),
        Item::Proc(_) => Ok(passed),
        Item::Span { .. } => Ok(passed),
    }
}

fn pass_thing<'a, 'b>(
    alloc: Global,
    links: &Links<'a>,
    thing: Thing<'b>,
    passed: Passed<'b>,
    to: &mut Items<Label>,
) -> Result<Passed<'b>, AllocError>
    ensures { IfOk result (λ next. Passes (map (λ e. e.now) links.now.exports.now) (alone thing.entry ∷ []) passed.entry next to.old to.new) }
{
    match thing {
        Thing::Item(item) => pass_item(alloc, links, item, passed, to),
        Thing::Decl(_) => Ok(passed),
        Thing::Proc(_) => Ok(passed),
    }
}

/// Passes what stands in a section.
fn pass_things<'a, 'b>(
    alloc: Global,
    links: &Links<'a>,
    things: &[Thing<'b>],
    first: Passed<'b>,
    to: &mut Items<Label>,
) -> Result<Passed<'b>, AllocError>
    ensures { IfOk result (λ next. Passes (map (λ e. e.now) links.now.exports.now) (map alone things.now) first.entry next to.old to.new) }
{
    let mut passed = first;
    for thing in things {
        passed = pass_thing(alloc, links, *thing, passed, to)?;
    }
    Ok(passed)
}

/// Adds the labels of a section. The answer is the number of the next datum.
fn add_section<'a>(
    alloc: Global,
    links: &Links<'a>,
    part: &TopLevel,
    first: u32,
    to: &mut Items<Label>,
) -> Result<u32, AllocError>
    ensures datum { IfOk result (λ next. (n : ℕ) → first ≡ held n → next ≡ held (n + meaning.datums_among (top_items part.now))) }
    ensures labels { OnOk result ((n : ℕ) → first ≡ held n → to.new ≡ to.old ++ map label_held (meaning.section_labels (map (λ e. e.now) links.now.exports.now) n (top_items part.now))) }
{
    let things = things_in(alloc, part)?;
    let none = Passed {
        datum: first,
        waiting: Items::new(alloc),
    };
    let passed = pass_things(alloc, links, things.as_slice(), none, to)?;
    add_at(
        alloc,
        links,
        passed.waiting.as_slice(),
        passed.datum,
        true,
        to,
    )?;
    Ok(passed.datum)
}

/// Adds the labels of a unit, whose first datum has this number among those of all units. The answer is the number of the datum after its last one. A
/// number of 2^32 or more, which no datum of accepted units has, is given as 2^32 - 1.
pub fn add_labels<'a>(
    alloc: Global,
    links: &Links<'a>,
    unit: &Unit,
    first: u32,
    to: &mut Items<Label>,
) -> Result<u32, AllocError>
    ensures datum { IfOk result (λ next. next ≡ held (first + meaning.datums_among (items_of unit.now))) }
    ensures held { OnOk result (to.new ≡ to.old ++ map label_held (meaning.unit_labels (map (λ e. e.now) links.now.exports.now) first unit.now.parts)) }
    ensures fitting { first + meaning.datums_among (items_of unit.now) < 2 ^ 32 →
        OnOk result (to.new ≡ to.old ++ meaning.unit_labels (map (λ e. e.now) links.now.exports.now) first unit.now.parts) }
{
    let mut number = first;
    for part in unit.parts.as_slice() {
        number = add_section(alloc, links, part, number, to)?;
    }
    Ok(number)
}
