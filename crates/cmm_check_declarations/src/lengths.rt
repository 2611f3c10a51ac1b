//! Where the data of a unit ends. What is broken takes no room.

ghost use Rattle.std.specs.Prelude.{◌≡◌, ◌<◌, ◌≤◌, ◌∷◌, [], map};
ghost use Rattle.cmm_static_semantics.specs.Limits as limits;
ghost use Rattle.cmm_check_declarations.specs.DataEnds.{IsEnd, data_of};
ghost use Rattle.cmm_check_declarations.specs.Rooms.{words_in};
ghost use Rattle.cmm_symbols.specs.Shown.{thing_item};
ghost use Rattle.cmm_typing.specs.Fitting.{AreWords};

use crate::data::{initial_count, number};
use crate::laying::{DATA_LIMIT, laid};
use cmm_ast::{Count, DatumForm, Expr, Initial, Int, Item, TypeName};
use cmm_symbols::Thing;
use cmm_typing::{Names, is_alignment, width_of};

/// How many bytes a word of a type has: one where the type is broken.
pub fn bytes_of<N: Names>(names: &N, t: &TypeName) -> u64
    ensures value { result ≡ limits.bytes_of (N.senses names.now) t.now }
    ensures some { 0 < result }
    ensures small { result ≤ 16 }
{
    match width_of(names, t) {
        Some(width) => width.bytes(),
        None => 1,
    }
}

fn number_or_zero<N: Names>(names: &N, e: &Expr) -> u64
    requires { AreWords (N.senses names.now) }
    ensures { result ≡ limits.number_or_zero (N.senses names.now) e.now }
{
    number(names, e).unwrap_or(0)
}

/// How many words a datum has: none where their number is broken.
pub fn data_count<N: Names>(names: &N, count: &Count, initial: &Initial) -> u64
    requires { AreWords (N.senses names.now) }
    ensures { result ≡ limits.data_count (N.senses names.now) count.now initial.now }
{
    match count {
        Count::One => initial_count(initial).unwrap_or(1),
        Count::OfInitial => initial_count(initial).unwrap_or(0),
        Count::Of(e) => number_or_zero(names, e),
    }
}

/// How many words a room of stackdata has: none where their number is broken.
pub fn words_in<N: Names>(names: &N, count: &Option<Expr>) -> u64
    requires { AreWords (N.senses names.now) }
    ensures { result ≡ words_in (N.senses names.now) count.now }
{
    match count {
        Some(e) => number_or_zero(names, e),
        None => 1,
    }
}

/// Where an alignment ends.
fn after_alignment(alignment: &Int, place: u64) -> Option<u64>
    requires { place ≤ DATA_LIMIT }
    ensures { IsEnd place (limits.align_piece alignment.now.value ∷ []) result }
{
    if is_alignment(alignment.value) {
        laid(DATA_LIMIT, place, alignment.value, 1, 0)
    } else {
        Some(place)
    }
}

/// Where a datum ends from a place on, unless that is past the limit.
fn after_datum<N: Names>(names: &N, form: &DatumForm, place: u64) -> Option<u64>
    requires words { AreWords (N.senses names.now) }
    requires place { place ≤ DATA_LIMIT }
    ensures { IsEnd place (limits.datum_pieces (N.senses names.now) form.now) result }
{
    match form {
        DatumForm::Label(_) => Some(place),
        DatumForm::Align(alignment) => after_alignment(alignment, place),
        DatumForm::Data {
            width,
            count,
            initial,
        } => {
            let size = bytes_of(names, width);
            laid(
                DATA_LIMIT,
                place,
                size,
                size,
                data_count(names, count, initial),
            )
        }
    }
}

fn after_item<N: Names>(names: &N, item: &Item, place: u64) -> Option<u64>
    requires words { AreWords (N.senses names.now) }
    requires place { place ≤ DATA_LIMIT }
    ensures { IsEnd place (limits.item_pieces (N.senses names.now) item.now) result }
{
    match item {
        Item::Datum(datum) => after_datum(names, &datum.form, place),
        Item::Decl(_) => Some(place),
        Item::Proc(_) => Some(place),
        Item::Span { .. } => Some(place),
    }
}

fn after_thing<'a, N: Names>(names: &N, thing: &Thing<'a>, place: u64) -> Option<u64>
    requires words { AreWords (N.senses names.now) }
    requires place { place ≤ DATA_LIMIT }
    ensures { IsEnd place (limits.item_pieces (N.senses names.now) (thing_item thing.now)) result }
{
    match *thing {
        Thing::Item(item) => after_item(names, item, place),
        Thing::Decl(_) => Some(place),
        Thing::Proc(_) => Some(place),
    }
}

/// Where the data among what stands in a unit ends, from a place on, with its padding. There is none where that is past `DATA_LIMIT`.
pub fn end_of_data<'a, N: Names>(names: &N, things: &[Thing<'a>], place: u64) -> Option<u64>
    requires { AreWords (N.senses names.now) }
    ensures { IsEnd place (data_of (N.senses names.now) (map thing_item things.now)) result }
{
    if place > DATA_LIMIT {
        return None;
    }
    let mut end = place;
    for thing in things {
        end = after_thing(names, thing, end)?;
    }
    Some(end)
}
