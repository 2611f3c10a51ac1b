//! The data of a program (C-- Language Specification 2.0, data sections).

ghost use Rattle.std.specs.Prelude.{◌≡◌, ◌++◌, [], All, Some, ◌<◌, ◌^◌, map, flat_map, IfOk, OnOk};
ghost use Rattle.cmm_static_semantics.specs.Constants.{constant_alone};
ghost use Rattle.cmm_static_semantics.specs.Limits as limits;
ghost use Rattle.cmm_elaboration.specs.Data as meaning;
ghost use Rattle.cmm_elaboration.specs.Resolving.{or_zero, width_at};
ghost use Rattle.cmm_symbols.specs.Shown.{thing_item};
ghost use Rattle.cmm_lower_parts.specs.Held.{datum_held};
ghost use Rattle.cmm_typing.specs.Fitting.{AreWords};

use crate::constants::{constant_alone_at, width_at};
use crate::lengths::{alignment_of, length_of};
use cmm_ast::{Count, DatumForm, Expr, Initial, Int, Item, TypeName};
use cmm_check_declarations::{bytes_of, data_count};
use cmm_items::Items;
use cmm_program::Datum;
use cmm_symbols::Thing;
use cmm_typing::Names;
use cmm_words::{Constant, Width};
use std::alloc::{AllocError, Global};

/// Constants of a width.
fn constants_in<N: Names>(
    alloc: Global,
    names: &N,
    width: Width,
    values: &[Expr],
) -> Result<Items<Constant>, AllocError>
    requires { AreWords (N.senses names.now) }
    ensures { IfOk result (λ constants. constants ≡ map (λ e. or_zero width (constant_alone (N.senses names.now) (Some width) e)) values.now) }
{
    let mut constants = Items::new(alloc);
    for value in values {
        constants.push(constant_alone_at(names, width, value))?;
    }
    Ok(constants)
}

/// The bytes of a text.
fn bytes_in(alloc: Global, bytes: &[u8]) -> Result<Items<Constant>, AllocError>
    ensures { IfOk result (λ constants. constants ≡ map (λ byte. Constant.Number byte Width.W8) bytes.now) }
{
    let mut constants = Items::new(alloc);
    for byte in bytes {
        constants.push(Constant::Number(u64::from(*byte), Width::W8))?;
    }
    Ok(constants)
}

/// What a datum of a width begins as.
fn initial_values<N: Names>(
    alloc: Global,
    names: &N,
    width: Width,
    initial: &Initial,
) -> Result<Items<Constant>, AllocError>
    requires { AreWords (N.senses names.now) }
    ensures { IfOk result (λ values. values ≡ meaning.initial_values (N.senses names.now) width initial.now) }
{
    match initial {
        Initial::Zeros => Ok(Items::new(alloc)),
        Initial::Values(values) => constants_in(alloc, names, width, values.as_slice()),
        Initial::Text(text) => bytes_in(alloc, text.bytes.as_slice()),
    }
}

/// An alignment as a datum.
fn alignment_datum(alloc: Global, alignment: &Int) -> Datum
    ensures { result ≡ meaning.datum_of (limits.align_piece alignment.now.value) Width.W8 [] }
{
    Datum {
        align: alignment_of(alignment.value),
        length: 0,
        width: Width::W8,
        values: Items::new(alloc),
    }
}

/// A datum with its values.
fn datum_with<N: Names>(
    alloc: Global,
    names: &N,
    t: &TypeName,
    count: &Count,
    initial: &Initial,
) -> Result<Datum, AllocError>
    requires { AreWords (N.senses names.now) }
    ensures { IfOk result (λ datum. datum ≡ datum_held (meaning.datum_of (limits.piece_of (limits.bytes_of (N.senses names.now) t.now) (limits.data_count (N.senses names.now) count.now initial.now))
        (width_at (N.senses names.now) t.now) (meaning.initial_values (N.senses names.now) (width_at (N.senses names.now) t.now) initial.now))) }
{
    let size = bytes_of(names, t);
    let length = length_of(data_count(names, count, initial), size);
    let width = width_at(names, t);
    let values = initial_values(alloc, names, width, initial)?;
    Ok(Datum {
        align: size as u32,
        length,
        width,
        values,
    })
}

fn add_form<N: Names>(
    alloc: Global,
    names: &N,
    form: &DatumForm,
    to: &mut Items<Datum>,
) -> Result<(), AllocError>
    requires { AreWords (N.senses names.now) }
    ensures { OnOk result (to.new ≡ to.old ++ map datum_held (meaning.form_datums (N.senses names.now) form.now)) }
{
    match form {
        DatumForm::Label(_) => Ok(()),
        DatumForm::Align(alignment) => {
            to.push(alignment_datum(alloc, alignment))?;
            Ok(())
        }
        DatumForm::Data {
            width,
            count,
            initial,
        } => {
            let datum = datum_with(alloc, names, width, count, initial)?;
            to.push(datum)?;
            Ok(())
        }
    }
}

fn add_item<N: Names>(
    alloc: Global,
    names: &N,
    item: &Item,
    to: &mut Items<Datum>,
) -> Result<(), AllocError>
    requires { AreWords (N.senses names.now) }
    ensures { OnOk result (to.new ≡ to.old ++ map datum_held (meaning.item_datums (N.senses names.now) item.now)) }
{
    match item {
        Item::Datum(datum) => add_form(alloc, names, &datum.form, to),
        Item::Decl(_) => Ok(()),
        Item::Proc(_) => Ok(()),
        Item::Span { .. } => Ok(()),
    }
}

fn add_thing<'a, N: Names>(
    alloc: Global,
    names: &N,
    thing: Thing<'a>,
    to: &mut Items<Datum>,
) -> Result<(), AllocError>
    requires { AreWords (N.senses names.now) }
    ensures { OnOk result (to.new ≡ to.old ++ map datum_held (meaning.item_datums (N.senses names.now) (thing_item thing.entry))) }
{
    match thing {
        Thing::Item(item) => add_item(alloc, names, item, to),
        Thing::Decl(_) => Ok(()),
        Thing::Proc(_) => Ok(()),
    }
}

/// Adds the data among what stands in a unit, an alignment as a datum without bytes. A datum of 2^32 bytes or more, which no accepted unit has, is
/// given as one of 2^32 - 1.
pub fn add_datums<'a, N: Names>(
    alloc: Global,
    names: &N,
    things: &[Thing<'a>],
    to: &mut Items<Datum>,
) -> Result<(), AllocError>
    requires { AreWords (N.senses names.now) }
    ensures held { OnOk result (to.new ≡ to.old ++ map datum_held (flat_map (meaning.item_datums (N.senses names.now)) (map thing_item things.now))) }
    ensures fitting { All (λ d. d.length < 2 ^ 32) (flat_map (meaning.item_datums (N.senses names.now)) (map thing_item things.now)) →
        OnOk result (to.new ≡ to.old ++ flat_map (meaning.item_datums (N.senses names.now)) (map thing_item things.now)) }
{
    for thing in things {
        add_thing(alloc, names, *thing, to)?;
    }
    Ok(())
}
