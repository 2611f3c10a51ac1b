//! What a unit declares and exports.

ghost use Rattle.std.specs.Prelude.{◌≡◌, ◌++◌, [], ◌∷◌, map, flat_map, IfOk, OnOk};
ghost use Rattle.cmm_static_semantics.specs.Declarations.{each_as, import_entry, decl_entries, datum_entries, item_entries, entries_from};
ghost use Rattle.cmm_static_semantics.specs.Linking.{decl_exports, item_exports};
ghost use Rattle.cmm_symbols.specs.Shown.{thing_item, alone, shown, entry_shown};

use crate::entry::Entry;
use crate::numbers::Numbers;
use crate::table::Named;
use crate::thing::Thing;
use cmm_ast::{DatumForm, DeclForm, Export, Ident, Import, Item, Proc};
use cmm_items::Items;
use std::alloc::{AllocError, Global};

fn add_each<'a>(
    names: &'a [Ident],
    what: Entry<'a>,
    to: &mut Items<Named<'a, Entry<'a>>>,
) -> Result<(), AllocError>
    ensures { OnOk result (map shown to.new ≡ map shown to.old ++ each_as (entry_shown what.entry) names.now) }
{
    for name in names {
        to.push(Named { name, what })?;
    }
    Ok(())
}

fn add_one<'a>(
    name: &'a Ident,
    what: Entry<'a>,
    to: &mut Items<Named<'a, Entry<'a>>>,
) -> Result<(), AllocError>
    ensures { OnOk result (map shown to.new ≡ map shown to.old ++ each_as (entry_shown what.entry) (name.now ∷ [])) }
{
    to.push(Named { name, what })?;
    Ok(())
}

fn add_imports<'a>(
    imports: &'a [Import],
    to: &mut Items<Named<'a, Entry<'a>>>,
) -> Result<(), AllocError>
    ensures { OnOk result (map shown to.new ≡ map shown to.old ++ map import_entry imports.now) }
{
    for import in imports {
        to.push(Named {
            name: &import.name,
            what: Entry::Import(import),
        })?;
    }
    Ok(())
}

fn add_declaration<'a>(
    form: &'a DeclForm,
    to: &mut Items<Named<'a, Entry<'a>>>,
) -> Result<(), AllocError>
    ensures { OnOk result (map shown to.new ≡ map shown to.old ++ decl_entries form.now) }
{
    match form {
        DeclForm::Import { imports, .. } => add_imports(imports.as_slice(), to),
        DeclForm::Const { width, name, value } => add_one(name, Entry::Const(width, value), to),
        DeclForm::Typedef { width, names } => {
            add_each(names.as_slice(), Entry::Typedef(width), to)
        }
        DeclForm::Register { width, names, .. } => {
            add_each(names.as_slice(), Entry::Register(width), to)
        }
        DeclForm::Export { .. } => Ok(()),
        DeclForm::Target(_) => Ok(()),
    }
}

fn add_procedure<'a>(
    proc: &'a Proc,
    numbers: Numbers,
    to: &mut Items<Named<'a, Entry<'a>>>,
) -> Result<(), AllocError>
    ensures { OnOk result (map shown to.new ≡ map shown to.old ++ item_entries numbers.procedures numbers.labels (Item.Proc proc.now)) }
{
    add_one(&proc.name, Entry::Procedure(numbers.procedures, proc), to)
}

fn add_datum<'a>(
    form: &'a DatumForm,
    numbers: Numbers,
    to: &mut Items<Named<'a, Entry<'a>>>,
) -> Result<(), AllocError>
    ensures { OnOk result (map shown to.new ≡ map shown to.old ++ datum_entries numbers.labels form.now) }
{
    match form {
        DatumForm::Label(name) => add_one(name, Entry::DataLabel(numbers.labels), to),
        DatumForm::Align(_) => Ok(()),
        DatumForm::Data { .. } => Ok(()),
    }
}

fn add_item<'a>(
    item: &'a Item,
    numbers: Numbers,
    to: &mut Items<Named<'a, Entry<'a>>>,
) -> Result<(), AllocError>
    ensures { OnOk result (map shown to.new ≡ map shown to.old ++ item_entries numbers.procedures numbers.labels item.now) }
{
    match item {
        Item::Decl(decl) => add_declaration(&decl.form, to),
        Item::Proc(proc) => add_procedure(proc, numbers, to),
        Item::Datum(datum) => add_datum(&datum.form, numbers, to),
        Item::Span { .. } => Ok(()),
    }
}

fn add_thing<'a>(
    thing: Thing<'a>,
    numbers: Numbers,
    to: &mut Items<Named<'a, Entry<'a>>>,
) -> Result<(), AllocError>
    ensures { OnOk result (map shown to.new ≡ map shown to.old ++ item_entries numbers.procedures numbers.labels (thing_item thing.entry)) }
{
    match thing {
        Thing::Item(item) => add_item(item, numbers, to),
        Thing::Decl(decl) => add_declaration(&decl.form, to),
        Thing::Proc(proc) => add_procedure(proc, numbers, to),
    }
}

/// What is declared among what stands in a unit, from the numbers of its first procedure and data label on.
pub fn declared_in<'a>(
    alloc: Global,
    things: &[Thing<'a>],
    first: Numbers,
) -> Result<Items<Named<'a, Entry<'a>>>, AllocError>
    ensures { IfOk result (λ declared. map shown declared ≡ entries_from first.procedures first.labels (map alone things.now)) }
{
    let mut declared = Items::new(alloc);
    let mut numbers = first;
    for thing in things {
        add_thing(*thing, numbers, &mut declared)?;
        numbers = numbers.after_one(*thing)?;
    }
    Ok(declared)
}

fn add_all<'a>(exports: &'a [Export], to: &mut Items<&'a Export>) -> Result<(), AllocError>
    ensures { OnOk result (map (λ e. e.now) to.new ≡ map (λ e. e.now) to.old ++ exports.now) }
{
    for export in exports {
        to.push(export)?;
    }
    Ok(())
}

fn add_exported<'a>(form: &'a DeclForm, to: &mut Items<&'a Export>) -> Result<(), AllocError>
    ensures { OnOk result (map (λ e. e.now) to.new ≡ map (λ e. e.now) to.old ++ decl_exports form.now) }
{
    match form {
        DeclForm::Export { exports, .. } => add_all(exports.as_slice(), to),
        DeclForm::Import { .. } => Ok(()),
        DeclForm::Const { .. } => Ok(()),
        DeclForm::Typedef { .. } => Ok(()),
        DeclForm::Register { .. } => Ok(()),
        DeclForm::Target(_) => Ok(()),
    }
}

fn add_exports<'a>(thing: Thing<'a>, to: &mut Items<&'a Export>) -> Result<(), AllocError>
    ensures { OnOk result (map (λ e. e.now) to.new ≡ map (λ e. e.now) to.old ++ item_exports (thing_item thing.entry)) }
{
    match thing {
        Thing::Item(item) => match item {
            Item::Decl(decl) => add_exported(&decl.form, to),
            Item::Proc(_) => Ok(()),
            Item::Datum(_) => Ok(()),
            Item::Span { .. } => Ok(()),
        },
        Thing::Decl(decl) => add_exported(&decl.form, to),
        Thing::Proc(_) => Ok(()),
    }
}

/// What is exported among what stands in a unit.
pub fn exports_in<'a>(alloc: Global, things: &[Thing<'a>]) -> Result<Items<&'a Export>, AllocError>
    ensures { IfOk result (λ exports. map (λ e. e.now) exports ≡ flat_map item_exports (map thing_item things.now)) }
{
    let mut exports = Items::new(alloc);
    for thing in things {
        add_exports(*thing, &mut exports)?;
    }
    Ok(exports)
}
