//! What a unit exports and imports.

ghost use Rattle.std.specs.Prelude.{◌≡◌, ◌++◌, List, ℕ, flat_map, map, option_map, IfOk, OnOk};
ghost use Rattle.cmm_static_semantics.specs.Spots.{first_of};
ghost use Rattle.cmm_static_semantics.specs.Senses.{is_there};
ghost use Rattle.cmm_static_semantics.specs.Linking.{address_of, export_spots, export_link, twice, import_spots, is_start, starts};
ghost use Rattle.cmm_linkage.specs.Exports.{exported_links};
ghost use Rattle.cmm_check_units.specs.inside.Linked.{AreLinks};
ghost use Rattle.cmm_check_units.specs.inside.Flat.{is_main};
ghost use Rattle.cmm_symbols.specs.Shown.{shown, entry_shown};

use cmm_ast::Export;
use cmm_linkage::{Linkage, entry_of, export_link, import_link};
use cmm_rules::Rule;
use cmm_static_semantics::{Spot, unless};
use cmm_symbols::{Entry, Index, Named, Table, is_host};
use std::alloc::AllocError;

/// Whether it can be exported.
fn has_address<'a>(entry: &Option<Entry<'a>>) -> bool
    ensures { result ≡ is_there (address_of (option_map entry_shown entry.now)) }
{
    match entry {
        None => false,
        Some(entry) => match entry {
            Entry::DataLabel(_) => true,
            Entry::Procedure(_, _) => true,
            Entry::Typedef(_) => false,
            Entry::Const(_, _) => false,
            Entry::Register(_) => false,
            Entry::Import(_) => false,
        },
    }
}

/// Notes what is exported and is no procedure or data label of the unit: rule 21.
pub(crate) fn note_exports<'a>(
    table: &Table<'a, Entry<'a>>,
    exports: &[&'a Export],
    best: &mut Option<Spot>,
)
    ensures { best.new ≡ first_of best.old (flat_map (export_spots (map shown table.now.declared)) (map (λ e. e.now) exports.now)) }
{
    for export in exports {
        let entry = entry_of(table, &export.name.name);
        unless(
            best,
            has_address(&entry),
            Rule::Undeclared,
            export.name.token,
        );
    }
}

/// Notes names that are exported a second time, in this unit or after earlier ones, whose link names are added to: rule 35.
pub(crate) fn note_twice<'a>(
    exports: &[&'a Export],
    earlier: &mut Index<'a, ()>,
    best: &mut Option<Spot>,
) -> Result<(), AllocError>
    ensures links { OnOk result ((before : List (List ℕ)) → AreLinks earlier.old before → AreLinks earlier.new (before ++ map export_link (map (λ e. e.now) exports.now))) }
    ensures best { OnOk result ((before : List (List ℕ)) → AreLinks earlier.old before → best.new ≡ first_of best.old (twice before (map (λ e. e.now) exports.now))) }
{
    for export in exports {
        let new = earlier.add(export_link(export), ())?;
        unless(best, new, Rule::ExportedTwice, export.name.token);
    }
    Ok(())
}

/// Notes an import of what no unit exports and is no procedure of the host: rule 34.
fn note_import<'a>(linkage: &Linkage<'a>, named: &Named<'a, Entry<'a>>, best: &mut Option<Spot>)
    ensures { best.new ≡ first_of best.old (import_spots (exported_links linkage.now) (shown named.now)) }
{
    match named.what {
        Entry::Import(import) => {
            let host = is_host(import_link(import));
            let exported = linkage.is_exported(import_link(import));
            unless(best, host || exported, Rule::NotExported, named.name.token);
        }
        Entry::Typedef(_) => {}
        Entry::Const(_, _) => {}
        Entry::Register(_) => {}
        Entry::DataLabel(_) => {}
        Entry::Procedure(_, _) => {}
    }
}

/// Notes imports of what no unit exports: rule 34.
pub(crate) fn note_imports<'a>(
    linkage: &Linkage<'a>,
    declared: &[Named<'a, Entry<'a>>],
    best: &mut Option<Spot>,
)
    ensures { best.new ≡ first_of best.old (flat_map (import_spots (exported_links linkage.now)) (map shown declared.now)) }
{
    for named in declared {
        note_import(linkage, named, best);
    }
}

/// Whether it is a procedure without formals.
fn is_start<'a>(entry: &Option<Entry<'a>>) -> bool
    ensures { result ≡ is_start (option_map entry_shown entry.now) }
{
    match entry {
        None => false,
        Some(entry) => match entry {
            Entry::Procedure(_, proc) => match proc.formals.as_slice() {
                [] => true,
                [_, ..] => false,
            },
            Entry::DataLabel(_) => false,
            Entry::Typedef(_) => false,
            Entry::Const(_, _) => false,
            Entry::Register(_) => false,
            Entry::Import(_) => false,
        },
    }
}

/// Whether something is exported as `main` and is a procedure without formals.
fn is_main<'a>(table: &Table<'a, Entry<'a>>, export: &Export) -> bool
    ensures { result ≡ is_main (map shown table.now.declared) export.now }
{
    export_link(export) == b"main".as_slice() && is_start(&entry_of(table, &export.name.name))
}

/// Whether a unit exports a procedure without formals as `main`.
pub(crate) fn starts<'a>(table: &Table<'a, Entry<'a>>, exports: &[&'a Export]) -> bool
    ensures { result ≡ starts (map shown table.now.declared) (map (λ e. e.now) exports.now) }
{
    for export in exports {
        if is_main(table, export) {
            return true;
        }
    }
    false
}
