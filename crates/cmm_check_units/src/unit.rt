//! The first fault of one unit, and its names.

ghost use Rattle.std.specs.Prelude.{◌≡◌, ◌++◌, ◌∷◌, [], None, List, ℕ, flat_map, IfOk, OnOk};
ghost use Rattle.cmm_static_semantics.specs.Declarations.{NamedUnit};
ghost use Rattle.cmm_static_semantics.specs.Faults.{item_procedure_spots};
ghost use Rattle.cmm_static_semantics.specs.Items.{items_of};
ghost use Rattle.cmm_static_semantics.specs.Linking.{Program};
ghost use Rattle.cmm_static_semantics.specs.Scopes.{unit_senses};
ghost use Rattle.cmm_static_semantics.specs.Spots.{first_of};
ghost use Rattle.cmm_linkage.specs.Exports.{exported_links};
ghost use Rattle.cmm_symbols.specs.Shown.{whats};
ghost use Rattle.cmm_check_units.specs.inside.Flat.{Flat, flat_links, flat_name_spots, flat_unit, numbered_unit, flat_spots};
ghost use Rattle.cmm_check_units.specs.inside.Linked.{AreLinks};
ghost use Rattle.cmm_check_units.specs.inside.Totals.{AreSums};
ghost use Rattle.cmm_check_units.specs.inside.Units.{AreEarlier, unit_flat};
ghost use Rattle.cmm_typing.specs.Fitting.{AreWords};

use crate::cycles::note_cycles;
use crate::earlier::Earlier;
use crate::host::note_hosts;
use crate::linking::{note_exports, note_imports, note_twice};
use crate::procedures::note_procedures;
use crate::registers::{add_registers, note_registers};
use crate::sums::Sums;
use crate::target::note_targets;
use crate::unit_names::UnitNames;
use cmm_ast::Unit;
use cmm_check_declarations::{note_entries, note_items};
use cmm_linkage::{Linkage, registers_in};
use cmm_proc_scope::FlatUnit;
use cmm_static_semantics::Spot;
use cmm_symbols::{Index, Numbers, Table, declared_in, exports_in, note_things};
use cmm_typing::Names;
use cmm_unit_scope::{UnitSenses, dependencies_of, senses_of_unit, types_of};
use std::alloc::{AllocError, Global};

/// A unit laid flat, from the numbers of its first procedure and data label on.
pub(crate) fn names_of<'a>(
    alloc: Global,
    unit: &'a Unit,
    first: Numbers,
) -> Result<UnitNames<'a>, AllocError>
    ensures { IfOk result (λ names. unit_flat names ≡ flat_unit (numbered_unit first.procedures first.labels unit.now)) }
{
    let flat = FlatUnit::of(alloc, unit)?;
    let declared = declared_in(alloc, flat.things(), first)?;
    let exports = exports_in(alloc, flat.things())?;
    let mut repeated = None;
    let table = Table::of(alloc, declared, &mut repeated)?;
    Ok(UnitNames {
        flat,
        exports,
        table,
        repeated,
    })
}

/// The first fault of the names of a unit, of its exports and imports and of its target. The link names of its exports are added to those of
/// earlier units.
fn first_of_names<'a>(
    alloc: Global,
    unit: &UnitNames<'a>,
    linkage: &Linkage<'a>,
    links: &mut Index<'a, ()>,
) -> Result<Option<Spot>, AllocError>
    ensures links { OnOk result ((before : List (List ℕ)) → AreLinks links.old before → AreLinks links.new (before ++ flat_links (unit_flat unit.now))) }
    ensures best { IfOk result (λ best. (before : List (List ℕ)) → AreLinks links.old before → best ≡ first_of None (flat_name_spots (exported_links linkage.now) before (unit_flat unit.now))) }
{
    let mut best = unit.repeated;
    let declared = unit.table.declared.as_slice();
    let exports = unit.exports.as_slice();
    let things = unit.flat.things();
    note_hosts(declared, &mut best);
    note_exports(&unit.table, exports, &mut best);
    note_twice(exports, links, &mut best)?;
    note_imports(linkage, declared, &mut best);
    note_targets(things, &mut best);
    note_things(alloc, things, &mut best)?;
    Ok(best)
}

/// Notes the faults of the procedures of a unit, and adds what the limits over all units count of it to that of earlier units.
fn note_and_count<N: Names>(
    alloc: Global,
    names: &N,
    flat: &FlatUnit<'_>,
    best: &mut Option<Spot>,
    sums: &mut Sums,
) -> Result<(), AllocError>
    requires { AreWords (N.senses names.now) }
    ensures best { OnOk result (best.new ≡ first_of best.old (flat_map (item_procedure_spots (N.senses names.now)) (whats (items_of flat.now)))) }
    ensures sums { OnOk result ((program : Program) (before : List NamedUnit) (u : NamedUnit) → u.tree ≡ flat.now → u.items ≡ items_of flat.now →
        N.senses names.now ≡ unit_senses program u.entries → AreSums program before sums.old → AreSums program (before ++ u ∷ []) sums.new) }
{
    note_procedures(alloc, names, flat.procs(), best)?;
    *sums = sums.with_unit(alloc, names, flat)?;
    Ok(())
}

/// The first fault of a unit. It is added to what is known of earlier units.
pub(crate) fn first_broken<'a>(
    alloc: Global,
    unit: &UnitNames<'a>,
    linkage: &Linkage<'a>,
    earlier: &mut Earlier<'a>,
) -> Result<Option<Spot>, AllocError>
    ensures earlier { OnOk result ((before : List Flat) → AreEarlier linkage.now earlier.old before → AreEarlier linkage.now earlier.new (before ++ unit_flat unit.now ∷ [])) }
    ensures best { IfOk result (λ best. (before : List Flat) → AreEarlier linkage.now earlier.old before → best ≡ first_of None (flat_spots linkage.now before (unit_flat unit.now))) }
{
    let mut best = first_of_names(alloc, unit, linkage, &mut earlier.links)?;
    let table = &unit.table;
    let declared = table.declared.as_slice();
    let things = unit.flat.things();
    let types = types_of(alloc, table)?;
    let dependencies = dependencies_of(alloc, table)?;
    let meanings = senses_of_unit(alloc, linkage, table, &types, &dependencies)?;
    let senses = meanings.as_slice();
    let names = UnitSenses { table, senses };
    note_entries(&names, declared, &mut best);
    note_items(&names, things, &mut best);
    let registers = registers_in(alloc, table)?;
    note_registers(&types, registers.as_slice(), &earlier.registers, &mut best);
    note_cycles(alloc, &dependencies, declared, &mut best)?;
    note_and_count(alloc, &names, &unit.flat, &mut best, &mut earlier.sums)?;
    add_registers(&types, registers.as_slice(), &mut earlier.registers)?;
    earlier.senses.push(meanings)?;
    Ok(best)
}
