//! Typedefs and constants that depend on themselves.

ghost use Rattle.std.specs.Prelude.{◌≡◌, ◌<◌, ◌∷◌, [], true, false, List, Some, ℕ, flat_map, length, map, OnOk};
ghost use Rattle.cmm_static_semantics.specs.Declarations.{Declared, Entry as UnitEntry};
ghost use Rattle.cmm_static_semantics.specs.Spots.{first_of};
ghost use Rattle.cmm_static_semantics.specs.Units.{cycle_spots};
ghost use Rattle.cmm_unit_scope.specs.Dependent.{AreDependencies};
ghost use Rattle.cmm_symbols.specs.Shown.{shown, entry_shown};
ghost use Rattle.cmm_check_units.specs.inside.Cyclic.{entry_cycle_spots, is_dependent, AreNoted, CountsOrIsNoted};
ghost use Rattle.cmm_unit_scope.specs.Numbers.{entry_at};

use cmm_rules::Rule;
use cmm_static_semantics::{Spot, unless};
use cmm_symbols::{Entry, Named};
use cmm_unit_scope::Dependencies;
use std::alloc::{AllocError, Global};

/// Notes a declaration, by its number, if it depends on itself. A later declaration of the name already breaks rule 20, and is skipped.
fn note_dependent<'a>(
    dependencies: &Dependencies,
    number: usize,
    named: &Named<'a, Entry<'a>>,
    best: &mut Option<Spot>,
)
    requires { (ds : List (Declared UnitEntry)) × AreDependencies ds dependencies.now × (number < length ds) }
    ensures { (ds : List (Declared UnitEntry)) → AreDependencies ds dependencies.now → entry_at ds number ≡ Some (entry_shown named.now.what) →
        CountsOrIsNoted ds number named.now.name.now best.old → best.new ≡ first_of best.old (cycle_spots ds (shown named.now)) }
{
    let depends = dependencies.on_itself(number);
    unless(best, !depends, Rule::Cycle, named.name.token);
}

/// Notes a typedef or constant, if it depends on itself.
fn note_cycle<'a>(
    dependencies: &Dependencies,
    number: usize,
    named: &Named<'a, Entry<'a>>,
    best: &mut Option<Spot>,
)
    requires { (ds : List (Declared UnitEntry)) × AreDependencies ds dependencies.now × (number < length ds) }
    ensures { (ds : List (Declared UnitEntry)) → AreDependencies ds dependencies.now → entry_at ds number ≡ Some (entry_shown named.now.what) →
        (is_dependent (entry_shown named.now.what) ≡ true → CountsOrIsNoted ds number named.now.name.now best.old) → best.new ≡ first_of best.old (entry_cycle_spots ds (shown named.now)) }
{
    match named.what {
        Entry::Typedef(_) => note_dependent(dependencies, number, named, best),
        Entry::Const(_, _) => note_dependent(dependencies, number, named, best),
        Entry::Register(_) => (),
        Entry::Import(_) => (),
        Entry::DataLabel(_) => (),
        Entry::Procedure(_, _) => (),
    }
}

/// Notes typedefs and constants that depend on themselves: rule 39. Names that are declared again are noted before.
pub(crate) fn note_cycles<'a>(
    alloc: Global,
    dependencies: &Dependencies,
    declared: &[Named<'a, Entry<'a>>],
    best: &mut Option<Spot>,
) -> Result<(), AllocError>
    requires { AreDependencies (map shown declared.now) dependencies.now }
    ensures { OnOk result (AreNoted best.old (map shown declared.now) → best.new ≡ first_of best.old (flat_map (entry_cycle_spots (map shown declared.now)) (map shown declared.now))) }
{
    for (number, named) in declared.iter().enumerate() {
        note_cycle(dependencies, number, named, best);
    }
    Ok(())
}
