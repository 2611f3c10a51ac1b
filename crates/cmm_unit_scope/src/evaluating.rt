//! The values of a unit's constants.

ghost use Rattle.std.specs.Prelude.{◌≡◌, List, ℕ, Some, All, map, length, IfOk};
ghost use Rattle.cmm_static_semantics.specs.Linking.{Program};
ghost use Rattle.cmm_static_semantics.specs.Scopes.{unit_senses};
ghost use Rattle.cmm_unit_scope.specs.Dependent.{AreDependencies};
ghost use Rattle.cmm_symbols.specs.Shown.{shown, entry_shown};
ghost use Rattle.cmm_typing.specs.Fitting.{AreWords, FitsSense};
ghost use Rattle.cmm_unit_scope.specs.Senses.{AreTypes, senses_by, senses_of};
ghost use Rattle.cmm_unit_scope.specs.inside.Evaluating.{AreCyclic, IsOrder, first_sense, flag_at, sense_after, width_by};

use crate::dependencies::Dependencies;
use crate::first_senses::first_senses;
use crate::flags::is_flagged;
use crate::types::Types;
use crate::unit_senses::UnitSenses;
use crate::waiting::{cyclic_in, order_of};
use cmm_digraph::Peeled;
use cmm_items::Items;
use cmm_linkage::Linked;
use cmm_static_semantics::Sense;
use cmm_symbols::{Entry, Table};
use cmm_typing::width_of;
use std::alloc::{AllocError, Global};

/// What a declaration means after those that it waits for are evaluated. What is no constant means what it did before.
fn sense_after<'a>(
    unit: &UnitSenses<'_, 'a>,
    types: &Types<'_, 'a>,
    cyclic: bool,
    before: Sense,
    entry: Entry<'a>,
) -> Sense
    requires { AreWords (senses_of unit.now) }
    ensures { result ≡ sense_after (senses_of unit.now) (width_by types.now) cyclic before (entry_shown entry.entry) }
{
    let Entry::Const(t, value) = entry else {
        return before;
    };
    match t {
        None => unit.untyped(value),
        Some(t) => {
            let width = width_of(types, t);
            if cyclic {
                return Sense::Broken(width);
            }
            unit.typed(width, value)
        }
    }
}

/// Evaluates the constants of a unit, in order, where each means what it does before.
fn evaluate<'a>(
    table: &Table<'a, Entry<'a>>,
    types: &Types<'_, 'a>,
    cyclic: &Items<bool>,
    peeled: &Peeled,
    senses: &mut Items<Sense>,
)
    requires types { AreTypes (map shown table.now.declared) types.now }
    requires cyclic { AreCyclic (map shown table.now.declared) (flag_at cyclic.now) }
    requires order { IsOrder (map shown table.now.declared) (flag_at cyclic.now) peeled.now.order peeled.now.left }
    requires size { length senses.old ≡ length table.now.declared }
    requires fits { All (λ s. FitsSense (Some s)) senses.old }
    ensures senses { (program : Program) → senses.old ≡ map (first_sense program (map shown table.now.declared)) (map shown table.now.declared) →
        (name : List ℕ) → senses_by (map shown table.now.declared) senses.new name ≡ unit_senses program (map shown table.now.declared) name }
    ensures fits { AreWords (senses_by (map shown table.now.declared) senses.new) }
{
    let declared = table.declared.as_slice();
    for node in peeled.order.as_slice() {
        let unit = UnitSenses {
            table,
            senses: senses.as_slice(),
        };
        let before = unit.at(*node);
        let flag = is_flagged(cyclic, *node);
        let sense = sense_after(&unit, types, flag, before, declared[*node].what);
        senses.set(*node, sense);
    }
}

/// What each declaration of a unit means, by its number, from its types and from which declarations name which. Fails only for want of memory.
pub fn senses_of_unit<'a, L: Linked>(
    alloc: Global,
    linked: &L,
    table: &Table<'a, Entry<'a>>,
    types: &Types<'_, 'a>,
    dependencies: &Dependencies,
) -> Result<Items<Sense>, AllocError>
    requires types { AreTypes (map shown table.now.declared) types.now }
    requires dependencies { AreDependencies (map shown table.now.declared) dependencies.now }
    ensures senses { IfOk result (λ senses. (name : List ℕ) → senses_by (map shown table.now.declared) senses name ≡ unit_senses (L.program linked.now) (map shown table.now.declared) name) }
    ensures fits { IfOk result (λ senses. AreWords (senses_by (map shown table.now.declared) senses)) }
{
    let declared = table.declared.as_slice();
    let graph = dependencies.graph();
    let cyclic = cyclic_in(alloc, declared, graph)?;
    let peeled = order_of(alloc, &cyclic, declared, graph)?;
    let mut senses = first_senses(alloc, linked, types, declared)?;
    evaluate(table, types, &cyclic, &peeled, &mut senses);
    Ok(senses)
}
