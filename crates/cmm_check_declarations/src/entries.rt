//! Typedefs, constants and registers.
#![tactic(auto, using(cmm_static_semantics::proofs::Shared::first_of_append))]

ghost use Rattle.std.specs.Prelude.{◌≡◌, map, flat_map};
ghost use Rattle.cmm_static_semantics.specs.Spots.{first_of};
ghost use Rattle.cmm_static_semantics.specs.Units.{const_spots};
ghost use Rattle.cmm_check_declarations.specs.EntryFaults.{entry_value_spots};
ghost use Rattle.cmm_symbols.specs.Shown.{entry_shown, shown};
ghost use Rattle.cmm_typing.specs.Fitting.{AreWords};

use cmm_ast::{Expr, TypeName};
use cmm_static_semantics::Spot;
use cmm_symbols::{Entry, Named};
use cmm_typing::{Names, note_number_alone, note_type, width_of};

/// Notes the faults of a constant, which has the width of its type.
fn note_const<N: Names>(names: &N, t: &Option<TypeName>, value: &Expr, best: &mut Option<Spot>)
    requires { AreWords (N.senses names.now) }
    ensures { best.new ≡ first_of best.old (const_spots (N.senses names.now) t.now value.now) }
{
    match t {
        None => note_number_alone(names, None, value, best),
        Some(t) => {
            note_type(names, t, best);
            note_number_alone(names, width_of(names, t), value, best);
        }
    }
}

fn note_entry<'a, N: Names>(names: &N, entry: Entry<'a>, best: &mut Option<Spot>)
    requires { AreWords (N.senses names.now) }
    ensures { best.new ≡ first_of best.old (entry_value_spots (N.senses names.now) (entry_shown entry.entry)) }
{
    match entry {
        Entry::Typedef(t) => note_type(names, t, best),
        Entry::Const(t, value) => note_const(names, t, value, best),
        Entry::Register(t) => note_type(names, t, best),
        Entry::Import(_) => {}
        Entry::DataLabel { .. } => {}
        Entry::Procedure { .. } => {}
    }
}

/// Notes the faults of the types and values of typedefs, constants and registers: rules 21 to 27, 38 and 40. That they depend on themselves, rule
/// 39, is not noted.
pub fn note_entries<'a, N: Names>(
    names: &N,
    declared: &[Named<'a, Entry<'a>>],
    best: &mut Option<Spot>,
)
    requires { AreWords (N.senses names.now) }
    ensures { best.new ≡ first_of best.old (flat_map (λ d. entry_value_spots (N.senses names.now) d.as_what) (map shown declared.now)) }
{
    for named in declared {
        note_entry(names, named.what, best);
    }
}
