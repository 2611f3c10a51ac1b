//! What declarations mean before any constant is evaluated.

ghost use Rattle.std.specs.Prelude.{◌≡◌, List, Some, All, map, IfOk};
ghost use Rattle.cmm_static_semantics.specs.Declarations.{Declared, Entry as UnitEntry};
ghost use Rattle.cmm_symbols.specs.Shown.{shown};
ghost use Rattle.cmm_typing.specs.Fitting.{FitsSense};
ghost use Rattle.cmm_unit_scope.specs.Senses.{AreTypes};
ghost use Rattle.cmm_unit_scope.specs.inside.Evaluating.{first_sense};

use crate::types::Types;
use cmm_items::Items;
use cmm_linkage::{Linked, import_link};
use cmm_static_semantics::Sense;
use cmm_symbols::{Entry, Named};
use cmm_typing::width_of;
use cmm_words::Constant;
use std::alloc::{AllocError, Global};

/// What a declaration means, but for the value of a constant.
fn first_sense<'a, L: Linked>(
    linked: &L,
    types: &Types<'_, 'a>,
    named: &Named<'a, Entry<'a>>,
) -> Sense
    ensures value { (ds : List (Declared UnitEntry)) → AreTypes ds types.now → result ≡ first_sense (L.program linked.now) ds (shown named.now) }
    ensures fits { FitsSense (Some result) }
{
    match named.what {
        Entry::Typedef(t) => Sense::Typedef(width_of(types, t)),
        Entry::Const(_, _) => Sense::Broken(None),
        Entry::Register(t) => {
            let number = linked.register_number(&named.name.name);
            Sense::Register(number, width_of(types, t))
        }
        Entry::Import(import) => linked.imported(import_link(import)),
        Entry::DataLabel(label) => Sense::Value(Constant::Address { label, plus: 0 }),
        Entry::Procedure(proc, _) => Sense::Value(Constant::Code { proc, plus: 0 }),
    }
}

/// What declarations mean, but for the values of constants.
pub(crate) fn first_senses<'a, L: Linked>(
    alloc: Global,
    linked: &L,
    types: &Types<'_, 'a>,
    declared: &[Named<'a, Entry<'a>>],
) -> Result<Items<Sense>, AllocError>
    requires { AreTypes (map shown declared.now) types.now }
    ensures values { IfOk result (λ senses. senses ≡ map (first_sense (L.program linked.now) (map shown declared.now)) (map shown declared.now)) }
    ensures fits { IfOk result (All (λ s. FitsSense (Some s))) }
{
    let mut senses = Items::new(alloc);
    for named in declared {
        senses.push(first_sense(linked, types, named))?;
    }
    Ok(senses)
}
