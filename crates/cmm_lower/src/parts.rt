//! The procedures, the data and the labels of some units.

ghost use Rattle.std.specs.Prelude.{◌≡◌, ◌∷◌, ◌++◌, ◌<◌, ◌^◌, [], List, length, IfOk};
ghost use Rattle.cmm_static_semantics.specs.Declarations.{NamedUnit};
ghost use Rattle.cmm_static_semantics.specs.Linking.{Program as Linked};
ghost use Rattle.cmm_checked.specs.Known.{IsKnown, names_of};
ghost use Rattle.cmm_lower.specs.inside.Made.{AreParts, FitsBehind};
ghost use Rattle.cmm_typing.specs.Fitting.{AreWords};

use crate::units::add_procedures;
use cmm_checked::CheckedUnit;
use cmm_items::Items;
use cmm_lower_parts::{Links, add_datums, add_labels};
use cmm_program::{Datum, Label, Proc};
use std::alloc::{AllocError, Global};

/// The procedures, the data and the labels of some units, in their order.
#[derive(Drop)]
pub(crate) struct Parts {
    pub procs: Items<Proc>,
    pub datums: Items<Datum>,
    pub labels: Items<Label>,
}

/// The number of the next datum. What is 2^32 or more is given as 2^32 - 1.
fn next_datum(datums: &Items<Datum>) -> u32
    ensures { length datums.now < 2 ^ 32 → result ≡ length datums.now }
{
    u32::try_from(datums.len()).unwrap_or(u32::MAX)
}

impl Parts {
    /// Those of no units. Takes no memory.
    pub(crate) fn none(alloc: Global) -> Parts
        ensures { (program : Linked) → AreParts program [] result }
    {
        Parts {
            procs: Items::new(alloc),
            datums: Items::new(alloc),
            labels: Items::new(alloc),
        }
    }

    /// Those with one more unit, by its number. Fails only for want of memory.
    pub(crate) fn with_unit(
        self,
        alloc: Global,
        number: u32,
        unit: &CheckedUnit<'_>,
    ) -> Result<Parts, AllocError>
        requires { AreWords (names_of unit.now) }
        ensures { IfOk result (λ next. (program : Linked) (before : List NamedUnit) (u : NamedUnit) → FitsBehind program before u → IsKnown program u unit.now →
            number ≡ length before → AreParts program before self → AreParts program (before ++ u ∷ []) next) }
    {
        let Parts {
            mut procs,
            mut datums,
            mut labels,
        } = self;
        let names = unit.names();
        let first = next_datum(&datums);
        add_procedures(alloc, &names, number, &unit.flat, &mut procs)?;
        add_datums(alloc, &names, unit.flat.things(), &mut datums)?;
        let links = Links::of(alloc, unit.exports.as_slice())?;
        add_labels(alloc, &links, unit.flat.tree(), first, &mut labels)?;
        Ok(Parts {
            procs,
            datums,
            labels,
        })
    }
}
