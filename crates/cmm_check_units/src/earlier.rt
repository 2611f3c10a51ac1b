//! What is known of the units before one.

ghost use Rattle.std.specs.Prelude.{[]};
ghost use Rattle.cmm_static_semantics.specs.Linking.{Program};
ghost use Rattle.cmm_check_units.specs.inside.Units.{AreEarlier};

use crate::sums::Sums;
use cmm_items::Items;
use cmm_static_semantics::Sense;
use cmm_symbols::Index;
use cmm_words::Width;
use std::alloc::Global;

/// What is known of the units before one.
#[derive(Drop)]
pub(crate) struct Earlier<'a> {
    /// The names under which they export something.
    pub links: Index<'a, ()>,
    /// Their registers, with the width of the first of each name, if that is not broken.
    pub registers: Index<'a, Option<Width>>,
    /// What the declarations of each of them mean, by their numbers.
    pub senses: Items<Items<Sense>>,
    /// What the limits over all units count of them.
    pub sums: Sums,
}

impl<'a> Earlier<'a> {
    /// No units.
    pub(crate) fn none(alloc: Global) -> Earlier<'a>
        ensures { (program : Program) → AreEarlier program result [] }
    {
        Earlier {
            links: Index::new(alloc),
            registers: Index::new(alloc),
            senses: Items::new(alloc),
            sums: Sums::none(),
        }
    }
}
