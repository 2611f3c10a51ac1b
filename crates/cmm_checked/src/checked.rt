//! All units of a program, which break no rule.

ghost use Rattle.std.specs.Prelude.{◌≡◌, ◌<◌, ◌^◌, length};
ghost use Rattle.std.specs.List.{AllZip};
ghost use Rattle.cmm_static_semantics.specs.Declarations.{named_units};
ghost use Rattle.cmm_static_semantics.specs.Faults.{AreAccepted};
ghost use Rattle.cmm_static_semantics.specs.Linking.{program_of};
ghost use Rattle.cmm_linkage.specs.Registers.{AreWidths};
ghost use Rattle.cmm_checked.specs.Known.{AreKnown, IsKnown, trees_in};

use crate::unit::CheckedUnit;
use cmm_items::Items;
use cmm_linkage::Linkage;
use cmm_symbols::Index;
use cmm_words::Width;
use std::marker::Model;

/// The units of a program, which break no rule, and what is known of them. Contracts see their trees.
pub struct Checked<'a> {
    units: Items<CheckedUnit<'a>>,
    linkage: Linkage<'a>,
    widths: Index<'a, Option<Width>>,
}

/// In one place, so that whoever lets one go has one call to prove.
impl Drop for Checked<'_> {
    fn drop(self) {
        let Self {
            units: _,
            linkage: _,
            widths: _,
        } = self;
    }
}

impl<'a> Model for Checked<'a> {
    ghost use Rattle.std.specs.Prelude.{List};
    ghost use Rattle.std.specs.Coded.{coded_list};
    ghost use Rattle.cmm_ast.specs.contracts.unit.Unit as unit_tree;
    ghost use Rattle.cmm_ast.specs.declared.unit.Unit.{Unit as UnitTree};

    ghost Value = { List UnitTree };

    ghost coded = { coded_list unit_tree.the_row.coded };

    ghost use Rattle.cmm_checked.specs.Known.{AreKnown, trees_in};

    ghost view = { λ c. trees_in c.units };

    ghost invariant = { λ c. AreKnown c.linkage c.widths (trees_in c.units) c.units };
}

impl<'a> Checked<'a> {
    /// Units of which this is known: what they know of each other, and the width of each of their registers, none where it has no width.
    pub fn new(
        units: Items<CheckedUnit<'a>>,
        linkage: Linkage<'a>,
        widths: Index<'a, Option<Width>>,
    ) -> Checked<'a>
        requires { AreKnown linkage widths (trees_in units) units }
        ensures { result ≡ trees_in units.entry }
    {
        Checked {
            units,
            linkage,
            widths,
        }
    }

    /// The units, in their order.
    pub fn units(&self) -> &[CheckedUnit<'a>]
        ensures few { length result.now < 2 ^ 32 }
        ensures accepted { AreAccepted self.now }
        ensures each { AllZip (IsKnown (program_of (named_units self.now))) (named_units self.now) result.now }
    {
        self.units.as_slice()
    }

    /// What they know of each other.
    pub fn linkage(&self) -> &Linkage<'a>
        ensures { result.now ≡ program_of (named_units self.now) }
    {
        &self.linkage
    }

    /// The width of each of their registers, by its name; none where it has no width.
    pub fn widths(&self) -> &Index<'a, Option<Width>>
        ensures { AreWidths result.now (named_units self.now) }
    {
        &self.widths
    }
}
