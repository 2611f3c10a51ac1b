//! A unit that breaks no rule.

ghost use Rattle.std.specs.Prelude.{◌≡◌};
ghost use Rattle.cmm_unit_scope.specs.Senses.{senses_of};
ghost use Rattle.cmm_checked.specs.Known.{names_of};

use cmm_ast::Export;
use cmm_items::Items;
use cmm_proc_scope::FlatUnit;
use cmm_static_semantics::Sense;
use cmm_symbols::{Entry, Table};
use cmm_unit_scope::UnitSenses;

/// A unit that breaks no rule, and what is known of it.
pub struct CheckedUnit<'a> {
    /// What stands in it, with the names of its procedures.
    pub flat: FlatUnit<'a>,
    /// What it exports, in textual order.
    pub exports: Items<&'a Export>,
    /// What it declares.
    pub table: Table<'a, Entry<'a>>,
    /// What each of its declarations means, by its number.
    pub senses: Items<Sense>,
}

/// In one place, so that whoever lets one go has one call to prove.
impl Drop for CheckedUnit<'_> {
    fn drop(self) {
        let Self {
            flat: _,
            exports: _,
            table: _,
            senses: _,
        } = self;
    }
}

impl<'a> CheckedUnit<'a> {
    /// What its names mean.
    pub fn names(&self) -> UnitSenses<'_, 'a>
        ensures { senses_of result ≡ names_of self.now }
    {
        UnitSenses {
            table: &self.table,
            senses: self.senses.as_slice(),
        }
    }
}
