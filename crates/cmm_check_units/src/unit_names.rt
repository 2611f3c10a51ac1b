//! The names of a unit, laid flat.

ghost use Rattle.std.specs.Prelude.{◌≡◌, [], None, map};
ghost use Rattle.cmm_static_semantics.specs.Declarations.{again};
ghost use Rattle.cmm_static_semantics.specs.Spots.{first_of};
ghost use Rattle.cmm_symbols.specs.Shown.{named};

use cmm_ast::Export;
use cmm_items::Items;
use cmm_proc_scope::FlatUnit;
use cmm_static_semantics::Spot;
use cmm_symbols::{Entry, Table};

/// What stands in a unit, what it exports and what it declares.
#[derive(Drop)]
pub(crate) struct UnitNames<'a> {
    pub flat: FlatUnit<'a>,
    pub exports: Items<&'a Export>,
    pub table: Table<'a, Entry<'a>>,
    /// The first name that is declared again.
    pub repeated: Option<Spot>,
    ghost noted: { repeated ≡ first_of None (again [] (map named table.declared)) },
}
