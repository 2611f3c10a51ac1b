//! The names of a procedure, found by their bytes.

ghost use Rattle.cmm_proc_scope.specs.inside.Numbering.{AreNumbered};

use crate::own::Numbered;
use cmm_symbols::Table;

/// What a procedure declares, with the number of each declaration.
#[derive(Drop)]
pub(crate) struct OwnNames<'a> {
    pub table: Table<'a, Numbered<'a>>,
    ghost numbered: { AreNumbered table.declared },
}
