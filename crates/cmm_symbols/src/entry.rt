//! What the names of a unit are declared as.

use cmm_ast::{Expr, Import, Proc, TypeName};

/// What a name of a unit is declared as.
#[derive(Clone, Copy)]
pub enum Entry<'a> {
    Typedef(&'a TypeName),
    Const(&'a Option<TypeName>, &'a Expr),
    Register(&'a TypeName),
    Import(&'a Import),
    /// A data label, by its number among those of all units.
    DataLabel(u32),
    /// A procedure, by its number among those of all units.
    Procedure(u32, &'a Proc),
}
