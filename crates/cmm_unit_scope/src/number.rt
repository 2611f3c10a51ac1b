//! Declarations by their numbers.

ghost use Rattle.std.specs.Prelude.{◌≡◌, map};
ghost use Rattle.cmm_symbols.specs.Numbering.{numbering};
ghost use Rattle.cmm_symbols.specs.Shown.{shown, entry_shown};
ghost use Rattle.cmm_unit_scope.specs.Numbers.{type_number};
ghost use Rattle.cmm_unit_scope.specs.inside.Numbers.{entry_number};

use cmm_ast::{TypeForm, TypeName};
use cmm_linkage::number_of;
use cmm_symbols::{Entry, Table};

/// The number of the declaration that a type names, if it names one.
pub(crate) fn type_number<'a>(table: &Table<'a, Entry<'a>>, t: &TypeName) -> Option<usize>
    ensures { result ≡ type_number (numbering (map shown table.now.declared)) t.now }
{
    match &t.form {
        TypeForm::Bits(_) => None,
        TypeForm::Named(name) => number_of(table, name),
    }
}

/// The number of the declaration that a typedef names as its type.
pub(crate) fn entry_number<'a>(table: &Table<'a, Entry<'a>>, entry: Entry<'a>) -> Option<usize>
    ensures { result ≡ entry_number (numbering (map shown table.now.declared)) (entry_shown entry.entry) }
{
    match entry {
        Entry::Typedef(t) => type_number(table, t),
        Entry::Const(_, _) => None,
        Entry::Register(_) => None,
        Entry::Import(_) => None,
        Entry::DataLabel(_) => None,
        Entry::Procedure(_, _) => None,
    }
}
