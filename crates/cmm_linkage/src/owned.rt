//! What the names of a unit are, where they are none of the host's.

ghost use Rattle.std.specs.Prelude.{◌≡◌, map, option_map};
ghost use Rattle.cmm_static_semantics.specs.Declarations.{entry_of};
ghost use Rattle.cmm_symbols.specs.Numbering.{numbering, number_in};
ghost use Rattle.cmm_symbols.specs.Shown.{shown, entry_shown};

use cmm_symbols::{Entry, Table, is_host};
use cmm_words::Name;

/// The number of what a name of a unit is first declared as, where it is none of the host's.
pub fn number_of<'a>(table: &Table<'a, Entry<'a>>, name: &Name) -> Option<usize>
    ensures { result ≡ number_in (numbering (map shown table.now.declared)) name.now }
{
    if is_host(name.as_bytes()) {
        None
    } else {
        table.number(name)
    }
}

/// What a name of a unit is, where it is none of the host's.
pub fn entry_of<'a>(table: &Table<'a, Entry<'a>>, name: &Name) -> Option<Entry<'a>>
    ensures { option_map entry_shown result ≡ entry_of name.now (map shown table.now.declared) }
{
    if is_host(name.as_bytes()) {
        None
    } else {
        table.find(name)
    }
}
