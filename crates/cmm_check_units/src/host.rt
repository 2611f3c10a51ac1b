//! Names of the host.

ghost use Rattle.std.specs.Prelude.{◌≡◌, ◌||◌, not, flat_map, map};
ghost use Rattle.cmm_static_semantics.specs.Senses.{is_host};
ghost use Rattle.cmm_static_semantics.specs.Declarations.{host_again, is_own_import};
ghost use Rattle.cmm_static_semantics.specs.Spots.{first_of};
ghost use Rattle.cmm_symbols.specs.Shown.{shown};

use cmm_linkage::import_link;
use cmm_rules::Rule;
use cmm_static_semantics::{Spot, unless};
use cmm_symbols::{Entry, Named, is_host};

/// Whether a name is an import of itself.
fn is_own_import<'a>(named: &Named<'a, Entry<'a>>) -> bool
    ensures { result ≡ is_own_import (shown named.now) }
{
    match named.what {
        Entry::Import(import) => import_link(import) == named.name.name.as_bytes(),
        Entry::Typedef(_) => false,
        Entry::Const(_, _) => false,
        Entry::Register(_) => false,
        Entry::DataLabel(_) => false,
        Entry::Procedure(_, _) => false,
    }
}

/// Whether a name may be declared so: it is none of the host's, or an import of itself.
fn is_declarable<'a>(named: &Named<'a, Entry<'a>>) -> bool
    ensures { result ≡ (not (is_host named.now.name.now.name) || is_own_import (shown named.now)) }
{
    !is_host(named.name.name.as_bytes()) || is_own_import(named)
}

/// Notes names of the host that are declared, and not as imports of themselves: rule 20.
pub(crate) fn note_hosts<'a>(declared: &[Named<'a, Entry<'a>>], best: &mut Option<Spot>)
    ensures { best.new ≡ first_of best.old (flat_map host_again (map shown declared.now)) }
{
    for named in declared {
        unless(
            best,
            is_declarable(named),
            Rule::DeclaredTwice,
            named.name.token,
        );
    }
}
