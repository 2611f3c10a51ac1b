//! The variables at the call sites of a unit.

ghost use Rattle.std.specs.Prelude.{◌≡◌, length};
ghost use Rattle.cmm_static_semantics.specs.Declarations.{NamedUnit};
ghost use Rattle.cmm_static_semantics.specs.Items.{items_of};
ghost use Rattle.cmm_static_semantics.specs.Limits as limits;
ghost use Rattle.cmm_static_semantics.specs.Senses.{Senses};
ghost use Rattle.cmm_limits.specs.Capped.{capped};
ghost use Rattle.cmm_limits.specs.inside.OfUnits.{proc_variables, procs_variables};

use crate::sites::site_count;
use cmm_proc_scope::{FlatUnit, ProcNames};

/// How many variables a procedure has, its formals included.
pub fn variable_count(own: &ProcNames<'_>) -> u64
    ensures { result ≡ length (limits.variables own.now) }
{
    own.variables().len() as u64
}

/// For each call site of a procedure its variables, added up.
fn in_proc(own: &ProcNames<'_>) -> u64
    ensures { result ≡ capped (proc_variables own.now) }
{
    site_count(own).saturating_mul(variable_count(own))
}

fn in_procs(procs: &[ProcNames<'_>]) -> u64
    ensures { result ≡ capped (procs_variables procs.now) }
{
    let mut sum: u64 = 0;
    for own in procs {
        sum = sum.saturating_add(in_proc(own));
    }
    sum
}

/// For each call site of a unit the variables of its procedure, added up. What would be 2^64 or more is given as 2^64 - 1.
pub fn site_variables(unit: &FlatUnit<'_>) -> u64
    ensures { (names : Senses) (u : NamedUnit) → u.items ≡ items_of unit.now → result ≡ capped (limits.site_variables names u) }
{
    in_procs(unit.procs())
}
