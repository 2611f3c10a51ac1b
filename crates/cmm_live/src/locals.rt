//! The numbers by which sets have the locals of a graph.

ghost use Rattle.std.specs.Prelude.{◌≡◌, ◌<◌, ◌^◌, length, true, false, MatchOption};
ghost use Rattle.cmm_graph.specs.Ranges.{is_local};
ghost use Rattle.cmm_live.specs.Locals.{local_count, local_number};
ghost use Rattle.cmm_live.specs.inside.Marking.{Marked};

use cmm_bitset::BitSet;
use cmm_graph::{Graph, Local};

/// How many locals a graph has.
pub fn local_count(g: &Graph) -> u32
    requires { local_count g.now < 2 ^ 32 }
    ensures { result ≡ local_count g.now }
{
    g.variables + g.temporaries
}

/// The number of a local in the sets of a graph, if the graph has it: the variables come first, the temporaries after them.
pub fn number_of(g: &Graph, local: Local) -> Option<u32>
    requires { local_count g.now < 2 ^ 32 }
    ensures { MatchOption result (is_local g.now local ≡ false) (λ number. (is_local g.now local ≡ true) × (number ≡ local_number g.now local)) }
{
    match local {
        Local::Variable(variable) => {
            if variable.number < g.variables {
                Some(variable.number)
            } else {
                None
            }
        }
        Local::Temporary(temporary) => {
            if temporary.number < g.temporaries {
                Some(g.variables + temporary.number)
            } else {
                None
            }
        }
    }
}

/// Makes some locals members.
pub fn insert_all(g: &Graph, locals: &[Local], set: &mut BitSet)
    requires few { local_count g.now < 2 ^ 32 }
    requires size { length set.old ≡ local_count g.now }
    ensures { Marked g.now set.old set.new locals.now true }
{
    for local in locals {
        if let Some(number) = number_of(g, *local) {
            set.insert(number);
        }
    }
}

/// Takes some locals away.
pub fn remove_all(g: &Graph, locals: &[Local], set: &mut BitSet)
    requires few { local_count g.now < 2 ^ 32 }
    requires size { length set.old ≡ local_count g.now }
    ensures { Marked g.now set.old set.new locals.now false }
{
    for local in locals {
        if let Some(number) = number_of(g, *local) {
            set.remove(number);
        }
    }
}
