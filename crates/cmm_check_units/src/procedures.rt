//! The procedures of a unit.

ghost use Rattle.std.specs.Prelude.{◌≡◌, flat_map, OnOk};
ghost use Rattle.cmm_static_semantics.specs.Faults.{item_procedure_spots};
ghost use Rattle.cmm_static_semantics.specs.Spots.{first_of};
ghost use Rattle.cmm_typing.specs.Fitting.{AreWords};

use cmm_ast::Item;
use cmm_check_procedure::note_procedure;
use cmm_limits::note_limits;
use cmm_proc_scope::ProcNames;
use cmm_static_semantics::Spot;
use cmm_typing::Names;
use std::alloc::{AllocError, Global};

/// Notes the faults of a procedure among the names of its unit.
fn note_proc<N: Names>(
    alloc: Global,
    names: &N,
    own: &ProcNames<'_>,
    best: &mut Option<Spot>,
) -> Result<(), AllocError>
    requires { AreWords (N.senses names.now) }
    ensures { OnOk result (best.new ≡ first_of best.old (item_procedure_spots (N.senses names.now) (Item.Proc own.now))) }
{
    note_procedure(alloc, own, names, best)?;
    note_limits(own, &own.within(names), best);
    Ok(())
}

/// Notes the faults of procedures: rules 20 to 33, 38 and 40.
pub(crate) fn note_procedures<N: Names>(
    alloc: Global,
    names: &N,
    procs: &[ProcNames<'_>],
    best: &mut Option<Spot>,
) -> Result<(), AllocError>
    requires { AreWords (N.senses names.now) }
    ensures { OnOk result (best.new ≡ first_of best.old (flat_map (λ p. item_procedure_spots (N.senses names.now) (Item.Proc p)) procs.now)) }
{
    for own in procs {
        note_proc(alloc, names, own, best)?;
    }
    Ok(())
}
