//! The places of all procedures of a program.

ghost use Rattle.std.specs.Prelude.{◌≡◌, IfOk};
ghost use Rattle.std.specs.List.{AllZip};
ghost use Rattle.cmm_program.specs.InRange.{IsInRange};
ghost use Rattle.cmm_program.specs.State.{Setting};
ghost use Rattle.cmm_live.specs.Exact.{AreLiveSets};
ghost use Rattle.cmm_located.specs.SameOrders.{HasFrames};
ghost use Rattle.cmm_hoisted.specs.Flow.{AreFlowsWithin, IsHoistedFlow};
ghost use Rattle.cmm_allocate.specs.Compiling.{compiled};
ghost use Rattle.cmm_allocate.specs.Laws.{RunsOverPlaces};
ghost use Rattle.cmm_allocate.specs.Places.{HavePlaces};

use crate::laws::flows_can_be_placed;
use crate::procedure::{ProcedurePlaces, place_procedure};
use cmm_graph::Graph;
use cmm_items::Items;
use cmm_live::LiveSets;
use cmm_program::Program;
use std::alloc::{AllocError, Global};

/// The places of each procedure of a program in range, in their order, over the graphs that `flow` makes of them, `fold` folds and `hoist_all` rids of constants in loops, and the locals that are live in these.
/// Located runs are runs of the program, wherever it is placed with these frames. An error is want of memory.
pub fn place_program(
    alloc: Global,
    program: &Program,
    graphs: &[Graph],
    live: Items<LiveSets>,
) -> Result<Items<ProcedurePlaces>, AllocError>
    requires range { IsInRange program.now }
    requires flows { AllZip IsHoistedFlow program.now.procs graphs.now }
    requires within { AreFlowsWithin program.now graphs.now }
    requires live { AllZip AreLiveSets graphs.now live }
    ensures places { IfOk result (λ found. HavePlaces program.now.procs graphs.now found) }
    ensures runs { IfOk result (λ found. (s : Setting) → s.program ≡ program.now → HasFrames s (compiled graphs.now found) → RunsOverPlaces s graphs.now found) }
{
    flows_can_be_placed();
    let procs = program.procs.as_slice();
    let mut found = Items::new(alloc);
    for sets in live.into_vec() {
        let number = found.len();
        let places = place_procedure(alloc, &procs[number], &graphs[number], sets)?;
        found.push(places)?;
    }
    Ok(found)
}
