//! The places of one procedure.

ghost use Rattle.std.specs.Prelude.{◌≡◌, IfOk};
ghost use Rattle.cmm_bitset.specs.Sets.{members};
ghost use Rattle.cmm_live.specs.Exact.{AreLiveSets, set_at};
ghost use Rattle.cmm_allocate.specs.Places.{CanBePlaced, HasPlaces};

use crate::colouring::places;
use crate::layout::lay_frame;
use cmm_bitset::BitSet;
use cmm_chain::{Frame, Location};
use cmm_graph::{Graph, NodeId};
use cmm_items::Items;
use cmm_live::LiveSets;
use cmm_program::Proc;
use std::alloc::{AllocError, Global};

/// How a procedure keeps its locals. A local is named by its number: the variables come first, the temporaries after them.
pub struct ProcedurePlaces {
    /// The place of each local.
    pub locals: Items<Location>,
    pub frame: Frame,
    /// Which locals are live where.
    pub live: LiveSets,
    /// The locals that are made 0 when the procedure is entered, in ascending order: those that may be read before they are written.
    pub zeroed: Items<u32>,
}

/// In one place, so that whoever lets one go has one call to prove.
impl Drop for ProcedurePlaces {
    fn drop(self) {
        let Self {
            locals: _,
            frame: _,
            live: _,
            zeroed: _,
        } = self;
    }
}

/// The members of a set, in ascending order.
fn listed(alloc: Global, set: &BitSet) -> Result<Items<u32>, AllocError>
    ensures { IfOk result (λ numbers. numbers ≡ members set.now) }
{
    Ok(Items::from_vec(set.iter().collect(alloc)?))
}

/// The locals that are live before a node.
fn live_at(alloc: Global, live: &LiveSets, node: NodeId) -> Result<Items<u32>, AllocError>
    ensures { IfOk result (λ numbers. numbers ≡ members (set_at live.now.before node.number)) }
{
    match live.before.get(node.number as usize) {
        Some(set) => listed(alloc, set),
        None => Ok(Items::new(alloc)),
    }
}

/// The places of a procedure with this graph, of which just these locals are live, and the frame that is laid for them. A local that is live
/// before the Entry, and so no formal, is made 0. An error is want of memory.
pub(crate) fn place_procedure(
    alloc: Global,
    p: &Proc,
    g: &Graph,
    live: LiveSets,
) -> Result<ProcedurePlaces, AllocError>
    requires can { CanBePlaced p.now g.now }
    requires live { AreLiveSets g.now live }
    ensures { IfOk result (λ k. HasPlaces p.now g.now k) }
{
    let locals = places(alloc, g, &live)?;
    let frame = lay_frame(alloc, p, locals.as_slice())?;
    let zeroed = live_at(alloc, &live, g.first)?;
    Ok(ProcedurePlaces {
        locals,
        frame,
        live,
        zeroed,
    })
}
