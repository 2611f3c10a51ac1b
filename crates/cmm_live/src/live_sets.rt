//! The sets, and the call that finds them.

ghost use Rattle.std.specs.Prelude.{◌<◌, ◌^◌, IfOk};
ghost use Rattle.std.specs.List.{All, AllZip};
ghost use Rattle.cmm_live.specs.Exact.{AreLiveSets};
ghost use Rattle.cmm_live.specs.Locals.{local_count};

use crate::fixed_point::live_before;
use crate::sites::{Ways, at_sites};
use cmm_bitset::BitSet;
use cmm_graph::Graph;
use cmm_items::Items;
use std::alloc::{AllocError, Global};

/// Which locals of a graph are live where. A set has the numbers that `number_of` gives to locals.
pub struct LiveSets {
    /// Before each node.
    pub before: Items<BitSet>,
    /// At each call site, by any of its exits: what is live behind its node. Results and parameters are none, unless another exit leads on
    /// to where they are read.
    pub sites: Items<BitSet>,
    /// On the cut exits of each call site, the parameters of their continuations taken away.
    pub cuts: Items<BitSet>,
}

/// In one place, so that whoever lets one go has one call to prove.
impl Drop for LiveSets {
    fn drop(self) {
        let Self {
            before: _,
            sites: _,
            cuts: _,
        } = self;
    }
}

/// The live locals before each node, at each call site and on its cut exits: just those that `IsLiveBefore`, `IsLiveAt` and `IsLiveOnCut` say.
/// Every site of a node has its sets, however great its number. The graph need not be in range; it has fewer than 2^32 locals, since sets number
/// them by 32 bits. An error is want of memory.
pub fn liveness(alloc: Global, g: &Graph) -> Result<LiveSets, AllocError>
    requires { local_count g.now < 2 ^ 32 }
    ensures { IfOk result (λ found. AreLiveSets g.now found) }
{
    let before = live_before(alloc, g)?;
    let sites = at_sites(alloc, g, Ways::All, before.as_slice())?;
    let cuts = at_sites(alloc, g, Ways::Cuts, before.as_slice())?;
    Ok(LiveSets {
        before: Items::from_vec(before),
        sites: Items::from_vec(sites),
        cuts: Items::from_vec(cuts),
    })
}

/// The sets of each of some graphs, in their order. An error is want of memory.
pub fn liveness_of_all(alloc: Global, graphs: &[Graph]) -> Result<Items<LiveSets>, AllocError>
    requires { All (λ g. local_count g < 2 ^ 32) graphs.now }
    ensures { IfOk result (λ found. AllZip AreLiveSets graphs.now found) }
{
    let mut found = Items::new(alloc);
    for graph in graphs {
        found.push(liveness(alloc, graph)?)?;
    }
    Ok(found)
}
