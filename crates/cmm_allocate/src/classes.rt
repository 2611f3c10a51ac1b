//! The locals that suit registers of either kind.

ghost use Rattle.std.specs.Prelude.{◌≡◌, ◌<◌, ◌^◌, IfOk, OnOk, length};
ghost use Rattle.std.specs.List.{All};
ghost use Rattle.cmm_live.specs.Exact.{AreLiveSets};
ghost use Rattle.cmm_live.specs.Locals.{local_count};
ghost use Rattle.cmm_allocate.specs.Classes.{is_live_past_cut, leads_past_cut};
ghost use Rattle.cmm_allocate.specs.inside.Classing.{AreClasses, HasTaken, IsClass, IsComplementTo, IsUnionOf, is_before_some};

use cmm_bitset::BitSet;
use cmm_graph::{Graph, Node, NodeId, NodeKind};
use cmm_live::LiveSets;
use std::alloc::{AllocError, Global};

/// The locals that suit registers.
#[derive(Drop)]
pub(crate) struct Classes {
    /// Those that suit temporary registers.
    pub temporary: BitSet,
    /// Those that suit callee-saves registers. None is of both classes.
    pub callee_saves: BitSet,
}

/// The union of sets of numbers below a size.
fn union(alloc: Global, size: u32, sets: &[BitSet]) -> Result<BitSet, AllocError>
    requires { All (λ set. length set ≡ size) sets.now }
    ensures { IfOk result (λ all. IsUnionOf sets.now size all) }
{
    let mut all = BitSet::new(alloc, size)?;
    for set in sets {
        all.join(set);
    }
    Ok(all)
}

/// The numbers below a size that are not in a set of that size.
fn complement(alloc: Global, set: &BitSet) -> Result<BitSet, AllocError>
    ensures { IfOk result (λ others. IsComplementTo (length set.now) set.now others) }
{
    let mut others = BitSet::new(alloc, set.size())?;
    for number in 0..set.size() {
        if !set.has(number) {
            others.insert(number);
        }
    }
    Ok(others)
}

/// Lets a set take in what is live before some nodes.
fn join_before(nodes: &[NodeId], before: &[BitSet], all: &mut BitSet)
    requires { All (λ set. length set ≡ length all.old) before.now }
    ensures { HasTaken (is_before_some before.now nodes.now) all.old all.new }
{
    for node in nodes {
        if let Some(set) = before.get(node.number as usize) {
            all.join(set);
        }
    }
}

/// Lets a set take in what is live where a cut statement leads in its own activation.
fn join_past_cut(
    alloc: Global,
    g: &Graph,
    node: &Node,
    before: &[BitSet],
    all: &mut BitSet,
) -> Result<(), AllocError>
    requires { All (λ set. length set ≡ length all.old) before.now }
    ensures { OnOk result (HasTaken (leads_past_cut g.now before.now node.now) all.old all.new) }
{
    if let NodeKind::Cut { .. } = &node.kind {
        let landings = g.successors(&node.kind, alloc)?;
        join_before(landings.as_slice(), before, all);
    }
    Ok(())
}

/// What is live where cut statements lead in their own activations.
fn past_cuts(alloc: Global, g: &Graph, live: &LiveSets) -> Result<BitSet, AllocError>
    requires few { local_count g.now < 2 ^ 32 }
    requires live { AreLiveSets g.now live.now }
    ensures { IfOk result (λ all. IsClass g.now (is_live_past_cut g.now live.now) all) }
{
    let before = live.before.as_slice();
    let mut all = BitSet::new(alloc, g.variables + g.temporaries)?;
    for node in g.nodes.as_slice() {
        join_past_cut(alloc, g, node, before, &mut all)?;
    }
    Ok(all)
}

/// Which locals of a graph suit registers of either kind. An error is want of memory.
pub(crate) fn sort_locals(alloc: Global, g: &Graph, live: &LiveSets) -> Result<Classes, AllocError>
    requires few { local_count g.now < 2 ^ 32 }
    requires live { AreLiveSets g.now live.now }
    ensures { IfOk result (λ found. AreClasses g.now live.now found.temporary found.callee_saves) }
{
    let count = g.variables + g.temporaries;
    let at_sites = union(alloc, count, live.sites.as_slice())?;
    let mut lost = past_cuts(alloc, g, live)?;
    lost.join(&at_sites);
    let mut unfit = union(alloc, count, live.cuts.as_slice())?;
    unfit.join(&complement(alloc, &at_sites)?);
    Ok(Classes {
        temporary: complement(alloc, &lost)?,
        callee_saves: complement(alloc, &unfit)?,
    })
}
