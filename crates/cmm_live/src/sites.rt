//! From the sets before nodes to the sets of call sites.

ghost use Rattle.std.specs.Prelude.{◌≡◌, ◌<◌, ◌≤◌, ◌^◌, All, IfOk, OnOk, length};
ghost use Rattle.std.specs.Option.{ForSome};
ghost use Rattle.cmm_graph.specs.Paths.{landings};
ghost use Rattle.cmm_live.specs.Exact.{AreBefore};
ghost use Rattle.cmm_live.specs.Locals.{local_count};
ghost use Rattle.cmm_live.specs.Sites.{cut_nodes, site_of};
ghost use Rattle.cmm_live.specs.inside.Gathering.{AreGathered, nodes_by};
ghost use Rattle.cmm_live.specs.inside.Unions.{AreSized};

use crate::equation::union_before;
use crate::fixed_point::empty_sets;
use crate::locals::local_count;
use cmm_bitset::BitSet;
use cmm_graph::{ContinuationId, Graph, Node, NodeId, NodeKind, SiteId};
use cmm_items::Items;
use std::alloc::{AllocError, Global};

/// Exits of a call site.
#[derive(Clone, Copy)]
pub enum Ways {
    /// All exits.
    All,
    /// The cut exits.
    Cuts,
}

/// The site at which a node waits.
fn site_of(kind: &NodeKind) -> Option<SiteId>
    ensures { result ≡ site_of kind.now }
{
    match kind {
        NodeKind::Call { site, .. } | NodeKind::Yield { site, .. } => Some(*site),
        _ => None,
    }
}

/// The CopyIns of some continuations.
pub fn landings(
    alloc: Global,
    g: &Graph,
    continuations: &[ContinuationId],
) -> Result<Items<NodeId>, AllocError>
    ensures { IfOk result (λ found. found ≡ landings g.now continuations.now) }
{
    let mut nodes = Items::new(alloc);
    for continuation in continuations {
        if let Some(node) = g.continuations.get(continuation.number as usize) {
            nodes.push(*node)?;
        }
    }
    Ok(nodes)
}

/// The CopyIns to which the cut exits of a node lead.
fn cut_nodes(alloc: Global, g: &Graph, kind: &NodeKind) -> Result<Items<NodeId>, AllocError>
    ensures { IfOk result (λ found. found ≡ cut_nodes g.now kind.now) }
{
    match kind {
        NodeKind::Call { exits, .. } | NodeKind::Yield { exits, .. } => {
            landings(alloc, g, exits.get().cuts.as_slice())
        }
        _ => Ok(Items::new(alloc)),
    }
}

impl Ways {
    /// The nodes to which these exits of a node lead.
    fn nodes(self, alloc: Global, g: &Graph, kind: &NodeKind) -> Result<Items<NodeId>, AllocError>
        ensures { IfOk result (λ found. found ≡ nodes_by self g.now kind.now) }
    {
        match self {
            Ways::All => g.successors(kind, alloc),
            Ways::Cuts => cut_nodes(alloc, g, kind),
        }
    }
}

/// One more than the greatest number of a site, or 0.
fn site_count(nodes: &[Node]) -> usize
    ensures { All (λ node. ForSome (site_of node.kind) (λ s. s.number < result)) nodes.now }
{
    let mut count = 0;
    for node in nodes {
        if let Some(site) = site_of(&node.kind) {
            count = count.max(site.number as usize + 1);
        }
    }
    count
}

/// For each site the union of the sets before the nodes to which exits of its nodes lead.
pub fn at_sites(
    alloc: Global,
    g: &Graph,
    ways: Ways,
    before: &[BitSet],
) -> Result<Vec<BitSet>, AllocError>
    requires few { local_count g.now < 2 ^ 32 }
    requires sized { AreSized g.now before.now }
    ensures listed { IfOk result (λ sets. All (λ node. ForSome (site_of node.kind) (λ s. s.number < length sets.items)) g.now.nodes) }
    ensures gathered { IfOk result (λ sets. AreGathered g.now before.now ways (length g.now.nodes) sets.items) }
{
    let nodes = g.nodes.as_slice();
    let mut sets = empty_sets(alloc, site_count(nodes), local_count(g))?;
    for node in nodes {
        if let Some(site) = site_of(&node.kind) {
            let to = ways.nodes(alloc, g, &node.kind)?;
            let live = union_before(alloc, g, to.as_slice(), before)?;
            sets[site.number as usize].join(&live);
        }
    }
    Ok(sets)
}
