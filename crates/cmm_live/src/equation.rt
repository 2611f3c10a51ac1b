//! The right side of a node's equation, by the sets before the nodes to which it leads.

ghost use Rattle.std.specs.Prelude.{◌<◌, ◌^◌, IfOk};
ghost use Rattle.cmm_live.specs.Locals.{local_count};
ghost use Rattle.cmm_live.specs.inside.Unions.{AreSized, IsSetBefore, IsUnionOf};

use crate::locals::{insert_all, local_count, remove_all};
use cmm_bitset::BitSet;
use cmm_graph::{Graph, NodeId, NodeKind};
use std::alloc::{AllocError, Global};

/// The union of the sets before some nodes. One that is not there has none.
pub fn union_before(
    alloc: Global,
    g: &Graph,
    nodes: &[NodeId],
    before: &[BitSet],
) -> Result<BitSet, AllocError>
    requires few { local_count g.now < 2 ^ 32 }
    requires sized { AreSized g.now before.now }
    ensures { IfOk result (λ set. IsUnionOf g.now before.now nodes.now set) }
{
    let mut set = BitSet::new(alloc, local_count(g))?;
    for node in nodes {
        if let Some(other) = before.get(node.number as usize) {
            set.join(other);
        }
    }
    Ok(set)
}

/// What the equation of a node asks to be live before it: what it reads, and what is live before a successor and not written.
pub fn set_before(
    alloc: Global,
    g: &Graph,
    kind: &NodeKind,
    before: &[BitSet],
) -> Result<BitSet, AllocError>
    requires few { local_count g.now < 2 ^ 32 }
    requires sized { AreSized g.now before.now }
    ensures { IfOk result (λ set. IsSetBefore g.now before.now kind.now set) }
{
    let successors = g.successors(kind, alloc)?;
    let mut set = union_before(alloc, g, successors.as_slice(), before)?;
    let writes = kind.writes(alloc)?;
    remove_all(g, writes.as_slice(), &mut set);
    let reads = kind.reads(alloc)?;
    insert_all(g, reads.as_slice(), &mut set);
    Ok(set)
}
