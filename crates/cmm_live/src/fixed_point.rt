//! The least sets that solve the equations of all nodes.

ghost use Rattle.std.specs.Prelude.{◌≡◌, ◌<◌, ◌^◌, IfOk, OnOk, Some, [], false, length, replicate};
ghost use Rattle.cmm_graph.specs.Paths.{node_of};
ghost use Rattle.cmm_live.specs.Exact.{AreBefore};
ghost use Rattle.cmm_live.specs.Locals.{local_count};
ghost use Rattle.cmm_live.specs.inside.Closing.{AreGrowing, Visited};
ghost use Rattle.cmm_live.specs.inside.Edges.{ArePredecessors};
ghost use Rattle.cmm_live.specs.inside.Unions.{AreSized};
ghost use Rattle.cmm_live.specs.inside.Worklists.{IsList};

use crate::equation::set_before;
use crate::locals::local_count;
use crate::predecessors::predecessors;
use crate::worklist::Worklist;
use cmm_bitset::BitSet;
use cmm_graph::{Graph, Node};
use cmm_items::Items;
use std::alloc::{AllocError, Global};

/// A list of `count` empty sets of numbers below `size`.
pub fn empty_sets(alloc: Global, count: usize, size: u32) -> Result<Vec<BitSet>, AllocError>
    ensures { IfOk result (λ sets. sets.items ≡ replicate count (replicate size false)) }
{
    let mut sets = Vec::with_capacity(alloc, count)?;
    for index in 0..count {
        sets.push(BitSet::new(alloc, size)?)?;
    }
    Ok(sets)
}

/// Whether most edges lead to a node that stands later in the graph. Then the last node is looked at first, and else the first, so that
/// most nodes are looked at behind those to which they lead.
fn leads_up(predecessors: &[Items<usize>]) -> bool {
    let mut up: usize = 0;
    let mut down: usize = 0;
    for (node, from) in predecessors.iter().enumerate() {
        for other in from.as_slice() {
            if *other < node {
                up = up.saturating_add(1);
            } else {
                down = down.saturating_add(1);
            }
        }
    }
    down < up
}

/// Lets the set before a node take in what its equation asks for, and answers whether it grew.
fn visit(
    alloc: Global,
    g: &Graph,
    index: usize,
    node: &Node,
    before: &mut Vec<BitSet>,
) -> Result<bool, AllocError>
    requires few { local_count g.now < 2 ^ 32 }
    requires sized { AreSized g.now before.old.items }
    requires within { index < length before.old.items }
    ensures { IfOk result (λ grew. Visited g.now before.old.items before.new.items index node.now grew) }
{
    let set = set_before(alloc, g, &node.kind, before.as_slice())?;
    Ok(before[index].join(&set))
}

/// Looks at the nodes of the list until none waits.
fn settle(
    alloc: Global,
    g: &Graph,
    predecessors: &[Items<usize>],
    list: &mut Worklist,
    before: &mut Vec<BitSet>,
) -> Result<(), AllocError>
    requires few { local_count g.now < 2 ^ 32 }
    requires edges { ArePredecessors g.now predecessors.now }
    requires list { IsList list.old.nodes.items list.old.waits.items }
    requires count { length list.old.waits.items ≡ length g.now.nodes }
    requires growing { AreGrowing g.now before.old.items list.old.waits.items }
    ensures { OnOk result (AreBefore g.now before.new.items) }
{
    let nodes = g.nodes.as_slice();
    while let Some(index) = list.next() {
        if visit(alloc, g, index, &nodes[index], before)? {
            list.add_all(predecessors[index].as_slice())?;
        }
    }
    Ok(())
}

/// The set of the live locals before each node.
pub fn live_before(alloc: Global, g: &Graph) -> Result<Vec<BitSet>, AllocError>
    requires { local_count g.now < 2 ^ 32 }
    ensures { IfOk result (λ sets. AreBefore g.now sets.items) }
{
    let count = g.nodes.len();
    let predecessors = predecessors(alloc, g)?;
    let mut list = Worklist::of_all(alloc, count, leads_up(predecessors.as_slice()))?;
    let mut before = empty_sets(alloc, count, local_count(g))?;
    settle(alloc, g, predecessors.as_slice(), &mut list, &mut before)?;
    Ok(before)
}
