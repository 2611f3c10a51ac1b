//! Which nodes lead to each node of a graph.

ghost use Rattle.std.specs.Prelude.{◌≡◌, ◌<◌, [], IfOk, OnOk, length, replicate};
ghost use Rattle.cmm_live.specs.inside.Edges.{AddsTo, AreNodeLists, ArePredecessors};

use cmm_graph::{Graph, NodeId};
use cmm_items::Items;
use std::alloc::{AllocError, Global};

/// An empty list for each of `count` nodes.
fn empty_lists(alloc: Global, count: usize) -> Result<Vec<Items<usize>>, AllocError>
    ensures { IfOk result (λ lists. lists.items ≡ replicate count []) }
{
    let mut lists = Vec::with_capacity(alloc, count)?;
    for index in 0..count {
        lists.push(Items::new(alloc))?;
    }
    Ok(lists)
}

/// Adds a node to the lists of some nodes, of those that are there.
fn add_to(lists: &mut Vec<Items<usize>>, nodes: &[NodeId], from: usize) -> Result<(), AllocError>
    requires from { from < length lists.old.items }
    requires lists { AreNodeLists (length lists.old.items) lists.old.items }
    ensures { OnOk result (AddsTo lists.old.items lists.new.items nodes.now from) }
{
    for node in nodes {
        let index = node.number as usize;
        if index < lists.len() {
            lists[index].push(from)?;
        }
    }
    Ok(())
}

/// For each node, the nodes that lead to it.
pub fn predecessors(alloc: Global, g: &Graph) -> Result<Vec<Items<usize>>, AllocError>
    ensures { IfOk result (λ lists. ArePredecessors g.now lists.items) }
{
    let mut lists = empty_lists(alloc, g.nodes.len())?;
    for (from, node) in g.nodes.as_slice().iter().enumerate() {
        let to = g.successors(&node.kind, alloc)?;
        add_to(&mut lists, to.as_slice(), from)?;
    }
    Ok(lists)
}
