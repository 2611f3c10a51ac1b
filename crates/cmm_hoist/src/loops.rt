//! Which nodes lie in loops, by how a flow numbers its nodes: those of a statement have greater numbers than those of the statements behind it, and the node of a label, which
//! has a smaller one, leads to what follows the label. So a loop is where a node leads to a greater number, by such a node or at once, and all between the two lie in it. Of any other
//! graph the answer is a guess, on which nothing depends but which constants are kept.

use cmm_graph::{Graph, NodeId, NodeKind};
use cmm_items::Items;
use std::alloc::{AllocError, Global};

/// Where a node leads in the text: the node of a label stands for what follows the label.
fn place_in_text(g: &Graph, to: NodeId) -> u32 {
    match g.nodes.get(to.number as usize) {
        Some(node) => match node.kind {
            NodeKind::Goto { next } => next.number.max(to.number),
            _ => to.number,
        },
        None => to.number,
    }
}

/// Notes that a node leads to another: where that stands before it in the text, a loop that begins there goes on to it.
fn note(g: &Graph, from: u32, to: NodeId, ends: &mut Items<u32>) {
    let begins = place_in_text(g, to);
    if begins < from {
        return;
    }
    if let Some(end) = ends.get(begins as usize).copied() {
        ends.set(begins as usize, end.min(from));
    }
}

/// Notes where a node leads, but for the arms of a switch and what lies behind a call.
fn note_all(g: &Graph, from: u32, kind: &NodeKind, ends: &mut Items<u32>) {
    match kind {
        NodeKind::CopyIn { next, .. }
        | NodeKind::Assign { next, .. }
        | NodeKind::Store { next, .. }
        | NodeKind::Host { next, .. }
        | NodeKind::Goto { next } => note(g, from, *next, ends),
        NodeKind::Branch {
            then,
            otherwise,
            ..
        } => {
            note(g, from, *then, ends);
            note(g, from, *otherwise, ends);
        }
        NodeKind::Switch { otherwise, .. } => note(g, from, *otherwise, ends),
        _ => {}
    }
}

/// The last node in the text of the loops that begin at each node, and a number that no node has where none does.
fn ends_of_loops(alloc: Global, g: &Graph) -> Result<Items<u32>, AllocError> {
    let mut ends = Items::from_vec(vec![in alloc; u32::MAX; g.nodes.len()]?);
    let mut number = 0;
    for node in g.nodes.as_slice() {
        note_all(g, number, &node.kind, &mut ends);
        number = number.saturating_add(1);
    }
    Ok(ends)
}

/// Which nodes lie in a loop.
pub fn in_loops(alloc: Global, g: &Graph) -> Result<Items<bool>, AllocError> {
    let ends = ends_of_loops(alloc, g)?;
    let mut inside = Items::from_vec(vec![in alloc; false; g.nodes.len()]?);
    let mut end = u32::MAX;
    for before in 0..inside.len() {
        let index = inside.len() - 1 - before;
        if let Some(found) = ends.get(index).copied() {
            end = end.min(found);
        }
        inside.set(index, end as usize <= index);
    }
    Ok(inside)
}
