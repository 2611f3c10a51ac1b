//! The lists of the nodes that are left: those with fewer neighbours left than there are colours, and the others.

ghost use Rattle.std.specs.Prelude.{◌≡◌, ◌<◌, ◌≤◌, ◌^◌, true, IfOk, length, slice_index};
ghost use Rattle.cmm_colour.specs.inside.Removing.{AreSorted, is_there, list_for, lowered_degrees, lowered_lists};

use cmm_ilist::Lists;
use std::alloc::{AllocError, Global};

/// The list of nodes with fewer neighbours left than there are colours.
pub(crate) const LOW: u32 = 0;

/// The list of the others.
pub(crate) const HIGH: u32 = 1;

/// The list of a node with so many neighbours left.
fn list_for(degree: usize, k: usize) -> u32
    ensures { result ≡ list_for k degree }
{
    if degree < k { LOW } else { HIGH }
}

/// All nodes in their lists.
pub(crate) fn sorted(alloc: Global, degrees: &[usize], k: usize) -> Result<Lists, AllocError>
    requires { length degrees.now < 2 ^ 32 }
    ensures { IfOk result (λ lists. AreSorted k degrees.now lists) }
{
    let count = degrees.len() as u32;
    let mut lists = Lists::new(alloc, count, 2)?;
    for (node, degree) in degrees.iter().enumerate() {
        lists.push_back(list_for(*degree, k), node as u32);
    }
    Ok(lists)
}

/// Whether a node is still there.
pub(crate) fn is_left(lists: &Lists, node: u32) -> bool
    requires node { node < lists.now.nodes }
    requires two { length lists.now.lists ≡ 2 }
    ensures { result ≡ is_there node lists.now }
{
    lists.list_of(node).is_some()
}

/// A node has one neighbour less, if it is still there.
pub(crate) fn lower(node: u32, k: usize, degrees: &mut Vec<usize>, lists: &mut Lists)
    requires node { node < length degrees.old.items }
    requires count { lists.old.nodes ≡ length degrees.old.items }
    requires two { length lists.old.lists ≡ 2 }
    requires some { is_there node lists.old ≡ true → 1 ≤ slice_index degrees.old.items node }
    ensures degrees { degrees.new.items ≡ lowered_degrees node lists.old degrees.old.items }
    ensures nodes { lists.new.nodes ≡ lists.old.nodes }
    ensures lists { lists.new.lists ≡ lowered_lists k node lists.old degrees.old.items }
{
    if !is_left(lists, node) {
        return;
    }
    let degree = degrees[node as usize];
    degrees[node as usize] = degree - 1;
    if degree == k {
        lists.unlink(node);
        lists.push_back(LOW, node);
    }
}
