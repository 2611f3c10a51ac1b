//! The order in which nodes are removed from a graph.
//!
//! A node with fewer neighbours left than there are colours is removed as long as there is one; where its neighbours fall below that count,
//! they change their list.

ghost use Rattle.std.specs.Prelude.{◌≡◌, ◌<◌, ◌++◌, ◌∷◌, [], true, IfOk, OnOk, MatchOption, length, map};
ghost use Rattle.std.specs.List.{All};
ghost use Rattle.cmm_colour.specs.inside.Removing.{AreRemoved, AreSimple, IsLeft, IsNobody, is_there};

use crate::candidates::Candidates;
use crate::hints::Hint;
use crate::worklists::{HIGH, LOW, lower, sorted};
use cmm_ilist::Lists;
use cmm_items::Items;
use std::alloc::{AllocError, Global};

/// The nodes of a graph in the order in which they are removed.
#[derive(Drop)]
pub(crate) struct Removed {
    pub order: Items<u32>,
    /// So many of them, the first ones, had fewer neighbours left than there are colours.
    pub peeled: usize,
}

/// How many neighbours each node has.
fn degrees(alloc: Global, rows: &[Items<u32>]) -> Result<Vec<usize>, AllocError>
    ensures { IfOk result (λ degrees. degrees.items ≡ map length rows.now) }
{
    let mut degrees = Vec::with_capacity(alloc, rows.len())?;
    for row in rows {
        degrees.push(row.len())?;
    }
    Ok(degrees)
}

/// Removes a node that is still there.
fn remove(
    node: u32,
    k: usize,
    rows: &[Items<u32>],
    degrees: &mut Vec<usize>,
    lists: &mut Lists,
    order: &mut Items<u32>,
) -> Result<(), AllocError>
    requires simple { AreSimple rows.now }
    requires left { IsLeft rows.now k order.old degrees.old.items lists.old }
    requires there { is_there node lists.old ≡ true }
    ensures order { OnOk result (order.new ≡ order.old ++ node ∷ []) }
    ensures left { OnOk result (IsLeft rows.now k order.new degrees.new.items lists.new) }
{
    order.push(node)?;
    lists.unlink(node);
    for neighbour in rows[node as usize].as_slice() {
        lower(*neighbour, k, degrees, lists);
    }
    Ok(())
}

/// The node that is removed next: one with few neighbours, and else the next candidate. Every node that is left is a candidate, so the last
/// line is not reached; that stands in no clause, since the order of nodes that do not peel does not.
fn next(lists: &Lists, candidates: &mut Candidates) -> Option<u32>
    requires two { length lists.now.lists ≡ 2 }
    requires below { All (λ candidate. candidate.node < lists.now.nodes) candidates.old.waiting.items }
    ensures below { All (λ candidate. candidate.node < lists.now.nodes) candidates.new.waiting.items }
    ensures next { MatchOption result (IsNobody lists.now) (λ node. is_there node lists.now ≡ true) }
{
    if let Some(node) = lists.front(LOW) {
        return Some(node);
    }
    if let Some(node) = candidates.next(lists) {
        return Some(node);
    }
    lists.front(HIGH)
}

/// Removes all nodes of a graph.
pub(crate) fn remove_all(
    alloc: Global,
    rows: &[Items<u32>],
    k: usize,
    hints: &[Hint],
) -> Result<Removed, AllocError>
    requires { AreSimple rows.now }
    ensures { IfOk result (λ removed. AreRemoved rows.now k removed.order removed.peeled) }
{
    let mut degrees = degrees(alloc, rows)?;
    let mut lists = sorted(alloc, &degrees, k)?;
    let mut order = Items::new(alloc);
    while let Some(node) = lists.front(LOW) {
        remove(node, k, rows, &mut degrees, &mut lists, &mut order)?;
    }
    let peeled = order.len();
    let mut candidates = Candidates::of_left(alloc, &lists, &degrees, hints)?;
    while let Some(node) = next(&lists, &mut candidates) {
        remove(node, k, rows, &mut degrees, &mut lists, &mut order)?;
    }
    Ok(Removed { order, peeled })
}
