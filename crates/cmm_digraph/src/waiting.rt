//! How many mentions each node still waits for.

ghost use Rattle.std.specs.Prelude.{◌≡◌, ◌==◌, ◌<◌, true, map, length, slice_index, ℕ, IfOk, OnOk};
ghost use Rattle.cmm_digraph.specs.Graphs.{one_if, occurrences, are_below};
ghost use Rattle.cmm_digraph.specs.inside.Waiting.{CanRelease, IsReleased, AreNumbered};

use cmm_items::Items;
use std::alloc::{AllocError, Global};

/// How many mentions each node has.
pub(crate) fn waiting_in(alloc: Global, graph: &[Items<usize>]) -> Result<Vec<usize>, AllocError>
    ensures { IfOk result (λ waiting. waiting.items ≡ map length graph.now) }
{
    let mut waiting = Vec::new(alloc);
    for mentioned in graph {
        waiting.push(mentioned.len())?;
    }
    Ok(waiting)
}

/// The nodes that wait for no other, or those that do.
pub(crate) fn nodes_that(
    alloc: Global,
    waiting: &[usize],
    wait: bool,
) -> Result<Items<usize>, AllocError>
    ensures { IfOk result (AreNumbered wait waiting.now) }
{
    let mut nodes = Items::new(alloc);
    for (node, count) in waiting.iter().enumerate() {
        if (*count != 0) == wait {
            nodes.push(node)?;
        }
    }
    Ok(nodes)
}

/// Lets each of some nodes wait for one mention less. Those that wait for none any more are added to the order.
pub(crate) fn release(
    users: &[usize],
    waiting: &mut Vec<usize>,
    order: &mut Items<usize>,
) -> Result<(), AllocError>
    requires { CanRelease waiting.old.items users.now }
    ensures { OnOk result (IsReleased waiting.old.items order.old users.now waiting.new.items order.new) }
{
    for user in users {
        waiting[*user] -= 1;
        if waiting[*user] == 0 {
            order.push(*user)?;
        }
    }
    Ok(())
}
