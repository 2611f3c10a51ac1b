//! The call `peel`.

ghost use Rattle.std.specs.Prelude.{◌≡◌, true, IfOk};
ghost use Rattle.cmm_digraph.specs.Graphs.{are_below, is_graph};
ghost use Rattle.cmm_digraph.specs.Peeled.{IsPeeled};

use crate::users::users_of;
use crate::waiting::{nodes_that, release, waiting_in};
use cmm_items::Items;
use std::alloc::{AllocError, Global};

/// The nodes of a graph, each once.
#[derive(Drop)]
pub struct Peeled {
    /// In an order in which each node mentions only nodes that come before it.
    pub order: Items<usize>,
    /// What is left over: each of these mentions another of them, so it is on a cycle or leads to one.
    pub left: Items<usize>,
}

/// Whether nodes are numbers below a size.
fn are_below(size: usize, nodes: &[usize]) -> bool
    ensures { result ≡ are_below size nodes.now }
{
    nodes.iter().all(|node| *node < size)
}

/// Whether all that nodes mention are nodes.
pub fn is_graph(graph: &[Items<usize>]) -> bool
    ensures { result ≡ is_graph graph.now }
{
    graph
        .iter()
        .all(|mentioned| are_below(graph.len(), mentioned.as_slice()))
}

/// Peels a graph: for each node, by its number from 0, the nodes that it mentions.
pub fn peel(alloc: Global, graph: &[Items<usize>]) -> Result<Peeled, AllocError>
    requires { is_graph graph.now ≡ true }
    ensures { IfOk result (λ peeled. IsPeeled graph.now peeled.order peeled.left) }
{
    let users = users_of(alloc, graph)?;
    let mut waiting = waiting_in(alloc, graph)?;
    let mut order = nodes_that(alloc, &waiting, false)?;
    let mut head = 0;
    while head < order.len() {
        let node = order.as_slice()[head];
        release(users[node].as_slice(), &mut waiting, &mut order)?;
        head += 1;
    }
    let left = nodes_that(alloc, &waiting, true)?;
    Ok(Peeled { order, left })
}
