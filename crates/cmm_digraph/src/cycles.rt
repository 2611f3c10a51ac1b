//! The call `on_cycles`.

ghost use Rattle.std.specs.Prelude.{◌≡◌, ◌<◌, ℕ, true, false, get_or, length, IfOk};
ghost use Rattle.cmm_digraph.specs.Graphs.{is_graph};
ghost use Rattle.cmm_digraph.specs.Reaching.{comes_back};

use crate::search::{Search, Step};
use cmm_items::Items;
use std::alloc::{AllocError, Global};

/// For each node of a graph whether it leads back to itself: it mentions itself, or a node that does or leads to it. A graph is, for each node by
/// its number from 0, the nodes that it mentions.
pub fn on_cycles(alloc: Global, graph: &[Items<usize>]) -> Result<Vec<bool>, AllocError>
    requires { is_graph graph.now ≡ true }
    ensures size { IfOk result (λ cyclic. length cyclic.items ≡ length graph.now) }
    ensures cyclic { IfOk result (λ cyclic. (node : ℕ) → node < length graph.now → get_or cyclic.items node false ≡ comes_back graph.now node) }
{
    let mut search = Search::new(alloc, graph)?;
    while let Some(step) = search.steps.pop() {
        match step {
            Step::Enter(node) => search.enter(graph, node)?,
            Step::Leave(place) => search.leave(graph, place),
        }
    }
    Ok(search.cyclic)
}
