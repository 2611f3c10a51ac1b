//! Graphs with their constants folded.

ghost use Rattle.std.specs.Prelude.{◌≡◌, IfSome, IfNone};
ghost use Rattle.std.specs.List.{All, AllZip};
ghost use Rattle.cmm_fold.specs.Graphs.{GraphStandsFor, IsFolded, KindIsIrreducible, NodeStandsFor};

use crate::value::fold_value;
use cmm_graph::{Graph, Node, NodeKind};
use cmm_items::Items;

/// The node with its right side folded, if it has one.
fn fold_node(node: &Node) -> Option<Node>
    ensures some { IfSome result (λ n. NodeStandsFor node.now n × KindIsIrreducible n.kind) }
    ensures none { IfNone result (KindIsIrreducible node.now.kind) }
{
    match node.kind {
        NodeKind::Assign { to, value, next } => Some(Node {
            tokens: node.tokens,
            kind: NodeKind::Assign {
                to,
                value: fold_value(value),
                next,
            },
        }),
        _ => None,
    }
}

/// Folds the constants of a graph, without memory. Each node does what it did, and reads and writes the same locals; no operator is left whose operands are all
/// numbers of its width, but for a division by 0, no product with a power of two, and no unsigned quotient or remainder by one.
pub fn fold(g: &mut Graph)
    ensures stands { GraphStandsFor g.old g.new }
    ensures folded { IsFolded g.new }
{
    for index in 0..g.nodes.len() {
        if let Some(node) = fold_node(&g.nodes.as_slice()[index]) {
            g.nodes.set(index, node);
        }
    }
}

/// Each of some graphs with its constants folded, in their order.
pub fn fold_all(graphs: Items<Graph>) -> Items<Graph>
    ensures stands { AllZip GraphStandsFor graphs result }
    ensures folded { All IsFolded result }
{
    let mut graphs = graphs.into_vec();
    for g in graphs.iter_mut() {
        fold(g);
    }
    Items::from_vec(graphs)
}
