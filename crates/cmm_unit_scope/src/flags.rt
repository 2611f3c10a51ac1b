//! Nodes of a graph, marked.

ghost use Rattle.std.specs.Prelude.{◌≡◌, ℕ, true, false, length, replicate, IfOk};
ghost use Rattle.cmm_unit_scope.specs.inside.Evaluating.{flag_at};
ghost use Rattle.cmm_digraph.specs.Graphs.{is_among, are_below};

use cmm_items::Items;
use std::alloc::{AllocError, Global};

/// No marks, for `count` nodes.
fn no_flags(alloc: Global, count: usize) -> Result<Items<bool>, AllocError>
    ensures { IfOk result (λ flags. flags ≡ replicate count false) }
{
    let mut flags = Items::new(alloc);
    for _ in 0..count {
        flags.push(false)?;
    }
    Ok(flags)
}

/// Whether a node is marked.
pub(crate) fn is_flagged(flags: &Items<bool>, node: usize) -> bool
    ensures { result ≡ flag_at flags.now node }
{
    match flags.get(node) {
        Some(flag) => *flag,
        None => false,
    }
}

/// Marks some of `count` nodes.
pub(crate) fn flags_of(
    alloc: Global,
    count: usize,
    nodes: &[usize],
) -> Result<Items<bool>, AllocError>
    requires { are_below count nodes.now ≡ true }
    ensures { IfOk result (λ flags. (node : ℕ) → flag_at flags node ≡ is_among node nodes.now) }
{
    let mut flags = no_flags(alloc, count)?;
    for node in nodes {
        flags.set(*node, true);
    }
    Ok(flags)
}
