//! How many temporaries the nodes of a graph name.

ghost use Rattle.std.specs.Prelude.{ℕ, ◌≤◌, ◌↔◌, IfOk, IsTrue};
ghost use Rattle.cmm_flow.specs.inside.Temporaries.{IsLeast, is_below, names_below};

use crate::builder::following;
use cmm_graph::{Local, Node};
use std::alloc::{AllocError, Global};

/// How many there are at least where a local is one of them.
fn count_of(local: &Local) -> Result<u32, AllocError>
    ensures { IfOk result (λ count. (limit : ℕ) → (count ≤ limit) ↔ IsTrue (is_below limit local.now)) }
{
    match local {
        Local::Variable(_) => Ok(0),
        Local::Temporary(temporary) => following(temporary.number),
    }
}

/// How many temporaries there are at least where some locals are among them.
fn count_among(locals: &[Local]) -> Result<u32, AllocError>
    ensures { IfOk result (λ count. IsLeast is_below locals.now count) }
{
    let mut count = 0;
    for local in locals {
        count = count_of(local)?.max(count);
    }
    Ok(count)
}

/// How many temporaries there are at least where a node reads and writes some.
fn count_at(alloc: Global, node: &Node) -> Result<u32, AllocError>
    ensures { IfOk result (λ count. (limit : ℕ) → (count ≤ limit) ↔ IsTrue (names_below limit node.now)) }
{
    let reads = node.kind.reads(alloc)?;
    let writes = node.kind.writes(alloc)?;
    let read = count_among(reads.as_slice())?;
    let written = count_among(writes.as_slice())?;
    Ok(read.max(written))
}

/// How many temporaries some nodes read and write.
pub fn temporaries_of(alloc: Global, nodes: &[Node]) -> Result<u32, AllocError>
    ensures { IfOk result (λ count. IsLeast names_below nodes.now count) }
{
    let mut count = 0;
    for node in nodes {
        count = count_at(alloc, node)?.max(count);
    }
    Ok(count)
}
