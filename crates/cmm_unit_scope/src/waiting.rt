//! Which constants wait for which others, and which lead to a cycle.

ghost use Rattle.std.specs.Prelude.{◌≡◌, ℕ, List, false, map, length, IfOk};
ghost use Rattle.cmm_unit_scope.specs.Depending.{graph_of};
ghost use Rattle.cmm_symbols.specs.Shown.{shown, entry_shown};
ghost use Rattle.cmm_unit_scope.specs.inside.Evaluating.{AreCyclic, AreWaiting, IsOrder, flag_at, waits_for};

use crate::flags::{flags_of, is_flagged};
use cmm_digraph::{Peeled, peel};
use cmm_items::Items;
use cmm_symbols::{Entry, Named};
use std::alloc::{AllocError, Global};

/// What a declaration waits for, of what it names.
fn waits_for<'a>(
    alloc: Global,
    cyclic: bool,
    entry: Entry<'a>,
    named: &[usize],
) -> Result<Items<usize>, AllocError>
    ensures { IfOk result (λ waits. waits ≡ waits_for cyclic (entry_shown entry.entry) named.now) }
{
    let Entry::Const(t, _) = entry else {
        return Ok(Items::new(alloc));
    };
    if cyclic && t.is_some() {
        return Ok(Items::new(alloc));
    }
    Items::from_slice(alloc, named)
}

/// For each declaration those that it waits for, where constants with a type that lead to a cycle wait for none.
fn waiting<'a>(
    alloc: Global,
    cyclic: &Items<bool>,
    declared: &[Named<'a, Entry<'a>>],
    graph: &[Items<usize>],
) -> Result<Items<Items<usize>>, AllocError>
    requires { graph.now ≡ graph_of (map shown declared.now) }
    ensures { IfOk result (AreWaiting (map shown declared.now) (flag_at cyclic.now)) }
{
    let mut waits = Items::new(alloc);
    for (number, named) in declared.iter().enumerate() {
        let flag = is_flagged(cyclic, number);
        waits.push(waits_for(alloc, flag, named.what, graph[number].as_slice())?)?;
    }
    Ok(waits)
}

/// An order in which what a constant waits for comes before it, and what is left over.
pub(crate) fn order_of<'a>(
    alloc: Global,
    cyclic: &Items<bool>,
    declared: &[Named<'a, Entry<'a>>],
    graph: &[Items<usize>],
) -> Result<Peeled, AllocError>
    requires { graph.now ≡ graph_of (map shown declared.now) }
    ensures { IfOk result (λ peeled. IsOrder (map shown declared.now) (flag_at cyclic.now) peeled.order peeled.left) }
{
    let waits = waiting(alloc, cyclic, declared, graph)?;
    peel(alloc, waits.as_slice())
}

/// Which constants are on a cycle or lead to one.
pub(crate) fn cyclic_in<'a>(
    alloc: Global,
    declared: &[Named<'a, Entry<'a>>],
    graph: &[Items<usize>],
) -> Result<Items<bool>, AllocError>
    requires { graph.now ≡ graph_of (map shown declared.now) }
    ensures { IfOk result (λ cyclic. AreCyclic (map shown declared.now) (flag_at cyclic)) }
{
    let nowhere = Items::new(alloc);
    let peeled = order_of(alloc, &nowhere, declared, graph)?;
    flags_of(alloc, declared.len(), peeled.left.as_slice())
}
