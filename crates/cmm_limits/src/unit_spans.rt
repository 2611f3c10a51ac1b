//! The tokens that have a span at the call sites of a unit.

ghost use Rattle.std.specs.Prelude.{◌≡◌, ◌∷◌, ◌++◌, [], List, flat_map, ℕ, IfOk, OnOk};
ghost use Rattle.cmm_ast.specs.declared.procedure.Proc.{Proc};
ghost use Rattle.cmm_static_semantics.specs.Declarations.{NamedUnit};
ghost use Rattle.cmm_static_semantics.specs.Items.{SpanTree, item_within, items_of, parts_in, top_items};
ghost use Rattle.cmm_static_semantics.specs.Limits as limits;
ghost use Rattle.cmm_static_semantics.specs.Limits.{tokens_of};
ghost use Rattle.cmm_static_semantics.specs.Statements.{scope_of};
ghost use Rattle.cmm_limits.specs.Capped.{capped};
ghost use Rattle.cmm_limits.specs.inside.InForce.{HasTokens};
ghost use Rattle.cmm_limits.specs.inside.OfUnits.{spans_in};
ghost use Rattle.cmm_proc_scope.specs.Procs.{BeginWith, procs_of_items};
ghost use Rattle.cmm_typing.specs.Fitting.{AreWords};

use crate::span_tokens::{in_block, number_or_zero, with_one_more};
use cmm_ast::{Item, TopLevel};
use cmm_items::Items;
use cmm_proc_scope::{FlatUnit, ProcNames, ProcsLeft};
use cmm_typing::Names;
use std::alloc::{AllocError, Global};

/// The different tokens at each call site of a procedure, added up, where `around` different ones are in force around it.
fn in_proc<N: Names>(
    names: &N,
    own: &ProcNames<'_>,
    tokens: &mut Items<u64>,
    different: u64,
) -> Result<u64, AllocError>
    requires { AreWords (N.senses names.now) }
    ensures tokens { OnOk result (tokens.new ≡ tokens.old) }
    ensures sum { IfOk result (λ sum. (around : List ℕ) → HasTokens tokens.old different around →
        sum ≡ capped (limits.site_tokens (scope_of (N.senses names.now) own.now) around (parts_in [] own.now.body))) }
{
    let body = &own.tree().body;
    in_block(body, &own.within(names), tokens, different)
}

/// The same of the first procedure that is left; nothing is added up where none is.
fn in_next<N: Names>(
    names: &N,
    left: &mut ProcsLeft<'_>,
    tokens: &mut Items<u64>,
    different: u64,
) -> Result<u64, AllocError>
    requires { AreWords (N.senses names.now) }
    ensures left { OnOk result ((p : Proc) (rest : List Proc) → left.old ≡ p ∷ rest → left.new ≡ rest) }
    ensures tokens { OnOk result (tokens.new ≡ tokens.old) }
    ensures sum { IfOk result (λ sum. (p : Proc) (rest : List Proc) → left.old ≡ p ∷ rest → (around : List ℕ) → HasTokens tokens.old different around →
        sum ≡ capped (limits.site_tokens (scope_of (N.senses names.now) p) around (parts_in [] p.body))) }
{
    match left.next() {
        Some(own) => in_proc(names, own, tokens, different),
        None => Ok(0),
    }
}

/// The different tokens at each call site of each procedure of an item, added up. Its procedures are the first that are left.
#[cycle(sections)]
fn in_item<N: Names>(
    names: &N,
    item: &Item,
    left: &mut ProcsLeft<'_>,
    tokens: &mut Items<u64>,
    different: u64,
) -> Result<u64, AllocError>
    requires { AreWords (N.senses names.now) }
    ensures left { OnOk result (BeginWith left.old (item_within [] item.now) → left.old ≡ procs_of_items (item_within [] item.now) ++ left.new) }
    ensures tokens { OnOk result (tokens.new ≡ tokens.old) }
    ensures sum { IfOk result (λ sum. BeginWith left.old (item_within [] item.now) → (spans : List SpanTree) → HasTokens tokens.old different (tokens_of (N.senses names.now) spans) →
        sum ≡ capped (spans_in (N.senses names.now) (item_within spans item.now))) }
{
    match item {
        Item::Span { key, items, .. } => {
            let token = number_or_zero(names, key);
            let inside = with_one_more(tokens.as_slice(), different, token);
            tokens.push(token)?;
            let sum = in_items(names, items.as_slice(), left, tokens, inside)?;
            tokens.pop();
            Ok(sum)
        }
        Item::Proc(_) => in_next(names, left, tokens, different),
        Item::Decl(_) => Ok(0),
        Item::Datum(_) => Ok(0),
    }
}

#[cycle(sections)]
fn in_items<N: Names>(
    names: &N,
    items: &[Item],
    left: &mut ProcsLeft<'_>,
    tokens: &mut Items<u64>,
    different: u64,
) -> Result<u64, AllocError>
    requires { AreWords (N.senses names.now) }
    ensures left { OnOk result (BeginWith left.old (flat_map (item_within []) items.now) → left.old ≡ procs_of_items (flat_map (item_within []) items.now) ++ left.new) }
    ensures tokens { OnOk result (tokens.new ≡ tokens.old) }
    ensures sum { IfOk result (λ sum. BeginWith left.old (flat_map (item_within []) items.now) → (spans : List SpanTree) → HasTokens tokens.old different (tokens_of (N.senses names.now) spans) →
        sum ≡ capped (spans_in (N.senses names.now) (flat_map (item_within spans) items.now))) }
{
    let mut sum: u64 = 0;
    for item in items {
        let more = in_item(names, item, left, tokens, different)?;
        sum = sum.saturating_add(more);
    }
    Ok(sum)
}

fn in_top_level<N: Names>(
    alloc: Global,
    names: &N,
    part: &TopLevel,
    left: &mut ProcsLeft<'_>,
) -> Result<u64, AllocError>
    requires { AreWords (N.senses names.now) }
    ensures left { OnOk result (BeginWith left.old (top_items part.now) → left.old ≡ procs_of_items (top_items part.now) ++ left.new) }
    ensures sum { IfOk result (λ sum. BeginWith left.old (top_items part.now) → sum ≡ capped (spans_in (N.senses names.now) (top_items part.now))) }
{
    let mut tokens = Items::new(alloc);
    match part {
        TopLevel::Section(section) => {
            in_items(names, section.items.as_slice(), left, &mut tokens, 0)
        }
        TopLevel::Decl(_) => Ok(0),
        TopLevel::Proc(_) => in_next(names, left, &mut tokens, 0),
    }
}

/// For each call site of a unit the different tokens that have a span there, added up. What would be 2^64 or more is given as 2^64 - 1.
/// Fails only for want of memory.
pub fn site_spans<N: Names>(
    alloc: Global,
    names: &N,
    unit: &FlatUnit<'_>,
) -> Result<u64, AllocError>
    requires { AreWords (N.senses names.now) }
    ensures { IfOk result (λ sum. (u : NamedUnit) → u.items ≡ items_of unit.now → sum ≡ capped (limits.site_spans (N.senses names.now) u)) }
{
    let mut left = ProcsLeft::all_of(&*unit);
    let mut sum: u64 = 0;
    for part in unit.tree().parts.as_slice() {
        let more = in_top_level(alloc, names, part, &mut left)?;
        sum = sum.saturating_add(more);
    }
    Ok(sum)
}
