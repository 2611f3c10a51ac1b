//! The procedures of a unit, with the spans around them (C-- Language Specification 2.0, spans).

ghost use Rattle.std.specs.Prelude.{◌≡◌, ◌∷◌, ◌++◌, [], List, flat_map, map, OnOk};
ghost use Rattle.std.specs.List.{All};
ghost use Rattle.cmm_ast.specs.declared.procedure.Proc.{Proc as ProcTree};
ghost use Rattle.cmm_static_semantics.specs.Items.{SpanTree, item_within, items_of, top_items};
ghost use Rattle.cmm_lower.specs.Fitting.{ItemFits, ProcFits};
ghost use Rattle.cmm_lower.specs.inside.Sections.{ItemAdded, ItemsAdded};
ghost use Rattle.cmm_elaboration.specs.Meaning.{item_procedures};
ghost use Rattle.cmm_elaboration.specs.Procedures as meaning;
ghost use Rattle.cmm_elaboration.specs.Sites.{innermost, span_value};
ghost use Rattle.cmm_proc_scope.specs.Procs.{BeginWith, procs_of_items};
ghost use Rattle.cmm_typing.specs.Fitting.{AreWords};

use crate::procedures::procedure_of;
use crate::spans::{SpanValue, with_span};
use cmm_ast::{Item, TopLevel};
use cmm_items::Items;
use cmm_lower_parts::span_value;
use cmm_proc_scope::{FlatUnit, ProcNames, ProcsLeft};
use cmm_program::Proc;
use cmm_typing::Names;
use std::alloc::{AllocError, Global};

/// Adds a procedure.
fn add_proc<N: Names>(
    alloc: Global,
    names: &N,
    unit: u32,
    own: &ProcNames<'_>,
    around: &[SpanValue],
    to: &mut Items<Proc>,
) -> Result<(), AllocError>
    requires { AreWords (N.senses names.now) }
    ensures { OnOk result ((spans : List SpanTree) → around.now ≡ innermost (map (span_value (N.senses names.now)) spans) → ProcFits (N.senses names.now) own.now →
        to.new ≡ to.old ++ meaning.procedure_of (N.senses names.now) unit spans own.now ∷ []) }
{
    let made = procedure_of(alloc, names, unit, around, own)?;
    to.push(made)?;
    Ok(())
}

/// Adds the first procedure that is left; none where none is.
fn add_next<N: Names>(
    alloc: Global,
    names: &N,
    unit: u32,
    left: &mut ProcsLeft<'_>,
    around: &[SpanValue],
    to: &mut Items<Proc>,
) -> Result<(), AllocError>
    requires { AreWords (N.senses names.now) }
    ensures left { OnOk result ((p : ProcTree) (rest : List ProcTree) → left.old ≡ p ∷ rest → left.new ≡ rest) }
    ensures procs { OnOk result ((p : ProcTree) (rest : List ProcTree) → left.old ≡ p ∷ rest → (spans : List SpanTree) →
        around.now ≡ innermost (map (span_value (N.senses names.now)) spans) → ProcFits (N.senses names.now) p →
        to.new ≡ to.old ++ meaning.procedure_of (N.senses names.now) unit spans p ∷ []) }
{
    match left.next() {
        Some(own) => add_proc(alloc, names, unit, own, around, to),
        None => Ok(()),
    }
}

/// Adds the procedures that an item of a section is or has inside it, which are the first that are left.
#[cycle(sections)]
fn add_item<N: Names>(
    alloc: Global,
    names: &N,
    unit: u32,
    item: &Item,
    left: &mut ProcsLeft<'_>,
    around: &[SpanValue],
    to: &mut Items<Proc>,
) -> Result<(), AllocError>
    requires { AreWords (N.senses names.now) }
    ensures left { OnOk result (BeginWith left.old (item_within [] item.now) → left.old ≡ procs_of_items (item_within [] item.now) ++ left.new) }
    ensures procs { OnOk result (BeginWith left.old (item_within [] item.now) → ItemAdded (N.senses names.now) unit around.now item.now to.old to.new) }
{
    match item {
        Item::Span {
            key,
            value,
            items,
            ..
        } => {
            let inside = with_span(alloc, span_value(names, key, value), around)?;
            add_items(
                alloc,
                names,
                unit,
                items.as_slice(),
                left,
                inside.as_slice(),
                to,
            )?;
            Ok(())
        }
        Item::Proc(_) => add_next(alloc, names, unit, left, around, to),
        Item::Decl(_) => Ok(()),
        Item::Datum(_) => Ok(()),
    }
}

#[cycle(sections)]
fn add_items<N: Names>(
    alloc: Global,
    names: &N,
    unit: u32,
    items: &[Item],
    left: &mut ProcsLeft<'_>,
    around: &[SpanValue],
    to: &mut Items<Proc>,
) -> Result<(), AllocError>
    requires { AreWords (N.senses names.now) }
    ensures left { OnOk result (BeginWith left.old (flat_map (item_within []) items.now) → left.old ≡ procs_of_items (flat_map (item_within []) items.now) ++ left.new) }
    ensures procs { OnOk result (BeginWith left.old (flat_map (item_within []) items.now) → ItemsAdded (N.senses names.now) unit around.now items.now items.now to.old to.new) }
{
    for item in items {
        add_item(alloc, names, unit, item, left, around, to)?;
    }
    Ok(())
}

/// Adds the procedures of a section, or one that stands alone.
fn add_part<N: Names>(
    alloc: Global,
    names: &N,
    unit: u32,
    part: &TopLevel,
    left: &mut ProcsLeft<'_>,
    to: &mut Items<Proc>,
) -> Result<(), AllocError>
    requires { AreWords (N.senses names.now) }
    ensures left { OnOk result (BeginWith left.old (top_items part.now) → left.old ≡ procs_of_items (top_items part.now) ++ left.new) }
    ensures procs { OnOk result (BeginWith left.old (top_items part.now) → All (λ i. ItemFits (N.senses names.now) i.what) (top_items part.now) →
        to.new ≡ to.old ++ flat_map (item_procedures (N.senses names.now) unit) (top_items part.now)) }
{
    match part {
        TopLevel::Section(section) => {
            add_items(alloc, names, unit, section.items.as_slice(), left, &[], to)
        }
        TopLevel::Decl(_) => Ok(()),
        TopLevel::Proc(_) => add_next(alloc, names, unit, left, &[], to),
    }
}

/// Adds the procedures of a unit that has this number, in which names mean what `names` tells. Fails only for want of memory.
pub fn add_procedures<N: Names>(
    alloc: Global,
    names: &N,
    unit: u32,
    flat: &FlatUnit<'_>,
    to: &mut Items<Proc>,
) -> Result<(), AllocError>
    requires { AreWords (N.senses names.now) }
    ensures { OnOk result (All (λ i. ItemFits (N.senses names.now) i.what) (items_of flat.now) →
        to.new ≡ to.old ++ flat_map (item_procedures (N.senses names.now) unit) (items_of flat.now)) }
{
    let mut left = ProcsLeft::all_of(&*flat);
    for part in flat.tree().parts.as_slice() {
        add_part(alloc, names, unit, part, &mut left, to)?;
    }
    Ok(())
}
