//! What stands in a unit, whatever it is nested in.

ghost use Rattle.std.specs.Prelude.{◌≡◌, ◌++◌, List, map, flat_map, IfOk, OnOk};
ghost use Rattle.cmm_static_semantics.specs.Items.{SpanTree, item_within, items_of, top_items};
ghost use Rattle.cmm_symbols.specs.Shown.{thing_item, whats};

use cmm_ast::{Decl, Item, Proc, TopLevel, Unit};
use cmm_items::Items;
use std::alloc::{AllocError, Global};

/// Something that stands in a unit: in a section, or alone.
#[derive(Clone, Copy)]
pub enum Thing<'a> {
    Item(&'a Item),
    Decl(&'a Decl),
    Proc(&'a Proc),
}

/// Adds an item of a section, a span before what stands inside it.
#[cycle(things)]
fn add_item<'a>(item: &'a Item, to: &mut Items<Thing<'a>>) -> Result<(), AllocError>
    ensures { OnOk result ((spans : List SpanTree) → map thing_item to.new ≡ map thing_item to.old ++ whats (item_within spans item.now)) }
{
    to.push(Thing::Item(item))?;
    match item {
        Item::Span { items, .. } => add_items(items.as_slice(), to),
        Item::Decl(_) => Ok(()),
        Item::Proc(_) => Ok(()),
        Item::Datum(_) => Ok(()),
    }
}

#[cycle(things)]
fn add_items<'a>(items: &'a [Item], to: &mut Items<Thing<'a>>) -> Result<(), AllocError>
    ensures { OnOk result ((spans : List SpanTree) → map thing_item to.new ≡ map thing_item to.old ++ whats (flat_map (item_within spans) items.now)) }
{
    for item in items {
        add_item(item, to)?;
    }
    Ok(())
}

fn add_part<'a>(part: &'a TopLevel, to: &mut Items<Thing<'a>>) -> Result<(), AllocError>
    ensures { OnOk result (map thing_item to.new ≡ map thing_item to.old ++ whats (top_items part.now)) }
{
    match part {
        TopLevel::Section(section) => add_items(section.items.as_slice(), to),
        TopLevel::Decl(decl) => Ok(to.push(Thing::Decl(decl))?),
        TopLevel::Proc(proc) => Ok(to.push(Thing::Proc(proc))?),
    }
}

/// What stands in a part of a unit, in textual order.
pub fn things_in<'a>(alloc: Global, part: &'a TopLevel) -> Result<Items<Thing<'a>>, AllocError>
    ensures { IfOk result (λ things. map thing_item things ≡ whats (top_items part.now)) }
{
    let mut things = Items::new(alloc);
    add_part(part, &mut things)?;
    Ok(things)
}

/// What stands in a unit, in textual order.
pub fn things_of<'a>(alloc: Global, unit: &'a Unit) -> Result<Items<Thing<'a>>, AllocError>
    ensures { IfOk result (λ things. map thing_item things ≡ whats (items_of unit.now)) }
{
    let mut things = Items::new(alloc);
    for part in unit.parts.as_slice() {
        add_part(part, &mut things)?;
    }
    Ok(things)
}
