//! A unit laid flat, with its procedures.

ghost use Rattle.std.specs.Prelude.{◌≡◌, ◌++◌, flat_map, map, IfOk, OnOk};
ghost use Rattle.cmm_static_semantics.specs.Items.{items_of};
ghost use Rattle.cmm_symbols.specs.Shown.{thing_item, whats};
ghost use Rattle.cmm_proc_scope.specs.Procs.{item_procs, procs_of_items};

use crate::proc_names::ProcNames;
use cmm_ast::{Item, Proc, Unit};
use cmm_items::Items;
use cmm_symbols::{Thing, things_of};
use std::alloc::{AllocError, Global};
use std::marker::Model;

/// A unit with what stands in it, and with the names of each of its procedures. Contracts see its tree.
pub struct FlatUnit<'a> {
    tree: &'a Unit,
    things: Items<Thing<'a>>,
    procs: Items<ProcNames<'a>>,
}

/// In one place, so that whoever lets one go has one call to prove.
impl Drop for FlatUnit<'_> {
    fn drop(self) {
        let Self {
            tree: _,
            things: _,
            procs: _,
        } = self;
    }
}

impl<'a> Model for FlatUnit<'a> {
    ghost use Rattle.cmm_ast.specs.contracts.unit.Unit as unit_tree;
    ghost use Rattle.cmm_ast.specs.declared.unit.Unit.{Unit as UnitTree};

    ghost Value = { UnitTree };

    ghost coded = { unit_tree.the_row.coded };

    ghost use Rattle.cmm_proc_scope.specs.inside.UnitParts.{IsUnitFlat};

    ghost view = { λ u. u.tree.now };

    ghost invariant = { IsUnitFlat };
}

fn add_proc<'a>(
    alloc: Global,
    proc: &'a Proc,
    to: &mut Items<ProcNames<'a>>,
) -> Result<(), AllocError>
    ensures { OnOk result (to.new ≡ to.old ++ item_procs (Item.Proc proc.now)) }
{
    let names = ProcNames::of(alloc, proc)?;
    to.push(names)?;
    Ok(())
}

fn add_item<'a>(
    alloc: Global,
    item: &'a Item,
    to: &mut Items<ProcNames<'a>>,
) -> Result<(), AllocError>
    ensures { OnOk result (to.new ≡ to.old ++ item_procs item.now) }
{
    match item {
        Item::Proc(proc) => add_proc(alloc, proc, to),
        Item::Decl(_) => Ok(()),
        Item::Datum(_) => Ok(()),
        Item::Span { .. } => Ok(()),
    }
}

/// Adds the procedure that something in a unit is, if it is one.
fn add_thing<'a>(
    alloc: Global,
    thing: Thing<'a>,
    to: &mut Items<ProcNames<'a>>,
) -> Result<(), AllocError>
    ensures { OnOk result (to.new ≡ to.old ++ item_procs (thing_item thing.entry)) }
{
    match thing {
        Thing::Item(item) => add_item(alloc, item, to),
        Thing::Decl(_) => Ok(()),
        Thing::Proc(proc) => add_proc(alloc, proc, to),
    }
}

/// The procedures of a unit, in textual order.
fn procs_of<'a>(alloc: Global, things: &[Thing<'a>]) -> Result<Items<ProcNames<'a>>, AllocError>
    ensures { IfOk result (λ procs. procs ≡ flat_map item_procs (map thing_item things.now)) }
{
    let mut procs = Items::new(alloc);
    for thing in things {
        add_thing(alloc, *thing, &mut procs)?;
    }
    Ok(procs)
}

impl<'a> FlatUnit<'a> {
    /// A unit laid flat. Fails only for want of memory; a procedure that declares 2^32 names of a sort or more, which no memory has room for, fails
    /// so too.
    pub fn of(alloc: Global, tree: &'a Unit) -> Result<FlatUnit<'a>, AllocError>
        ensures { IfOk result (λ unit. unit ≡ tree.now) }
    {
        let things = things_of(alloc, tree)?;
        let procs = procs_of(alloc, things.as_slice())?;
        Ok(FlatUnit {
            tree,
            things,
            procs,
        })
    }

    /// Its tree.
    pub fn tree(&self) -> &'a Unit
        ensures { result.now ≡ self.now }
    {
        self.tree
    }

    /// What stands in it, in textual order.
    pub fn things(&self) -> &[Thing<'a>]
        ensures { map thing_item result.now ≡ whats (items_of self.now) }
    {
        self.things.as_slice()
    }

    /// Its procedures, in textual order.
    pub fn procs(&self) -> &[ProcNames<'a>]
        ensures { result.now ≡ procs_of_items (items_of self.now) }
    {
        self.procs.as_slice()
    }
}
