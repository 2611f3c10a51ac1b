//! Sets of extents, asked whether others meet any of them.

ghost use Rattle.std.specs.Prelude.{◌≡◌, ◌≤◌, ◌&&◌, map, true, IsTrue, OnOk};
ghost use Rattle.std.specs.List.{list_all};
ghost use Rattle.cmm_static_semantics.specs.Switches.{Extent as Shown};
ghost use Rattle.cmm_check_procedure.specs.InOrder.{are_in_order};

use crate::extent::Extent;
use cmm_items::Items;
use std::alloc::{AllocError, Global};
use std::collections::BTreeMap;

/// A set of extents. Those that neither fall nor meet one that was added before are kept by their first numbers; the others,
/// which no switch of an accepted program has, are kept in a list.
#[derive(Drop)]
pub struct Extents {
    sorted: BTreeMap<u64, u64>,
    others: Items<Extent>,
    ghost in_order: { IsTrue (are_in_order sorted.entries) },
}

impl Extents {
    ghost use Rattle.cmm_check_procedure.specs.Extents.{are_apart, extents_of, meets_none_of, pair_extent, shown};

    /// No extents. Takes no memory.
    pub fn new(alloc: Global) -> Extents
        ensures { (x : Shown) → meets_none_of (extents_of result) x ≡ true }
    {
        Extents {
            sorted: BTreeMap::new(alloc),
            others: Items::new(alloc),
        }
    }

    /// Whether an extent that doesn't fall has no number in common with any of the sorted ones: with the last that begins no later than
    /// it ends.
    fn meets_no_sorted(&self, extent: Extent) -> bool
        requires { extent.low ≤ extent.high }
        ensures { result ≡ meets_none_of (map pair_extent self.now.sorted.entries) (shown extent) }
    {
        match self.sorted.range(..=extent.high).next_back() {
            Some((_, last)) => *last < extent.low,
            None => true,
        }
    }

    /// Whether an extent has no number in common with any of the others.
    fn meets_no_other(&self, extent: Extent) -> bool
        ensures { result ≡ list_all (λ other. are_apart (shown other) (shown extent)) self.now.others }
    {
        self.others.iter().all(|other| other.is_apart_from(extent))
    }

    /// Whether an extent that doesn't fall has no number in common with any of these.
    pub fn meets_none(&self, extent: Extent) -> bool
        requires { extent.low ≤ extent.high }
        ensures { result ≡ meets_none_of (extents_of self.now) (shown extent) }
    {
        let no_other = self.meets_no_other(extent);
        self.meets_no_sorted(extent) && no_other
    }

    /// Adds an extent.
    pub fn add(&mut self, extent: Extent) -> Result<(), AllocError>
        ensures { OnOk result ((x : Shown) → meets_none_of (extents_of self.new) x ≡ (are_apart (shown extent) x && meets_none_of (extents_of self.old) x)) }
    {
        if extent.low <= extent.high && self.meets_no_sorted(extent) {
            self.sorted.insert(extent.low, extent.high)?;
        } else {
            self.others.push(extent)?;
        }
        Ok(())
    }
}
