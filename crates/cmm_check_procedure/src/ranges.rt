//! Faults of the ranges and arms of a switch.
#![tactic(auto, using(cmm_static_semantics::proofs::Shared::first_of_append))]

ghost use Rattle.std.specs.Prelude.{◌≡◌, ◌&&◌, ◌∷◌, List, map, nat_le, false, Option, option_map, IfOk, OnOk};
ghost use Rattle.cmm_static_semantics.specs.Expressions.{number_alone_spots};
ghost use Rattle.cmm_static_semantics.specs.Spots.{first_of};
ghost use Rattle.cmm_static_semantics.specs.Switches as switches;
ghost use Rattle.cmm_static_semantics.specs.Switches.{Extent as Shown};
ghost use Rattle.cmm_check_procedure.specs.Extents.{extents_of, meets_none_of, shown};
ghost use Rattle.cmm_check_procedure.specs.Heads.{arm_head};
ghost use Rattle.cmm_check_procedure.specs.inside.Arms.{arm_spots, before, is_defaulted, with_ranges};
ghost use Rattle.cmm_check_procedure.specs.inside.Earlier.{AreEarlier};
ghost use Rattle.cmm_typing.specs.Fitting.{AreWords};

use crate::extent::Extent;
use crate::extents::Extents;
use crate::number::{extent_of, number_at};
use cmm_ast::{Arm, Case, Expr, Range};
use cmm_rules::Rule;
use cmm_static_semantics::{Spot, unless};
use cmm_typing::{Names, note_number_alone};
use cmm_words::Width;
use std::alloc::AllocError;

/// A switch: what names mean in it, and, where they are not broken, the width of its value and what it is over.
#[derive(Drop)]
pub(crate) struct Switch<'a, N> {
    pub names: &'a N,
    pub width: Option<Width>,
    pub whole: Option<Extent>,
}

impl<'a, N: Names> Switch<'a, N> {
    fn range_extent(&self, range: &Range) -> Option<Extent>
        requires { AreWords (N.senses self.now.names.now) }
        ensures { option_map shown result ≡ switches.range_extent (N.senses self.now.names.now) self.now.width range.now }
    {
        let from = number_at(self.names, self.width, &range.from);
        match &range.to {
            Some(last) => extent_of(from, number_at(self.names, self.width, last)),
            None => extent_of(from, from),
        }
    }

    fn note_last(&self, last: &Option<Expr>, best: &mut Option<Spot>)
        requires { AreWords (N.senses self.now.names.now) }
        ensures { best.new ≡ first_of best.old (switches.last_spots (N.senses self.now.names.now) self.now.width last.now) }
    {
        match last {
            Some(last) => note_number_alone(self.names, self.width, last, best),
            None => {}
        }
    }

    fn contains(&self, extent: Extent) -> bool
        ensures { result ≡ switches.lies_in (N.senses self.now.names.now) self.now.width (option_map shown self.now.whole) (shown extent) }
    {
        match self.whole {
            Some(whole) => whole.low <= extent.low && extent.high <= whole.high,
            None => true,
        }
    }

    /// Whether a range doesn't fall, stays within what the switch is over and meets none before it.
    fn allows(&self, seen: &Extents, extent: Extent) -> bool
        ensures { result ≡ (nat_le extent.low extent.high && switches.lies_in (N.senses self.now.names.now) self.now.width (option_map shown self.now.whole) (shown extent) && meets_none_of (extents_of seen.now) (shown extent)) }
    {
        if extent.high < extent.low {
            return false;
        }
        let within = self.contains(extent);
        let apart = seen.meets_none(extent);
        within && apart
    }

    fn note_extent(
        &self,
        seen: &Extents,
        token: u32,
        extent: Option<Extent>,
        best: &mut Option<Spot>,
    )
        ensures { (earlier : List (Option Shown)) → AreEarlier seen.now earlier →
            best.new ≡ first_of best.old (switches.extent_spots (N.senses self.now.names.now) self.now.width (option_map shown self.now.whole) earlier token (option_map shown extent)) }
    {
        match extent {
            Some(extent) => {
                let allowed = self.allows(seen, extent);
                unless(best, allowed, Rule::ArmsOverlap, token);
            }
            None => {}
        }
    }

    /// Notes the faults of a range: those of its numbers, and rule 31. It is added to those before.
    fn note_range(
        &self,
        seen: &mut Extents,
        range: &Range,
        best: &mut Option<Spot>,
    ) -> Result<(), AllocError>
        requires { AreWords (N.senses self.now.names.now) }
        ensures spots { OnOk result ((earlier : List (Option Shown)) → AreEarlier seen.old earlier →
            best.new ≡ first_of best.old (switches.range_spots (N.senses self.now.names.now) self.now.width (option_map shown self.now.whole) earlier range.now)) }
        ensures seen { OnOk result ((earlier : List (Option Shown)) → AreEarlier seen.old earlier →
            AreEarlier seen.new (switches.range_extent (N.senses self.now.names.now) self.now.width range.now ∷ earlier)) }
    {
        note_number_alone(self.names, self.width, &range.from, best);
        self.note_last(&range.to, best);
        let extent = self.range_extent(range);
        self.note_extent(seen, range.from.token, extent, best);
        add_unbroken(seen, extent)
    }

    fn note_ranges(
        &self,
        seen: &mut Extents,
        ranges: &[Range],
        best: &mut Option<Spot>,
    ) -> Result<(), AllocError>
        requires { AreWords (N.senses self.now.names.now) }
        ensures spots { OnOk result ((earlier : List (Option Shown)) → AreEarlier seen.old earlier →
            best.new ≡ first_of best.old (switches.ranges_spots (N.senses self.now.names.now) self.now.width (option_map shown self.now.whole) earlier ranges.now)) }
        ensures seen { OnOk result ((earlier : List (Option Shown)) → AreEarlier seen.old earlier →
            AreEarlier seen.new (switches.with_extents (N.senses self.now.names.now) self.now.width ranges.now earlier)) }
    {
        for range in ranges {
            self.note_range(seen, range, best)?;
        }
        Ok(())
    }

    /// Notes the faults of an arm: those of its ranges, or rule 31 where it is a second `default`. The answer is whether there was one by now.
    fn note_arm(
        &self,
        seen: &mut Extents,
        defaulted: bool,
        arm: &Arm,
        best: &mut Option<Spot>,
    ) -> Result<bool, AllocError>
        requires { AreWords (N.senses self.now.names.now) }
        ensures spots { OnOk result ((earlier : List (Option Shown)) → AreEarlier seen.old earlier →
            best.new ≡ first_of best.old (arm_spots (N.senses self.now.names.now) self.now.width (option_map shown self.now.whole) (before earlier defaulted) (arm_head arm.now))) }
        ensures seen { OnOk result ((earlier : List (Option Shown)) → AreEarlier seen.old earlier →
            AreEarlier seen.new (with_ranges (N.senses self.now.names.now) self.now.width arm.now.case earlier)) }
        ensures defaulted { IfOk result (λ d. d ≡ is_defaulted defaulted arm.now.case) }
    {
        match &arm.case {
            Case::Ranges(ranges) => {
                self.note_ranges(seen, ranges.as_slice(), best)?;
                Ok(defaulted)
            }
            Case::Default => {
                unless(best, !defaulted, Rule::ArmsOverlap, arm.token);
                Ok(true)
            }
        }
    }

    pub fn note_arms(
        &self,
        seen: &mut Extents,
        arms: &[Arm],
        best: &mut Option<Spot>,
    ) -> Result<(), AllocError>
        requires { AreWords (N.senses self.now.names.now) }
        ensures { OnOk result ((earlier : List (Option Shown)) → AreEarlier seen.old earlier →
            best.new ≡ first_of best.old (switches.arms_spots (N.senses self.now.names.now) self.now.width (option_map shown self.now.whole) earlier false (map arm_head arms.now))) }
    {
        let mut defaulted = false;
        for arm in arms {
            defaulted = self.note_arm(seen, defaulted, arm, best)?;
        }
        Ok(())
    }
}

/// Adds the extent of a range to those before, where it is not broken.
fn add_unbroken(seen: &mut Extents, extent: Option<Extent>) -> Result<(), AllocError>
    ensures { OnOk result ((earlier : List (Option Shown)) → AreEarlier seen.old earlier → AreEarlier seen.new (option_map shown extent ∷ earlier)) }
{
    match extent {
        Some(extent) => seen.add(extent),
        None => Ok(()),
    }
}
