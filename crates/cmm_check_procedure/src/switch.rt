//! Faults of a switch.
#![tactic(auto, using(cmm_static_semantics::proofs::Shared::first_of_append))]

ghost use Rattle.std.specs.Prelude.{◌≡◌, map, option_map, OnOk};
ghost use Rattle.cmm_static_semantics.specs.Spots.{first_of};
ghost use Rattle.cmm_static_semantics.specs.Switches as switches;
ghost use Rattle.cmm_check_procedure.specs.Extents.{shown};
ghost use Rattle.cmm_check_procedure.specs.Heads.{arm_head};
ghost use Rattle.cmm_check_procedure.specs.inside.Falling.{falling_spots};
ghost use Rattle.cmm_typing.specs.Fitting.{AreWords};

use crate::extent::Extent;
use crate::extents::Extents;
use crate::number::{extent_of, number_at};
use crate::ranges::Switch;
use cmm_ast::{Arm, Span};
use cmm_rules::Rule;
use cmm_static_semantics::{Spot, unless};
use cmm_typing::{Names, note_number_alone};
use cmm_words::Width;
use std::alloc::{AllocError, Global};

/// What a switch is over, if it says so and that is not broken.
fn whole_extent<N: Names>(names: &N, width: Option<Width>, over: &Option<Span>) -> Option<Extent>
    requires { AreWords (N.senses names.now) }
    ensures { option_map shown result ≡ switches.whole_extent (N.senses names.now) width over.now }
{
    match over {
        Some(span) => extent_of(
            number_at(names, width, &span.from),
            number_at(names, width, &span.to),
        ),
        None => None,
    }
}

/// Notes that what a switch is over falls: rule 31.
fn note_falling(extent: Option<Extent>, token: u32, best: &mut Option<Spot>)
    ensures { best.new ≡ first_of best.old (falling_spots (option_map shown extent) token) }
{
    match extent {
        Some(extent) => unless(best, extent.low <= extent.high, Rule::ArmsOverlap, token),
        None => {}
    }
}

fn note_whole<N: Names>(
    names: &N,
    width: Option<Width>,
    over: &Option<Span>,
    best: &mut Option<Spot>,
)
    requires { AreWords (N.senses names.now) }
    ensures { best.new ≡ first_of best.old (switches.whole_spots (N.senses names.now) width over.now) }
{
    match over {
        Some(span) => {
            note_number_alone(names, width, &span.from, best);
            note_number_alone(names, width, &span.to, best);
            note_falling(whole_extent(names, width, over), span.from.token, best);
        }
        None => {}
    }
}

/// Notes the faults of what a switch is over and of its arms, where its value has this width, if it is not broken: those of the numbers
/// of its ranges, and rule 31. Fails only for want of memory.
pub fn note_switch<N: Names>(
    alloc: Global,
    names: &N,
    width: Option<Width>,
    over: &Option<Span>,
    arms: &[Arm],
    best: &mut Option<Spot>,
) -> Result<(), AllocError>
    requires { AreWords (N.senses names.now) }
    ensures { OnOk result (best.new ≡ first_of best.old (switches.switch_spots (N.senses names.now) width over.now (map arm_head arms.now))) }
{
    note_whole(names, width, over, best);
    let whole = whole_extent(names, width, over);
    let switch = Switch {
        names,
        width,
        whole,
    };
    let mut seen = Extents::new(alloc);
    switch.note_arms(&mut seen, arms, best)
}
