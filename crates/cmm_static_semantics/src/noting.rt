//! The first fault, kept while walking.

ghost use Rattle.std.specs.Prelude.{◌≡◌};
ghost use Rattle.cmm_static_semantics.specs.Spots.{first_of, unless};

use crate::spot::Spot;
use cmm_rules::Rule;

/// Notes that a rule is broken at a token, unless a test holds.
pub fn unless(best: &mut Option<Spot>, test: bool, rule: Rule, token: u32)
    ensures { best.new ≡ first_of best.old (unless test rule token) }
{
    if !test {
        *best = Spot::sooner_of(*best, Some(Spot { token, rule }));
    }
}
