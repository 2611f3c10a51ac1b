//! Where a static rule is broken.

ghost use Rattle.std.specs.Prelude.{◌≡◌};
ghost use Rattle.cmm_static_semantics.specs.Spots.{comes_before, sooner};

use cmm_rules::Rule;

/// A rule that is broken, and where in a unit.
#[derive(Clone, Copy)]
pub struct Spot {
    /// The number of the token at which it is broken, from 0.
    pub token: u32,
    pub rule: Rule,
}

impl Spot {
    /// Whether it is named before another spot of the same unit: by its place, and at one place by the rule's number.
    pub fn comes_before(self, other: Spot) -> bool
        ensures { result ≡ comes_before self other }
    {
        self.token < other.token
            || (self.token == other.token && self.rule.number() < other.rule.number())
    }

    /// The one that is named of two, if there is one.
    pub fn sooner_of(a: Option<Spot>, b: Option<Spot>) -> Option<Spot>
        ensures { result ≡ sooner a b }
    {
        match (a, b) {
            (None, _) => b,
            (Some(_), None) => a,
            (Some(x), Some(y)) => { if y.comes_before(x) { b } else { a } }
        }
    }
}
