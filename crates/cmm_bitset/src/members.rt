//! The members of a set, one by one.

ghost use Rattle.std.specs.Prelude.{◌≡◌};
ghost use Rattle.std.specs.Iterator.{YieldsFirst, item_count};
ghost use Rattle.cmm_bitset.specs.Sets.{members};

use crate::BitSet;
use std::marker::Model;

/// The members of a set that are left, in ascending order. Words of 64 numbers without a member take one step.
#[derive(Drop)]
pub struct Members<'a> {
    set: &'a BitSet,
    from: u32,
}

impl<'a> Model for Members<'a> {
    ghost use Rattle.std.specs.Prelude.{ℕ, List};
    ghost use Rattle.cmm_bitset.specs.Sets.{members_from};

    ghost Value = { List ℕ };

    ghost view = { λ left. members_from left.set.now left.from };
}

impl<'a> Members<'a> {
    /// All members of a set.
    pub fn of(set: &'a BitSet) -> Members<'a>
        ensures { result ≡ members set.now }
    {
        Members { set, from: 0 }
    }
}

impl<'a> Iterator for Members<'a> {
    type Item = u32;

    ghost next_gives = { YieldsFirst (λ left. left) };

    ghost remaining = { item_count (λ left. left) };

    fn next(&mut self) -> Option<u32> {
        let member = self.set.least_from(self.from)?;
        self.from = member + 1;
        Some(member)
    }
}
