//! Sets of numbers.

ghost use Rattle.std.specs.Prelude.{◌≡◌, ◌<◌, ◌^◌, true, false, Bool, List, length, replicate, slice_set, ◌+◌, [], ◌∷◌, IfOk, IfSome, MatchOption};
ghost use Rattle.std.specs.Bool.{OnTrue, OnFalse};
ghost use Rattle.cmm_bitset.specs.Sets.{has, union, members, members_from, member_count};

use crate::members::Members;
use crate::words::{self, WORD};
use std::alloc::{AllocError, Global};
use std::fmt;
use std::marker::Model;

/// A set of numbers below a size that is given when it is made.
pub struct BitSet {
    words: Vec<u64>,
    size: u32,
}

/// In one place, so that whoever lets one go has one call to prove.
impl Drop for BitSet {
    fn drop(self) {
        let Self { words: _, size: _ } = self;
    }
}

impl Model for BitSet {
    ghost use Rattle.std.specs.Prelude.{List, Bool};
    ghost use Rattle.cmm_bitset.specs.inside.Words.{set_of, IsTrimmed};

    ghost Value = { List Bool };

    ghost view = { λ set. set_of set.words.items set.size };

    ghost invariant = { λ set. IsTrimmed set.words.items set.size };
}

impl BitSet {
    /// The empty set of numbers below `size`.
    pub fn new(alloc: Global, size: u32) -> Result<BitSet, AllocError>
        ensures { IfOk result (λ set. set ≡ replicate size false) }
    {
        let words = vec![in alloc; 0; (size as usize).div_ceil(WORD)]?;
        Ok(BitSet { words, size })
    }

    /// How many numbers may be members: those below it.
    pub fn size(&self) -> u32
        ensures { result ≡ length self.now }
    {
        self.size
    }

    /// Whether a number is a member.
    pub fn has(&self, number: u32) -> bool
        requires { number < length self.now }
        ensures { result ≡ has self.now number }
    {
        let number = number as usize;
        self.words[number / WORD] >> (number % WORD) & 1 == 1
    }

    /// Makes a number a member, which it may be already.
    pub fn insert(&mut self, number: u32)
        requires { number < length self.old }
        ensures { self.new ≡ slice_set self.old number true }
    {
        let number = number as usize;
        self.words[number / WORD] |= 1 << (number % WORD);
    }

    /// Takes a number away, which need not be a member.
    pub fn remove(&mut self, number: u32)
        requires { number < length self.old }
        ensures { self.new ≡ slice_set self.old number false }
    {
        let number = number as usize;
        self.words[number / WORD] &= !(1 << (number % WORD));
    }

    /// Takes every member away.
    pub fn clear(&mut self)
        ensures { self.new ≡ replicate (length self.old) false }
    {
        self.words.fill(0);
    }

    /// Takes in the members of another set of the same size, and answers whether there were new ones.
    pub fn join(&mut self, other: &BitSet) -> bool
        requires { length self.old ≡ length other.now }
        ensures joined { self.new ≡ union self.old other.now }
        ensures grew { OnTrue result (member_count self.old < member_count self.new) }
        ensures settled { OnFalse result (self.new ≡ self.old) }
    {
        words::join(&mut self.words, &other.words)
    }

    /// The members in ascending order.
    pub fn iter(&self) -> Members<'_>
        ensures { result ≡ members self.now }
    {
        Members::of(self)
    }

    /// The least member from a number on.
    pub(crate) fn least_from(&self, from: u32) -> Option<u32>
        ensures least { MatchOption result
            (members_from self.now from ≡ [])
            (λ least. members_from self.now from ≡ least ∷ members_from self.now (least + 1)) }
        ensures within { IfSome result (λ least. least + 1 < 2 ^ 32) }
    {
        if from >= self.size {
            return None;
        }
        let least = words::lowest_from(&self.words, from as usize)?;
        Some(least as u32)
    }
}

impl fmt::Debug for BitSet {
    fn fmt<W: fmt::Write>(&self, f: &mut fmt::Formatter<W>) -> fmt::Result {
        f.debug_set().entries(self.iter()).finish()
    }
}
