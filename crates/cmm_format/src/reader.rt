//! A reader over bytes: one field after another.

ghost use Rattle.std.specs.Prelude.{◌≡◌, length, Ok, Err, IfOk, MatchResult, true, false};
ghost use Rattle.cmm_format.specs.Formats.{number_at, block_at, text_at};
ghost use Rattle.cmm_format.specs.Reading.{Reads, Sees};
ghost use Rattle.cmm_format.specs.declared.fault.Unread.{Unread};

use crate::fault::{Broken, Unread};
use byteorder::{ByteOrder, LittleEndian};
use cmm_items::Items;
use cmm_rules::Rule;
use cmm_words::Name;
use std::alloc::Global;

/// The bytes that are left to read. A method takes a field from their front. Where they end inside it, the answer names the rule `cut`, and
/// how many bytes were left.
#[derive(Drop)]
pub struct Reader<'a> {
    pub alloc: Global,
    pub rest: &'a [u8],
}

impl<'a> Reader<'a> {
    /// How many bytes are left.
    pub fn left(&self) -> usize
        ensures { result ≡ length self.now.rest.now }
    {
        self.rest.len()
    }

    /// The next `count` bytes.
    #[tactic(auto, unfolding(crate::specs::Formats::block_at))]
    pub fn take(&mut self, cut: Rule, count: usize) -> Result<&'a [u8], Unread>
        ensures field { Sees (λ bytes. bytes.now) result (block_at cut count self.old.rest.now) self.new.rest.now }
        ensures count { IfOk result (λ bytes. length bytes.now ≡ count) }
    {
        if self.rest.len() < count {
            return Err(broken(cut, self.left()));
        }
        let (front, rest) = self.rest.split_at(count);
        self.rest = rest;
        Ok(front)
    }

    /// A number of one byte.
    #[tactic(auto, unfolding(crate::specs::Formats::number_at))]
    pub fn u8(&mut self, cut: Rule) -> Result<u8, Unread>
        ensures { Reads result (number_at cut 1 self.old.rest.now) self.new.rest.now }
    {
        match self.rest {
            [] => Err(broken(cut, self.left())),
            [number, rest @ ..] => {
                let number = *number;
                self.rest = rest;
                Ok(number)
            }
        }
    }

    /// A number of two bytes.
    #[tactic(auto, unfolding(crate::specs::Formats::number_at))]
    pub fn u16(&mut self, cut: Rule) -> Result<u16, Unread>
        ensures { Reads result (number_at cut 2 self.old.rest.now) self.new.rest.now }
    {
        if self.rest.len() < 2 {
            return Err(broken(cut, self.left()));
        }
        let number = LittleEndian::read_u16(self.rest);
        self.rest = &self.rest[2..];
        Ok(number)
    }

    /// A number of four bytes.
    #[tactic(auto, unfolding(crate::specs::Formats::number_at))]
    pub fn u32(&mut self, cut: Rule) -> Result<u32, Unread>
        ensures { Reads result (number_at cut 4 self.old.rest.now) self.new.rest.now }
    {
        if self.rest.len() < 4 {
            return Err(broken(cut, self.left()));
        }
        let number = LittleEndian::read_u32(self.rest);
        self.rest = &self.rest[4..];
        Ok(number)
    }

    /// A number of eight bytes.
    #[tactic(auto, unfolding(crate::specs::Formats::number_at))]
    pub fn u64(&mut self, cut: Rule) -> Result<u64, Unread>
        ensures { Reads result (number_at cut 8 self.old.rest.now) self.new.rest.now }
    {
        if self.rest.len() < 8 {
            return Err(broken(cut, self.left()));
        }
        let number = LittleEndian::read_u64(self.rest);
        self.rest = &self.rest[8..];
        Ok(number)
    }

    /// A count of one byte, and a name of as many bytes.
    #[tactic(auto, unfolding(crate::specs::Formats::text_at))]
    pub fn name(&mut self, cut: Rule) -> Result<Name, Unread>
        ensures { Reads result (text_at cut self.old.rest.now) self.new.rest.now }
    {
        match self.rest {
            [] => Err(broken(cut, self.left())),
            [count, rest @ ..] => {
                let count = usize::from(*count);
                if rest.len() < count {
                    return Err(broken(cut, self.left()));
                }
                let (text, rest) = rest.split_at(count);
                let name = Name::from_slice(self.alloc, text)?;
                self.rest = rest;
                Ok(name)
            }
        }
    }

    /// The next `count` bytes.
    pub fn bytes(&mut self, cut: Rule, count: usize) -> Result<Items<u8>, Unread>
        ensures { Reads result (block_at cut count self.old.rest.now) self.new.rest.now }
    {
        let bytes = self.take(cut, count)?;
        Ok(Items::from_slice(self.alloc, bytes)?)
    }
}

/// The answer that a rule is broken at the field from which on `left` bytes are left.
pub fn broken(rule: Rule, left: usize) -> Unread
    ensures { result ≡ Unread.Breaks (record { rule = rule; left = left }) }
{
    Unread::Breaks(Broken { rule, left })
}

/// Wants a condition of the field from which on `left` bytes are left.
pub fn require(holds: bool, rule: Rule, left: usize) -> Result<(), Unread>
    ensures { MatchResult result (λ _. holds ≡ true) (λ why. (holds ≡ false) × (why ≡ Unread.Breaks (record { rule = rule; left = left }))) }
{
    if holds {
        Ok(())
    } else {
        Err(broken(rule, left))
    }
}
