//! Sets of numbers below a fixed size, a bit a number.
//!
//! Contracts see a set as a list of truth values, one a number below the size: `insert` and `remove` set one
//! of them, `join` is the union, done 64 numbers at a time, and answers whether the set grew. `has` of
//! `specs/Sets` says whether a number is a member.
//!
//! - `bit_set`: the sets. `members`: the members of a set in ascending order, one by one.
//! - `laws`: what each call does to membership, and that a set can grow only as often as it has numbers.
//! - `words`: the bits of 64-bit words, in which sets are kept.
#![tactic(auto)]

pub mod bit_set;
pub mod laws;
pub mod members;
mod words;

pub use bit_set::BitSet;
pub use members::Members;
