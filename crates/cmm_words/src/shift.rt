//! Shifts and rotations. A shift by the width or more shifts every bit out.

ghost use Rattle.std.specs.Prelude.{◌≡◌, Some};
ghost use Rattle.cmm_words.specs.Widths.{IsWord};
ghost use Rattle.cmm_words.specs.Words.{value2};

use crate::conversion::{low, to_signed, to_word};
use crate::operators::Op2;
use crate::width::Width;

/// A shift to the left.
pub(crate) fn shift_left(width: Width, word: u64, count: u64) -> u64
    requires { IsWord width word }
    ensures { value2 Op2.Shl width word count ≡ Some result }
{
    if count < width.bits() {
        low(width, word << count)
    } else {
        0
    }
}

/// A shift to the right that brings in zeros.
pub(crate) fn shift_right(width: Width, word: u64, count: u64) -> u64
    requires { IsWord width word }
    ensures { value2 Op2.Shrl width word count ≡ Some result }
{
    if count < width.bits() {
        word >> count
    } else {
        0
    }
}

/// A shift to the right that copies the top bit, so that a count past the width leaves copies of it.
pub(crate) fn shift_right_signed(width: Width, word: u64, count: u64) -> u64
    requires { IsWord width word }
    ensures { value2 Op2.Shra width word count ≡ Some result }
{
    to_word(width, to_signed(width, word) >> count.min(width.bits() - 1))
}

/// A rotation to the left, as two shifts. A count of 0 is apart, since no shift takes the whole width.
#[tactic(auto, using(crate::proofs::Rotations::or_shifts, crate::proofs::WidthLemmas::cut_64))]
pub(crate) fn rotate_left(width: Width, word: u64, count: u64) -> u64
    requires { IsWord width word }
    ensures { value2 Op2.Rotl width word count ≡ Some result }
{
    let count = count % width.bits();
    if count == 0 {
        word
    } else {
        low(width, word << count) | word >> (width.bits() - count)
    }
}

/// A rotation to the right is one to the left by what the count leaves of the width.
pub(crate) fn rotate_right(width: Width, word: u64, count: u64) -> u64
    requires { IsWord width word }
    ensures { value2 Op2.Rotr width word count ≡ Some result }
{
    rotate_left(width, word, width.bits() - count % width.bits())
}
