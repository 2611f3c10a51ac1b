//! Signed division by the host's, whose quotients are rounded toward zero.

ghost use Rattle.std.specs.Prelude.{◌≡◌, pos, ◌+ℤ◌};
ghost use Rattle.std.specs.Bool.{OnTrue, OnFalse};
ghost use Rattle.std.specs.Int.{w64, IsNonZero};
ghost use Rattle.cmm_words.specs.Widths.{IsWord};
ghost use Rattle.cmm_words.specs.Integers.{wrapped, quotient_down, quotient_toward_zero, remainder};
ghost use Rattle.cmm_words.specs.Words.{value2};

use crate::conversion::{to_signed, to_word};
use crate::operators::Op2;
use crate::width::Width;

/// Whether rounding toward zero rounds a quotient up: where it is negative and leaves a remainder.
fn rounds_up(dividend: i64, divisor: i64) -> bool
    requires { IsNonZero w64 divisor }
    ensures up { OnTrue result (quotient_toward_zero dividend divisor ≡ quotient_down dividend divisor +ℤ pos 1) }
    ensures same { OnFalse result (quotient_toward_zero dividend divisor ≡ quotient_down dividend divisor) }
{
    dividend.wrapping_rem(divisor) != 0 && (dividend < 0) != (divisor < 0)
}

/// A quotient rounded down. The least number by -1 gives the least number.
fn quotient_rounded_down(dividend: i64, divisor: i64) -> i64
    requires { IsNonZero w64 divisor }
    ensures { wrapped 64 result ≡ wrapped 64 (quotient_down dividend divisor) }
{
    let quotient = dividend.wrapping_div(divisor);
    if rounds_up(dividend, divisor) {
        quotient.wrapping_sub(1)
    } else {
        quotient
    }
}

/// The remainder of a quotient rounded down.
fn remainder_rounded_down(dividend: i64, divisor: i64) -> i64
    requires { IsNonZero w64 divisor }
    ensures { result ≡ remainder dividend divisor (quotient_down dividend divisor) }
{
    let remainder = dividend.wrapping_rem(divisor);
    if rounds_up(dividend, divisor) {
        remainder + divisor
    } else {
        remainder
    }
}

/// `Div`: the quotient rounded down.
pub(crate) fn divide_down(width: Width, left: u64, right: u64) -> Option<u64>
    requires left { IsWord width left }
    requires right { IsWord width right }
    ensures { result ≡ value2 Op2.Div width left right }
{
    if right == 0 {
        return None;
    }
    let quotient = quotient_rounded_down(to_signed(width, left), to_signed(width, right));
    Some(to_word(width, quotient))
}

/// `Mod`: the remainder of `Div`.
pub(crate) fn modulo_down(width: Width, left: u64, right: u64) -> Option<u64>
    requires left { IsWord width left }
    requires right { IsWord width right }
    ensures { result ≡ value2 Op2.Mod width left right }
{
    if right == 0 {
        return None;
    }
    let remainder = remainder_rounded_down(to_signed(width, left), to_signed(width, right));
    Some(to_word(width, remainder))
}

/// `Quot`: the quotient rounded toward zero.
pub(crate) fn divide_toward_zero(width: Width, left: u64, right: u64) -> Option<u64>
    requires left { IsWord width left }
    requires right { IsWord width right }
    ensures { result ≡ value2 Op2.Quot width left right }
{
    if right == 0 {
        return None;
    }
    let quotient = to_signed(width, left).wrapping_div(to_signed(width, right));
    Some(to_word(width, quotient))
}

/// `Rem`: the remainder of `Quot`.
pub(crate) fn modulo_toward_zero(width: Width, left: u64, right: u64) -> Option<u64>
    requires left { IsWord width left }
    requires right { IsWord width right }
    ensures { result ≡ value2 Op2.Rem width left right }
{
    if right == 0 {
        return None;
    }
    let remainder = to_signed(width, left).wrapping_rem(to_signed(width, right));
    Some(to_word(width, remainder))
}
