//! The operators, applied to words.

ghost use Rattle.std.specs.Prelude.{◌≡◌, ◌↔◌, IsTrue, IsNone, IfSome};
ghost use Rattle.cmm_words.specs.Widths.{IsWord};
ghost use Rattle.cmm_words.specs.Words.{value1, value2, is_division};

use crate::conversion::low;
use crate::division::{divide_down, divide_toward_zero, modulo_down, modulo_toward_zero};
use crate::operators::{Op1, Op2};
use crate::shift::{rotate_left, rotate_right, shift_left, shift_right, shift_right_signed};
use crate::width::Width;

/// What an operator gives at one word: `value1` of specs/Words.antt, a word again.
pub fn apply1(operator: Op1, width: Width, word: u64) -> u64
    requires { IsWord width word }
    ensures value { result ≡ value1 operator width word }
    ensures word { IsWord width result }
{
    match operator {
        Op1::Com => width.max() - word,
        Op1::Neg => low(width, word.wrapping_neg()),
    }
}

/// What an operator gives at two words: `value2` of specs/Words.antt, a word again. None comes exactly where the
/// operator is a division and the divisor is 0.
pub fn apply2(operator: Op2, width: Width, left: u64, right: u64) -> Option<u64>
    requires left { IsWord width left }
    requires right { IsWord width right }
    ensures value { result ≡ value2 operator width left right }
    ensures none { IsNone result ↔ (IsTrue (is_division operator) × (right ≡ 0)) }
    ensures word { IfSome result (IsWord width) }
{
    match operator {
        Op2::Add => Some(low(width, left.wrapping_add(right))),
        Op2::Sub => Some(low(width, left.wrapping_sub(right))),
        Op2::Mul => Some(low(width, left.wrapping_mul(right))),
        Op2::And => Some(left & right),
        Op2::Or => Some(left | right),
        Op2::Xor => Some(left ^ right),
        Op2::Shl => Some(shift_left(width, left, right)),
        Op2::Shrl => Some(shift_right(width, left, right)),
        Op2::Shra => Some(shift_right_signed(width, left, right)),
        Op2::Rotl => Some(rotate_left(width, left, right)),
        Op2::Rotr => Some(rotate_right(width, left, right)),
        Op2::Divu => left.checked_div(right),
        Op2::Modu => left.checked_rem(right),
        Op2::Div => divide_down(width, left, right),
        Op2::Mod => modulo_down(width, left, right),
        Op2::Quot => divide_toward_zero(width, left, right),
        Op2::Rem => modulo_toward_zero(width, left, right),
    }
}
