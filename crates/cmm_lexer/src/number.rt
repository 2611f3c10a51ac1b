//! Numbers.

ghost use Rattle.std.specs.Prelude.{◌≡◌, ◌≤◌, length};
ghost use Rattle.std.specs.List.{prefix_len};
ghost use Rattle.cmm_lexer.specs.Numbers.{radix_of as radix_in, digits_start as digits_start_of, is_digit_at as is_digit_in};

use crate::bytes::is_digit;
use cmm_words::Radix;

/// In which base the number at the front of a text is written.
pub fn radix_of(text: &[u8]) -> Radix
    ensures radix { result ≡ radix_in text.now }
    ensures within { digits_start_of result ≤ length text.now }
{
    match text {
        [b'0', b'x' | b'X', ..] => Radix::Hexadecimal,
        [b'0', ..] => Radix::Octal,
        _ => Radix::Decimal,
    }
}

/// How many bytes stand before the digits of a number.
pub fn digits_start(radix: Radix) -> usize
    ensures { result ≡ digits_start_of radix }
{
    match radix {
        Radix::Hexadecimal => 2,
        Radix::Octal | Radix::Decimal => 0,
    }
}

/// Whether a byte goes on the digits of a number. In an octal number so do the misplaced digits 8 and 9.
pub fn is_digit_at(radix: Radix, byte: u8) -> bool
    ensures { result ≡ is_digit_in radix byte }
{
    is_digit(byte) || radix.is_digit(byte)
}

/// How many digits stand at the front of a text.
pub fn digits_len(radix: Radix, text: &[u8]) -> usize
    ensures len { result ≡ prefix_len (is_digit_in radix) text.now }
    ensures within { result ≤ length text.now }
{
    text.iter()
        .take_while(|byte| is_digit_at(radix, **byte))
        .count()
}
