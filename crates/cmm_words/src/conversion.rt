//! Words of one width as words of another, and as signed numbers.

ghost use Rattle.std.specs.Prelude.{◌≡◌, ◌≤◌};
ghost use Rattle.cmm_words.specs.Widths.{bits, IsWord};
ghost use Rattle.cmm_words.specs.Integers.{signed, wrapped};
ghost use Rattle.cmm_words.specs.Words.{low_bits, sign_extended};

use crate::width::Width;

/// The low bits of a number, as many as the width has: the number modulo 2 to the width.
pub fn low(width: Width, value: u64) -> u64
    ensures { result ≡ low_bits width value }
{
    value & width.max()
}

/// Extends a word to a width that is not less, by its top bit, so that its signed reading stays the same.
pub fn extend(from: Width, to: Width, word: u64) -> u64
    requires not_wider { bits from ≤ bits to }
    requires word { IsWord from word }
    ensures { result ≡ sign_extended from to word }
{
    if word <= from.max() / 2 {
        word
    } else {
        word + (to.max() - from.max())
    }
}

/// A word read as a signed number.
pub(crate) fn to_signed(width: Width, word: u64) -> i64
    requires { IsWord width word }
    ensures { result ≡ signed (bits width) word }
{
    extend(width, Width::W64, word).cast_signed()
}

/// The word of this width that a signed number is modulo 2 to the width.
pub(crate) fn to_word(width: Width, number: i64) -> u64
    ensures { result ≡ wrapped (bits width) number }
{
    low(width, number.cast_unsigned())
}
