//! How far names reach, and what a text begins with.

ghost use Rattle.std.specs.Prelude.{◌≡◌, ◌+◌, ◌<◌, ◌≤◌, List, ℕ, length, nat_eq, IsTrue};
ghost use Rattle.std.specs.List.{prefix_len};
ghost use Rattle.cmm_lexer.specs.Bytes.{is_operator_byte as is_operator_byte_of, begins_word as begins_word_of, begins_operator as begins_operator_of, begins};
ghost use Rattle.cmm_lexer.specs.Spellings.{goes_on as goes_on_by, name_len as name_len_of};

use crate::bytes::{begins_operator, begins_word, is_operator_byte, is_word_byte};

/// How many bytes from the front go on a name.
pub fn name_len(text: &[u8]) -> usize
    ensures len { result ≡ name_len_of text.now }
    ensures within { result ≤ length text.now }
{
    let mut rest = text;
    while let Some((byte, after)) = rest.split_first() {
        if !goes_on(*byte, after) {
            break;
        }
        rest = after;
    }
    text.len() - rest.len()
}

/// Whether a byte goes on a name before this text: a dot does only where no dot follows.
pub fn goes_on(byte: u8, after: &[u8]) -> bool
    ensures { result ≡ goes_on_by byte after.now }
{
    is_word_byte(byte) || byte == b'.' && !begins_with(b'.', after)
}

/// Whether a text begins with a byte.
pub fn begins_with(byte: u8, text: &[u8]) -> bool
    ensures value { result ≡ begins (λ c. nat_eq c byte) text.now }
    ensures some { IsTrue result → 0 < length text.now }
{
    match text {
        [first, ..] => *first == byte,
        [] => false,
    }
}

/// Whether a text begins with what may not follow a number.
pub fn begins_with_word(text: &[u8]) -> bool
    ensures { result ≡ begins begins_word_of text.now }
{
    match text {
        [first, ..] => begins_word(*first),
        [] => false,
    }
}

/// Whether a text begins with the name of an operator.
pub fn begins_with_operator(text: &[u8]) -> bool
    ensures { result ≡ begins begins_operator_of text.now }
{
    match text {
        [first, ..] => begins_operator(*first),
        [] => false,
    }
}

/// How many bytes go on the name of an operator.
pub fn operator_len(text: &[u8]) -> usize
    ensures len { result ≡ prefix_len is_operator_byte_of text.now }
    ensures within { result ≤ length text.now }
{
    text.iter().take_while(|b| is_operator_byte(**b)).count()
}
