//! Which bytes separate tokens, and which make them up.

ghost use Rattle.std.specs.Prelude.{◌≡◌};
ghost use Rattle.cmm_lexer.specs.Bytes.{is_separator as is_separator_of, is_digit as is_digit_of, begins_operator as begins_operator_of, is_operator_byte as is_operator_byte_of, begins_word as begins_word_of, is_word_byte as is_word_byte_of};

/// Space, tab, line feed, form feed or carriage return.
pub fn is_separator(byte: u8) -> bool
    ensures { result ≡ is_separator_of byte }
{
    matches!(byte, b' ' | b'\t' | b'\n' | b'\x0c' | b'\r')
}

pub fn is_digit(byte: u8) -> bool
    ensures { result ≡ is_digit_of byte }
{
    byte.is_ascii_digit()
}

/// A letter or `_`, with which the name of an operator begins.
pub fn begins_operator(byte: u8) -> bool
    ensures { result ≡ begins_operator_of byte }
{
    matches!(byte, b'a'..=b'z' | b'A'..=b'Z' | b'_')
}

/// A letter, digit or `_`.
pub fn is_operator_byte(byte: u8) -> bool
    ensures { result ≡ is_operator_byte_of byte }
{
    begins_operator(byte) || is_digit(byte)
}

/// A letter, `_`, `$` or `@`, which may not follow a number.
pub fn begins_word(byte: u8) -> bool
    ensures { result ≡ begins_word_of byte }
{
    begins_operator(byte) || byte == b'$' || byte == b'@'
}

/// What a name is made of but for dots.
pub fn is_word_byte(byte: u8) -> bool
    ensures { result ≡ is_word_byte_of byte }
{
    begins_word(byte) || is_digit(byte)
}
