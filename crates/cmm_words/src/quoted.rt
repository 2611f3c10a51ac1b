//! Bytes as a reader sees them.

use std::fmt;

/// Bytes that print as a text literal: between quotes, a quote and a backslash after a backslash, a byte that is no printable character
/// of ASCII as `\x` and two hexadecimal digits.
#[derive(Clone, Copy)]
pub struct Quoted<'a>(pub &'a [u8]);

impl fmt::Debug for Quoted<'_> {
    fn fmt<W: fmt::Write>(&self, f: &mut fmt::Formatter<W>) -> fmt::Result {
        f.write_str("\"")?;
        for byte in self.0 {
            write_byte(*byte, f)?;
        }
        f.write_str("\"")
    }
}

/// Writes a byte as it stands in a text literal.
fn write_byte<W: fmt::Write>(byte: u8, f: &mut fmt::Formatter<W>) -> fmt::Result {
    match byte {
        b'"' => f.write_str("\\\""),
        b'\\' => f.write_str("\\\\"),
        b' '..=b'~' => f.write_char(char::from(byte)),
        _ => write!(f, "\\x{byte:02x}"),
    }
}
