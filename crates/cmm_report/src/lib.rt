//! The parts of a line of the log, numbers, addresses and kinds, and the line of a yield.
//!
//! Each call writes its text to a sink whole, or answers that a write failed. Then the sink has taken a front of the text, and its
//! count of faults rose: no call fails of itself. `specs/Texts` says what the texts are, and `specs/Parts` those of parts.
//!
//! - `parts`: `Part`, and texts that are made of parts.
#![tactic(auto)]

mod parts;

ghost use Rattle.std.specs.Prelude.{◌≡◌, false, flat_map, decimal};
ghost use Rattle.cmm_outside.specs.Output.{WritesAll};
ghost use Rattle.cmm_report.specs.Texts.{address_text, value_text};
ghost use Rattle.cmm_script.specs.Kinds.{is_plain as is_plain_byte, kind_byte, kind_text};
ghost use Rattle.cmm_script.specs.Lines.{yield_line};

use cmm_outside::{Failed, Sink, write_all};
use itoa::Buffer;
pub use parts::{Part, write_parts};

/// Writes a number in decimal, without leading zeros.
pub fn put_number<E: Sink>(to: &mut E, n: u64) -> Result<(), Failed>
    ensures { WritesAll E.taken E.faults to.old to.new (decimal n) result }
{
    let mut buffer = Buffer::new();
    write_all(to, buffer.format(n).as_bytes())
}

/// Writes an address: 16 lower-case hexadecimal digits, without prefix.
pub fn put_address<E: Sink>(to: &mut E, n: u64) -> Result<(), Failed>
    ensures { WritesAll E.taken E.faults to.old to.new (address_text n) result }
{
    write_all(to, &address_digits(n))
}

/// Writes the line of a yield: its values after the word, each behind a space.
pub fn put_yield<E: Sink>(to: &mut E, values: &[u64]) -> Result<(), Failed>
    ensures { WritesAll E.taken E.faults to.old to.new (yield_line values.now) result }
{
    write_all(to, b"yield")?;
    put_values(to, values)?;
    write_all(to, b"\n")
}

/// Writes each value behind a space.
fn put_values<E: Sink>(to: &mut E, values: &[u64]) -> Result<(), Failed>
    ensures { WritesAll E.taken E.faults to.old to.new (flat_map value_text values.now) result }
{
    for value in values {
        put_value(to, *value)?;
    }
    Ok(())
}

/// Writes a value behind a space.
fn put_value<E: Sink>(to: &mut E, value: u64) -> Result<(), Failed>
    ensures { WritesAll E.taken E.faults to.old to.new (value_text value) result }
{
    write_all(to, b" ")?;
    put_number(to, value)
}

/// Writes the bytes of a kind as they stand between its quotes: bytes 32 to 126 but `"` and `\` as they are, any other as `\x` and
/// two lower-case hexadecimal digits.
pub fn put_kind<E: Sink>(to: &mut E, kind: &[u8]) -> Result<(), Failed>
    ensures { WritesAll E.taken E.faults to.old to.new (kind_text kind.now) result }
{
    for byte in kind {
        put_kind_byte(to, *byte)?;
    }
    Ok(())
}

/// Writes a byte of a kind.
fn put_kind_byte<E: Sink>(to: &mut E, byte: u8) -> Result<(), Failed>
    ensures { WritesAll E.taken E.faults to.old to.new (kind_byte byte) result }
{
    if is_plain(byte) {
        write_all(to, &[byte])
    } else {
        write_all(to, &escape(byte))
    }
}

fn is_plain(byte: u8) -> bool
    ensures { result ≡ is_plain_byte byte }
{
    matches!(byte, b' '..=b'~') && byte != b'"' && byte != b'\\'
}

/// A byte that is not plain, as `\x` and two digits.
fn escape(byte: u8) -> [u8; 4]
    requires { is_plain_byte byte ≡ false }
    ensures { result ≡ kind_byte byte }
{
    let mut digits = [b'0'; 2];
    let _ = hex::encode_to_slice([byte], &mut digits);
    [b'\\', b'x', digits[0], digits[1]]
}

/// The 16 digits of an address.
fn address_digits(n: u64) -> [u8; 16]
    ensures { result ≡ address_text n }
{
    let mut digits = [b'0'; 16];
    let _ = hex::encode_to_slice(n.to_be_bytes(), &mut digits);
    digits
}
