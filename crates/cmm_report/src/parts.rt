//! Texts of the log, made of parts.

ghost use Rattle.std.specs.Prelude.{◌≡◌, flat_map};
ghost use Rattle.cmm_outside.specs.Output.{WritesAll};
ghost use Rattle.cmm_report.specs.Parts.{part_text};

use crate::{put_address, put_kind, put_number};
use cmm_outside::{Failed, Sink, write_all};

/// A part of a text.
#[derive(Clone, Copy)]
pub enum Part<'a> {
    /// These bytes.
    Text(&'a [u8]),
    /// A number in decimal.
    Number(u64),
    /// An address, in 16 hexadecimal digits.
    Address(u64),
    /// A kind, as it stands between its quotes.
    Kind(&'a [u8]),
}

/// Writes the parts, one after another.
pub fn write_parts<E: Sink>(log: &mut E, parts: &[Part]) -> Result<(), Failed>
    ensures { WritesAll E.taken E.faults log.old log.new (flat_map part_text parts.now) result }
{
    for part in parts {
        write_part(log, part)?;
    }
    Ok(())
}

fn write_part<E: Sink>(log: &mut E, part: &Part) -> Result<(), Failed>
    ensures { WritesAll E.taken E.faults log.old log.new (part_text part.now) result }
{
    match *part {
        Part::Text(bytes) => write_all(log, bytes),
        Part::Number(number) => put_number(log, number),
        Part::Address(address) => put_address(log, address),
        Part::Kind(kind) => put_kind(log, kind),
    }
}
