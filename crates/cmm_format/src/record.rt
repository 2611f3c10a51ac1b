//! What is read and written alike, record after record.

ghost use Rattle.std.specs.Prelude.{◌≡◌, ℕ, ◌++◌, List, Option, None, OnOk, option_copied, flat_map};
ghost use Rattle.cmm_format.specs.Formats.{Front, rows_at, counted_at, number_at};
ghost use Rattle.cmm_format.specs.Reading.{Reads};

use crate::fault::Unread;
use crate::reader::Reader;
use cmm_items::Items;
use cmm_rules::Rule;
use std::alloc::AllocError;

/// A record whose bytes may depend on what stands before it.
pub trait Read<C>: Sized + Drop {
    /// What stands at the front of bytes, behind what came before and the record before.
    ghost at: { C → Option Self → List ℕ → Front Self };

    /// Takes the record from the front of the bytes.
    fn read(reader: &mut Reader<'_>, context: &C, previous: Option<&Self>) -> Result<Self, Unread>
        ensures { Reads result (at context.now (option_copied previous.entry) reader.old.rest.now) reader.new.rest.now };
}

/// A record that has bytes.
pub trait Write {
    ghost spelled: { Self → List ℕ };

    /// Adds the record's bytes.
    fn write(&self, out: &mut Vec<u8>) -> Result<(), AllocError>
        ensures { OnOk result (out.new.items ≡ out.old.items ++ spelled self.now) };
}

/// A list of `count` records, one after another.
pub fn read_rows<C, R: Read<C>>(
    reader: &mut Reader<'_>,
    context: &C,
    count: usize,
) -> Result<Items<R>, Unread>
    ensures { Reads result (rows_at (R.at context.now) count None reader.old.rest.now) reader.new.rest.now }
{
    let mut rows = Vec::new(reader.alloc);
    for _ in 0..count {
        let row = R::read(reader, context, rows.last())?;
        rows.push(row)?;
    }
    Ok(Items::from_vec(rows))
}

/// A count of one byte, and as many records.
pub fn read_rows8<C, R: Read<C>>(
    reader: &mut Reader<'_>,
    cut: Rule,
    context: &C,
) -> Result<Items<R>, Unread>
    ensures { Reads result (counted_at (number_at cut 1) (R.at context.now) reader.old.rest.now) reader.new.rest.now }
{
    let count = reader.u8(cut)?;
    read_rows(reader, context, usize::from(count))
}

/// A count of two bytes, and as many records.
pub fn read_rows16<C, R: Read<C>>(
    reader: &mut Reader<'_>,
    cut: Rule,
    context: &C,
) -> Result<Items<R>, Unread>
    ensures { Reads result (counted_at (number_at cut 2) (R.at context.now) reader.old.rest.now) reader.new.rest.now }
{
    let count = reader.u16(cut)?;
    read_rows(reader, context, usize::from(count))
}

/// The bytes of records, one after another.
pub fn write_rows<R: Write>(out: &mut Vec<u8>, rows: &[R]) -> Result<(), AllocError>
    ensures { OnOk result (out.new.items ≡ out.old.items ++ flat_map R.spelled rows.now) }
{
    for row in rows {
        row.write(out)?;
    }
    Ok(())
}
