//! The bytes of data, and the fixes in them.

ghost use Rattle.std.specs.Prelude.{◌≡◌, ℕ, ◌+◌, ◌-◌, ◌*◌, ◌^◌, ◌<◌, ◌≤◌, ◌++◌, [], ◌∷◌, length, map, replicate, OnOk, IfOk};
ghost use Rattle.std.specs.List.{All};
ghost use Rattle.rv_table.specs.Memory.{data_base};
ghost use Rattle.cmm_words.specs.Widths.{bytes};
ghost use Rattle.cmm_program.specs.Layout.{aligned_up, bytes_of, datum_piece, end_of};
ghost use Rattle.cmm_data.specs.Conditions.{IsLayable, IsThere};
ghost use Rattle.cmm_data.specs.inside.Walking.{bytes_by, datum_by, fix_by, fixes_from, padded, unfilled, value_bytes, value_fixes};

use crate::fix::Fix;
use crate::labels::next_aligned;
use cmm_program::Datum;
use cmm_words::{Constant, Width};
use rv_table::memory_map::DATA_BASE;
use std::alloc::{AllocError, Global};

/// The data so far.
#[derive(Drop)]
pub struct Image {
    /// Its bytes, in which the addresses of procedures are 0.
    pub bytes: Vec<u8>,
    /// What waits in them, in its order.
    pub fixes: Vec<Fix>,
}

/// The bytes and the fixes of some data, where labels have these addresses.
pub fn image_of(alloc: Global, datums: &[Datum], addresses: &[u64]) -> Result<Image, AllocError>
    requires datums { All (IsLayable (length addresses.now)) datums.now }
    requires size { end_of data_base (map datum_piece datums.now) ≤ data_base + 2 ^ 32 }
    ensures bytes { IfOk result (λ image. image.bytes.items ≡ bytes_by (unfilled addresses.now) data_base datums.now) }
    ensures fixes { IfOk result (λ image. image.fixes.items ≡ fixes_from data_base datums.now) }
{
    let mut image = Image {
        bytes: Vec::new(alloc),
        fixes: Vec::new(alloc),
    };
    for datum in datums {
        image.align(datum.align)?;
        image.add_datum(datum, addresses)?;
    }
    Ok(image)
}

impl Image {
    /// Adds bytes that are 0 up to the next address that is a multiple of an alignment.
    fn align(&mut self, align: u32) -> Result<(), AllocError>
        requires align { 0 < align }
        requires size { length self.old.bytes.items ≤ 2 ^ 32 }
        ensures bytes { OnOk result (self.new.bytes.items ≡ self.old.bytes.items
            ++ replicate (aligned_up align (data_base + length self.old.bytes.items) - (data_base + length self.old.bytes.items)) 0) }
        ensures fixes { self.new.fixes.items ≡ self.old.fixes.items }
    {
        let place = DATA_BASE + self.bytes.len() as u64;
        self.add_zeros(next_aligned(align, place) - place)
    }

    /// Adds `count` bytes that are 0.
    fn add_zeros(&mut self, count: u64) -> Result<(), AllocError>
        requires size { length self.old.bytes.items ≤ 2 ^ 32 }
        requires count { count ≤ 2 ^ 33 }
        ensures bytes { OnOk result (self.new.bytes.items ≡ self.old.bytes.items ++ replicate count 0) }
        ensures fixes { self.new.fixes.items ≡ self.old.fixes.items }
    {
        let size = self.bytes.len() + count as usize;
        self.bytes.resize(size, 0)
    }

    /// Adds a datum, without padding.
    fn add_datum(&mut self, datum: &Datum, addresses: &[u64]) -> Result<(), AllocError>
        requires datum { IsLayable (length addresses.now) datum.now }
        requires room { length self.old.bytes.items + datum.now.length ≤ 2 ^ 32 }
        ensures bytes { OnOk result (self.new.bytes.items ≡ self.old.bytes.items ++ datum_by (unfilled addresses.now) datum.now) }
        ensures fixes { OnOk result (self.new.fixes.items ≡ self.old.fixes.items
            ++ value_fixes (length self.old.bytes.items) datum.now.width datum.now.values) }
    {
        if datum.values.is_empty() {
            self.add_zeros(u64::from(datum.length))
        } else {
            self.add_values(datum.width, datum.values.as_slice(), addresses)
        }
    }

    /// Adds the words of some values.
    fn add_values(
        &mut self,
        width: Width,
        values: &[Constant],
        addresses: &[u64],
    ) -> Result<(), AllocError>
        requires there { All (IsThere (length addresses.now)) values.now }
        requires room { length self.old.bytes.items + length values.now * bytes width ≤ 2 ^ 32 }
        ensures bytes { OnOk result (self.new.bytes.items ≡ self.old.bytes.items ++ value_bytes (unfilled addresses.now) width values.now) }
        ensures fixes { OnOk result (self.new.fixes.items ≡ self.old.fixes.items
            ++ value_fixes (length self.old.bytes.items) width values.now) }
    {
        for value in values {
            self.add_fix(value)?;
            self.add_word(width, word_of(value, addresses))?;
        }
        Ok(())
    }

    /// Adds the fix of a value that stands next, if it has one.
    fn add_fix(&mut self, value: &Constant) -> Result<(), AllocError>
        requires { length self.old.bytes.items < 2 ^ 32 }
        ensures bytes { self.new.bytes.items ≡ self.old.bytes.items }
        ensures fixes { OnOk result (self.new.fixes.items ≡ self.old.fixes.items ++ fix_by (length self.old.bytes.items) value.now) }
    {
        if let Constant::Code { proc, plus } = *value {
            self.fixes.push(Fix {
                place: self.bytes.len() as u32,
                procedure: proc,
                plus,
            })?;
        }
        Ok(())
    }

    /// Adds a word of a width, its lowest byte first.
    fn add_word(&mut self, width: Width, word: u64) -> Result<(), AllocError>
        ensures bytes { OnOk result (self.new.bytes.items ≡ self.old.bytes.items ++ bytes_of (bytes width) word) }
        ensures fixes { self.new.fixes.items ≡ self.old.fixes.items }
    {
        let bytes = word.to_le_bytes();
        self.bytes
            .extend_from_slice(&bytes[..width.bytes() as usize])
    }
}

/// The word of a value, where labels have these addresses: 0 for the address of a procedure.
fn word_of(value: &Constant, addresses: &[u64]) -> u64
    requires { IsThere (length addresses.now) value.now }
    ensures { result ≡ unfilled addresses.now value.now }
{
    match *value {
        Constant::Number(word, _) => word,
        Constant::Code { .. } => 0,
        Constant::Address { label, plus } => addresses[label as usize].wrapping_add(plus),
    }
}
