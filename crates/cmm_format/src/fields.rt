//! The fields of which records are made, as bytes at the end of a vector.

ghost use Rattle.std.specs.Prelude.{◌≡◌, ◌++◌, length, flat_map, OnOk};
ghost use Rattle.cmm_words.specs.Widths.{bits};
ghost use Rattle.cmm_format.specs.Formats.{number_bytes, text_bytes};

use crate::record::{Write, write_rows};
use cmm_words::{Name, Width};
use std::alloc::AllocError;

/// A number of one byte.
#[tactic(auto, unfolding(crate::specs::Formats::number_bytes))]
pub fn put_u8(out: &mut Vec<u8>, number: u8) -> Result<(), AllocError>
    ensures { OnOk result (out.new.items ≡ out.old.items ++ number_bytes 1 number) }
{
    out.extend_from_slice(&number.to_le_bytes())
}

/// A number of two bytes.
#[tactic(auto, unfolding(crate::specs::Formats::number_bytes))]
pub fn put_u16(out: &mut Vec<u8>, number: u16) -> Result<(), AllocError>
    ensures { OnOk result (out.new.items ≡ out.old.items ++ number_bytes 2 number) }
{
    out.extend_from_slice(&number.to_le_bytes())
}

/// A number of four bytes.
#[tactic(auto, unfolding(crate::specs::Formats::number_bytes))]
pub fn put_u32(out: &mut Vec<u8>, number: u32) -> Result<(), AllocError>
    ensures { OnOk result (out.new.items ≡ out.old.items ++ number_bytes 4 number) }
{
    out.extend_from_slice(&number.to_le_bytes())
}

/// A number of eight bytes.
#[tactic(auto, unfolding(crate::specs::Formats::number_bytes))]
pub fn put_u64(out: &mut Vec<u8>, number: u64) -> Result<(), AllocError>
    ensures { OnOk result (out.new.items ≡ out.old.items ++ number_bytes 8 number) }
{
    out.extend_from_slice(&number.to_le_bytes())
}

/// The low byte of a count.
#[tactic(auto, unfolding(crate::specs::Formats::number_bytes))]
pub fn put_count8(out: &mut Vec<u8>, count: usize) -> Result<(), AllocError>
    ensures { OnOk result (out.new.items ≡ out.old.items ++ number_bytes 1 count) }
{
    out.extend_from_slice(&count.to_le_bytes()[..1])
}

/// The low two bytes of a count.
#[tactic(auto, unfolding(crate::specs::Formats::number_bytes))]
pub fn put_count16(out: &mut Vec<u8>, count: usize) -> Result<(), AllocError>
    ensures { OnOk result (out.new.items ≡ out.old.items ++ number_bytes 2 count) }
{
    out.extend_from_slice(&count.to_le_bytes()[..2])
}

/// The low four bytes of a count.
#[tactic(auto, unfolding(crate::specs::Formats::number_bytes))]
pub fn put_count32(out: &mut Vec<u8>, count: usize) -> Result<(), AllocError>
    ensures { OnOk result (out.new.items ≡ out.old.items ++ number_bytes 4 count) }
{
    out.extend_from_slice(&count.to_le_bytes()[..4])
}

/// A name, behind the count of its bytes.
#[tactic(auto, unfolding(crate::specs::Formats::text_bytes))]
pub fn put_name(out: &mut Vec<u8>, name: &Name) -> Result<(), AllocError>
    ensures { OnOk result (out.new.items ≡ out.old.items ++ text_bytes name.now) }
{
    put_count8(out, name.as_bytes().len())?;
    out.extend_from_slice(name.as_bytes())
}

/// A width, as its number of bits.
pub fn put_width(out: &mut Vec<u8>, width: Width) -> Result<(), AllocError>
    ensures { OnOk result (out.new.items ≡ out.old.items ++ number_bytes 1 (bits width)) }
{
    put_u8(
        out,
        match width {
            Width::W8 => 8,
            Width::W16 => 16,
            Width::W32 => 32,
            Width::W64 => 64,
        },
    )
}

impl Write for Width {
    ghost spelled = { λ w. number_bytes 1 (bits w) };

    fn write(&self, out: &mut Vec<u8>) -> Result<(), AllocError> {
        put_width(out, *self)
    }
}

/// Records, behind their count in one byte.
pub fn put_rows8<R: Write>(out: &mut Vec<u8>, rows: &[R]) -> Result<(), AllocError>
    ensures { OnOk result (out.new.items ≡ out.old.items ++ (number_bytes 1 (length rows.now) ++ flat_map R.spelled rows.now)) }
{
    put_count8(out, rows.len())?;
    write_rows(out, rows)
}

/// Records, behind their count in two bytes.
pub fn put_rows16<R: Write>(out: &mut Vec<u8>, rows: &[R]) -> Result<(), AllocError>
    ensures { OnOk result (out.new.items ≡ out.old.items ++ (number_bytes 2 (length rows.now) ++ flat_map R.spelled rows.now)) }
{
    put_count16(out, rows.len())?;
    write_rows(out, rows)
}
