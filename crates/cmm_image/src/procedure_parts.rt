//! The records of which a procedure's record is made.

ghost use Rattle.std.specs.Prelude.{◌≡◌, ◌==◌, ◌∷◌, [], nat_le, option_copied};
ghost use Rattle.std.specs.Option.{option_map};
ghost use Rattle.cmm_format.specs.Formats.{counted_at, ◌when◌};
ghost use Rattle.cmm_image.specs.ImageFormat.{saved_register, variable, stack_label, continuation, variable_number, is_pair as is_pair_offset, is_above, u8, formed};
ghost use Rattle.cmm_image.specs.Places.{leaves as leaves_in};
ghost use Rattle.cmm_format.specs.Reading.{Reads};

use crate::bounds::Bounds;
use crate::rows::{ContinuationRow, SavedRegister, StackLabelRow, VariableNumber, VariableRow};
use crate::widths::read_width;
use cmm_abi::registers::is_callee_saves;
use cmm_format::{Read, Reader, Unread, read_rows, require};
use cmm_items::Items;
use cmm_rules::Rule;

/// The most values of one call, return or continuation, and the most alternate exits of a site.
pub(crate) const VALUE_COUNT_LIMIT: u8 = 64;

impl Read<Bounds> for SavedRegister {
    ghost at = { λ bounds previous. (saved_register bounds.frame previous).at };

    fn read(
        reader: &mut Reader<'_>,
        bounds: &Bounds,
        previous: Option<&SavedRegister>,
    ) -> Result<SavedRegister, Unread> {
        let field = reader.left();
        let register = reader.u8(Rule::ImageIsCut)?;
        require(is_callee_saves(register), Rule::BadImageField, field)?;
        require(
            is_register_above(previous, register),
            Rule::BadImageField,
            field,
        )?;
        let field = reader.left();
        let offset = reader.u32(Rule::ImageIsCut)?;
        require(
            leaves(8, bounds.frame, offset),
            Rule::ImageOutOfRange,
            field,
        )?;
        Ok(SavedRegister { register, offset })
    }
}

/// Whether `size` bytes from an offset on lie in the frame.
pub(crate) fn leaves(count: u32, frame: u32, offset: u32) -> bool
    ensures { result ≡ leaves_in count frame offset }
{
    count <= frame && offset <= frame - count
}

/// Whether a register's number is above that of the one before, if there is one.
fn is_register_above(previous: Option<&SavedRegister>, register: u8) -> bool
    ensures { result ≡ is_above (option_map (λ s. s.register) (option_copied previous.entry)) register }
{
    match previous {
        None => true,
        Some(row) => row.register < register,
    }
}

impl Read<Bounds> for VariableRow {
    ghost at = { λ bounds previous. (variable previous).at };

    fn read(
        reader: &mut Reader<'_>,
        _bounds: &Bounds,
        _previous: Option<&VariableRow>,
    ) -> Result<VariableRow, Unread> {
        let width = read_width(reader)?;
        let field = reader.left();
        let invariant = reader.u8(Rule::ImageIsCut)?;
        require(invariant <= 1, Rule::BadImageField, field)?;
        let kind = reader.name(Rule::ImageIsCut)?;
        Ok(VariableRow {
            width,
            invariant: invariant == 1,
            kind,
        })
    }
}

impl Read<Bounds> for StackLabelRow {
    ghost at = { λ bounds previous. (stack_label bounds.frame previous).at };

    fn read(
        reader: &mut Reader<'_>,
        bounds: &Bounds,
        _previous: Option<&StackLabelRow>,
    ) -> Result<StackLabelRow, Unread> {
        let field = reader.left();
        let offset = reader.u32(Rule::ImageIsCut)?;
        require(offset <= bounds.frame, Rule::ImageOutOfRange, field)?;
        Ok(StackLabelRow { offset })
    }
}

impl Read<Bounds> for VariableNumber {
    ghost at = { λ bounds previous. (variable_number bounds.variables previous).at };

    fn read(
        reader: &mut Reader<'_>,
        bounds: &Bounds,
        _previous: Option<&VariableNumber>,
    ) -> Result<VariableNumber, Unread> {
        let field = reader.left();
        let number = reader.u16(Rule::ImageIsCut)?;
        require(
            usize::from(number) < bounds.variables,
            Rule::BadImageField,
            field,
        )?;
        Ok(VariableNumber(number))
    }
}

impl Read<Bounds> for ContinuationRow {
    ghost at = { λ bounds previous. (continuation bounds.code_length bounds.frame bounds.variables previous).at };

    fn read(
        reader: &mut Reader<'_>,
        bounds: &Bounds,
        _previous: Option<&ContinuationRow>,
    ) -> Result<ContinuationRow, Unread> {
        let field = reader.left();
        let pair = reader.u32(Rule::ImageIsCut)?;
        require(is_pair(bounds.frame, pair), Rule::ImageOutOfRange, field)?;
        let field = reader.left();
        let code = reader.u64(Rule::ImageIsCut)?;
        require(bounds.is_in_code(code), Rule::ImageOutOfRange, field)?;
        let field = reader.left();
        let count = reader.u8(Rule::ImageIsCut)?;
        require(count <= VALUE_COUNT_LIMIT, Rule::BadImageField, field)?;
        let parameters = read_rows(reader, bounds, usize::from(count))?;
        Ok(ContinuationRow {
            pair,
            code,
            parameters,
        })
    }
}

/// Whether a pair lies in the frame at an offset, which is a multiple of 8.
fn is_pair(frame: u32, offset: u32) -> bool
    ensures { result ≡ is_pair_offset frame offset }
{
    offset % 8 == 0 && leaves(16, frame, offset)
}
