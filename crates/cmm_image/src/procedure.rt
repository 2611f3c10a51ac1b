//! The records of procedures.

ghost use Rattle.std.specs.Prelude.{◌≡◌, ◌==◌, ◌%◌, [], ◌∷◌, None, nat_le, nat_lt, length, option_copied};
ghost use Rattle.std.specs.Option.{option_map};
ghost use Rattle.cmm_rules.specs.declared.rule.Rule.TheVariants.{ImageIsCut};
ghost use Rattle.cmm_format.specs.Formats.{counted_at, optional, ◌when◌};
ghost use Rattle.cmm_image.specs.ImageFormat.{procedure, saved_register, variable, stack_label, continuation, variable_number, width, u16, u32, u64, u8, above, formed, in_code, within, is_above as is_number_above, no_return, is_return_offset};
ghost use Rattle.cmm_format.specs.Reading.{Reads};

use crate::bounds::Bounds;
use crate::procedure_parts::leaves;
use crate::rows::{
    ContinuationRow, ProcRow, SavedRegister, StackLabelRow, VariableNumber, VariableRow,
};
use cmm_format::{Read, Reader, Unread, read_rows, read_rows8, read_rows16, require};
use cmm_items::Items;
use cmm_rules::Rule;
use cmm_words::Width;

/// The largest frame.
const FRAME_LIMIT: u32 = 0x1000_0000;

/// The most variables of a procedure.
const VARIABLE_COUNT_LIMIT: u16 = 1024;

/// In the place of an offset: the procedure does not save its return address.
pub(crate) const NO_RETURN: u32 = 0xFFFF_FFFF;

impl Read<Bounds> for ProcRow {
    ghost at = { λ bounds previous. (procedure bounds.code_length previous).at };

    fn read(
        reader: &mut Reader<'_>,
        bounds: &Bounds,
        previous: Option<&ProcRow>,
    ) -> Result<ProcRow, Unread> {
        let code = code_address(reader, bounds, code_of(previous))?;
        let name = reader.name(Rule::ImageIsCut)?;
        let frame = frame_size(reader)?;
        let return_at = return_offset(reader, frame)?;
        let bounds = Bounds { frame, ..*bounds };
        let saved = read_rows8(reader, Rule::ImageIsCut, &bounds)?;
        let variables = variables(reader, &bounds)?;
        let stack_labels = read_rows16(reader, Rule::ImageIsCut, &bounds)?;
        let continuations = continuations(reader, &bounds, &variables)?;
        Ok(ProcRow {
            code,
            name,
            frame,
            return_at,
            saved,
            variables,
            stack_labels,
            continuations,
        })
    }
}

/// The address of a procedure's code, if there is the procedure.
fn code_of(row: Option<&ProcRow>) -> Option<u64>
    ensures { result ≡ option_map (λ p. p.code) (option_copied row.entry) }
{
    match row {
        None => None,
        Some(row) => Some(row.code),
    }
}

/// The address of a procedure's code, behind the procedure whose code has the address `before`, if there is one.
pub(crate) fn code_address(
    reader: &mut Reader<'_>,
    bounds: &Bounds,
    before: Option<u64>,
) -> Result<u64, Unread>
    ensures { Reads result ((u64 when (above before ∷ in_code bounds.now.code_length ∷ [])).at reader.old.rest.now) reader.new.rest.now }
{
    let field = reader.left();
    let code = reader.u64(Rule::ImageIsCut)?;
    require(is_above(before, code), Rule::BadImageField, field)?;
    require(bounds.is_in_code(code), Rule::ImageOutOfRange, field)?;
    Ok(code)
}

/// Whether a number is above the one before, if there is one.
fn is_above(before: Option<u64>, number: u64) -> bool
    ensures { result ≡ is_number_above before number }
{
    match before {
        None => true,
        Some(before) => before < number,
    }
}

pub(crate) fn frame_size(reader: &mut Reader<'_>) -> Result<u32, Unread>
    ensures { Reads result ((u32 when (formed (λ n. n % 16 == 0) ∷ within (λ n. nat_le n 0x10000000) ∷ [])).at reader.old.rest.now) reader.new.rest.now }
{
    let field = reader.left();
    let frame = reader.u32(Rule::ImageIsCut)?;
    require(frame % 16 == 0, Rule::BadImageField, field)?;
    require(frame <= FRAME_LIMIT, Rule::ImageOutOfRange, field)?;
    Ok(frame)
}

pub(crate) fn return_offset(reader: &mut Reader<'_>, frame: u32) -> Result<Option<u32>, Unread>
    ensures { Reads result ((optional ImageIsCut 4 no_return (within (is_return_offset frame) ∷ [])).at reader.old.rest.now) reader.new.rest.now }
{
    let field = reader.left();
    let offset = reader.u32(Rule::ImageIsCut)?;
    if offset == NO_RETURN {
        return Ok(None);
    }
    require(
        offset % 8 == 0 && leaves(8, frame, offset),
        Rule::ImageOutOfRange,
        field,
    )?;
    Ok(Some(offset))
}

/// The variables of a procedure, at most 1,024.
pub(crate) fn variables<V: Read<Bounds>>(
    reader: &mut Reader<'_>,
    bounds: &Bounds,
) -> Result<Items<V>, Unread>
    ensures { Reads result (counted_at (u16 when (formed (λ n. nat_le n 1024) ∷ [])).at (V.at bounds.now) reader.old.rest.now) reader.new.rest.now }
{
    let field = reader.left();
    let count = reader.u16(Rule::ImageIsCut)?;
    require(count <= VARIABLE_COUNT_LIMIT, Rule::BadImageField, field)?;
    read_rows(reader, bounds, usize::from(count))
}

/// The continuations of a procedure with these variables.
pub(crate) fn continuations<V>(
    reader: &mut Reader<'_>,
    bounds: &Bounds,
    variables: &Items<V>,
) -> Result<Items<ContinuationRow>, Unread>
    ensures { Reads result (counted_at u16.at (λ previous. (continuation bounds.now.code_length bounds.now.frame (length variables.now) previous).at) reader.old.rest.now) reader.new.rest.now }
{
    let bounds = Bounds {
        variables: variables.len(),
        ..*bounds
    };
    read_rows16(reader, Rule::ImageIsCut, &bounds)
}
