//! The records of which a site's record is made.

ghost use Rattle.std.specs.Prelude.{◌≡◌, ℕ, List, length, option_copied};
ghost use Rattle.std.specs.Option.{option_map};
ghost use Rattle.cmm_image.specs.ImageFormat.{continuation_number, unwind, span, width, is_above};
ghost use Rattle.cmm_image.specs.Places.{variable_place, slot_at, register_at};
ghost use Rattle.cmm_format.specs.Reading.{Reads};
ghost use Rattle.cmm_image.specs.inside.Reading.{ReadsFront};

use crate::bounds::Bounds;
use crate::procedure_parts::leaves;
use crate::rows::{ContinuationNumber, SpanRow, UnwindRow, VariablePlace};
use byteorder::{ByteOrder, LittleEndian};
use cmm_abi::registers::is_callee_saves;
use cmm_format::{Read, Reader, Unread, broken, require};
use cmm_rules::Rule;
use cmm_words::Width;

impl Read<Bounds> for ContinuationNumber {
    ghost at = { λ bounds previous. (continuation_number bounds.continuations previous).at };

    fn read(
        reader: &mut Reader<'_>,
        bounds: &Bounds,
        _previous: Option<&ContinuationNumber>,
    ) -> Result<ContinuationNumber, Unread> {
        let field = reader.left();
        let number = reader.u16(Rule::ImageIsCut)?;
        require(
            usize::from(number) < bounds.continuations,
            Rule::BadImageField,
            field,
        )?;
        Ok(ContinuationNumber(number))
    }
}

impl Read<Bounds> for UnwindRow {
    ghost at = { λ bounds previous. (unwind bounds.code_length bounds.continuations previous).at };

    fn read(
        reader: &mut Reader<'_>,
        bounds: &Bounds,
        _previous: Option<&UnwindRow>,
    ) -> Result<UnwindRow, Unread> {
        let continuation = ContinuationNumber::read(reader, bounds, None)?;
        let field = reader.left();
        let landing = reader.u64(Rule::ImageIsCut)?;
        require(bounds.is_in_code(landing), Rule::ImageOutOfRange, field)?;
        Ok(UnwindRow {
            continuation,
            landing,
        })
    }
}

impl Read<Bounds> for SpanRow {
    ghost at = { λ bounds previous. (span previous).at };

    fn read(
        reader: &mut Reader<'_>,
        _bounds: &Bounds,
        previous: Option<&SpanRow>,
    ) -> Result<SpanRow, Unread> {
        let field = reader.left();
        let token = reader.u64(Rule::ImageIsCut)?;
        require(is_token_above(previous, token), Rule::BadImageField, field)?;
        let value = reader.u64(Rule::ImageIsCut)?;
        Ok(SpanRow { token, value })
    }
}

/// Whether a token is above that of the span before, if there is one.
fn is_token_above(previous: Option<&SpanRow>, token: u64) -> bool
    ensures { result ≡ is_above (option_map (λ s. s.token) (option_copied previous.entry)) token }
{
    match previous {
        None => true,
        Some(row) => row.token < token,
    }
}

impl Read<Bounds> for VariablePlace {
    ghost at = { λ bounds previous. (variable_place bounds.frame previous).at };

    #[tactic(auto, unfolding(crate::specs::Places::place_at))]
    fn read(
        reader: &mut Reader<'_>,
        bounds: &Bounds,
        _previous: Option<&VariablePlace>,
    ) -> Result<VariablePlace, Unread> {
        let field = reader.left();
        match reader.rest {
            [] => Err(broken(Rule::ImageIsCut, field)),
            [0, rest @ ..] => {
                reader.rest = rest;
                Ok(VariablePlace::Dead)
            }
            [1, rest @ ..] => {
                let (place, rest) = slot_of(rest, bounds.frame, field)?;
                reader.rest = rest;
                Ok(place)
            }
            [2, rest @ ..] => {
                let (place, rest) = register_of(rest, field)?;
                reader.rest = rest;
                Ok(place)
            }
            [_, ..] => Err(broken(Rule::BadImageField, field)),
        }
    }
}

/// A slot: its offset, in the field from which on `left` bytes are left.
fn slot_of(rest: &[u8], frame: u32, field: usize) -> Result<(VariablePlace, &[u8]), Unread>
    ensures { (bytes : List ℕ) → field ≡ length bytes → ReadsFront result (slot_at frame bytes rest.now) }
{
    if rest.len() < 4 {
        return Err(broken(Rule::ImageIsCut, field));
    }
    let offset = LittleEndian::read_u32(rest);
    require(leaves(8, frame, offset), Rule::ImageOutOfRange, field)?;
    Ok((VariablePlace::Slot(offset), &rest[4..]))
}

/// A register, in the field from which on `left` bytes are left.
fn register_of(rest: &[u8], field: usize) -> Result<(VariablePlace, &[u8]), Unread>
    ensures { (bytes : List ℕ) → field ≡ length bytes → ReadsFront result (register_at bytes rest.now) }
{
    match rest {
        [] => Err(broken(Rule::ImageIsCut, field)),
        [register, rest @ ..] => {
            require(is_callee_saves(*register), Rule::BadImageField, field)?;
            Ok((VariablePlace::Register(*register), rest))
        }
    }
}
