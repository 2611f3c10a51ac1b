//! `lex`: from the bytes of a unit to its tokens.

ghost use Rattle.std.specs.Prelude.{◌≤◌, ◌<◌, length, IfOk, IfErr};
ghost use Rattle.cmm_lexer.specs.Lexing.{Lexes, IsFirstFault};
ghost use Rattle.cmm_lexer.specs.inside.Reached.{Reached};

use crate::piece::piece_at;
use crate::tokens::{LexFault, Tokens, UNIT_LIMIT};
use cmm_rules::Rule;
use std::alloc::Global;

/// The tokens of a unit. A fault is the first in the text, but a unit of more than `UNIT_LIMIT` bytes is refused for its length.
pub fn lex(alloc: Global, unit: &[u8]) -> Result<Tokens, LexFault>
    ensures ok { IfOk result (Lexes unit.now) }
    ensures err { IfErr result (IsFirstFault unit.now) }
{
    let mut tokens = Tokens::new(alloc);
    if unit.len() > UNIT_LIMIT {
        return Err(tokens.fault(Rule::UnitTooLong));
    }
    let mut place = 0;
    while place < unit.len() {
        place = past_piece(alloc, unit, place, &mut tokens)?;
    }
    Ok(tokens)
}

/// Adds the token of the piece at a place of a unit, where it is one, and gives the place after it.
fn past_piece(
    alloc: Global,
    unit: &[u8],
    place: usize,
    tokens: &mut Tokens,
) -> Result<usize, LexFault>
    requires short { length unit.now ≤ UNIT_LIMIT }
    requires inside { place < length unit.now }
    requires reached { Reached unit.now place tokens.old }
    ensures reached { IfOk result (λ next. Reached unit.now next tokens.new) }
    ensures further { IfOk result (λ next. place < next) }
    ensures err { IfErr result (IsFirstFault unit.now) }
{
    let (_, rest) = unit.split_at(place);
    let piece = piece_at(alloc, tokens.column == 1, rest)?;
    let (passed, _) = rest.split_at(piece.len);
    let next = place + piece.len;
    tokens.take(piece.part, place as u32, next as u32)?;
    tokens.pass(passed);
    Ok(next)
}
