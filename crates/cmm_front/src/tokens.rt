//! The tokens of units.

ghost use Rattle.std.specs.Prelude.{◌<◌, ◌≤◌, ◌^◌, ◌++◌, ◌∷◌, ℕ, List, length, IfOk, IfErr, OnOk};
ghost use Rattle.std.specs.List.{All, AllZip};
ghost use Rattle.cmm_lexer.specs.declared.tokens.TheConstants.{UNIT_LIMIT};
ghost use Rattle.cmm_lexer.specs.Laws.{AreBytes};
ghost use Rattle.cmm_lexer.specs.Lexing.{Lexes};
ghost use Rattle.cmm_front.specs.Refusing.{BreaksLexis, IsRefused};
ghost use Rattle.cmm_front.specs.Sources.{IsLexicalFault};

use crate::fault::FrontFault;
use cmm_items::Items;
use cmm_lexer::{LexFault, Tokens, lex};
use cmm_rules::Rule;
use cmm_static_semantics::Fault;
use std::alloc::Global;

/// The tokens of a unit with a number.
fn tokens_in(alloc: Global, unit: &[u8], number: u32) -> Result<Tokens, FrontFault>
    ensures ok { IfOk result (Lexes unit.now) }
    ensures err { IfErr result (IsRefused (IsLexicalFault unit.now number)) }
    ensures bytes { AreBytes unit.now }
{
    match lex(alloc, unit) {
        Ok(tokens) => Ok(tokens),
        Err(fault) => match fault {
            LexFault::At { rule, line, column } => Err(FrontFault::At(Fault {
                rule,
                unit: number,
                line,
                column,
            })),
            LexFault::Memory => Err(FrontFault::Memory),
        },
    }
}

/// The tokens of each unit, in their order.
pub(crate) fn tokens_of(alloc: Global, units: &[Items<u8>]) -> Result<Items<Tokens>, FrontFault>
    requires { length units.now < 2 ^ 32 }
    ensures ok { IfOk result (AllZip Lexes units.now) }
    ensures err { IfErr result (IsRefused (BreaksLexis units.now)) }
    ensures bytes { OnOk result (All AreBytes units.now) }
{
    let mut all = Items::new(alloc);
    let mut number: u32 = 0;
    for unit in units {
        all.push(tokens_in(alloc, unit.as_slice(), number)?)?;
        number += 1;
    }
    Ok(all)
}

/// The fault of units of which the one behind these is longer than a unit may be: that of the first of these that breaks a rule of the lexical form, or else of
/// that one. The units behind it may be any.
pub fn too_long(alloc: Global, before: &[Items<u8>]) -> FrontFault
    requires { length before.now < 2 ^ 32 }
    ensures named { IsRefused (λ f. f.unit ≤ length before.now) result }
    ensures first { (unit : List ℕ) (rest : List (List ℕ)) → UNIT_LIMIT < length unit → IsRefused (BreaksLexis (before.now ++ unit ∷ rest)) result }
{
    if let Err(fault) = tokens_of(alloc, before) {
        return fault;
    }
    FrontFault::At(Fault {
        rule: Rule::UnitTooLong,
        unit: before.len() as u32,
        line: 1,
        column: 1,
    })
}
