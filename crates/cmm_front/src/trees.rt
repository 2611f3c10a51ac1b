//! The trees of units.

ghost use Rattle.std.specs.Prelude.{◌≡◌, ◌<◌, ◌≤◌, ◌^◌, ℕ, List, Some, length, slice_get, IfOk, IfErr};
ghost use Rattle.std.specs.List.{All, AllZip};
ghost use Rattle.cmm_lexer.specs.Lexing.{Lexes};
ghost use Rattle.cmm_parser.specs.Faults.{places_of};
ghost use Rattle.cmm_front.specs.Refusing.{IsOfFirst, IsRefused};
ghost use Rattle.cmm_front.specs.Sources.{HasTree, IsSyntaxFault, IsTreeOf};

use crate::fault::FrontFault;
use cmm_ast::Unit;
use cmm_items::Items;
use cmm_lexer::Tokens;
use cmm_parser::{SyntaxFault, parse};
use cmm_rules::Rule;
use cmm_static_semantics::Fault;
use std::alloc::Global;

/// A rule that is broken at a token of a unit with a number, or past the last one at the end of the unit.
fn fault_at(rule: Rule, token: u32, tokens: &Tokens, unit: u32) -> Fault
    requires { token ≤ length tokens.now.list }
    ensures rule { result.rule ≡ rule }
    ensures unit { result.unit ≡ unit }
    ensures place { slice_get (places_of tokens.now) token ≡ Some record { line = result.line; column = result.column } }
{
    let (line, column) = match tokens.list.get(token as usize) {
        Some(at) => (at.line, at.column),
        None => (tokens.line, tokens.column),
    };
    Fault {
        rule,
        unit,
        line,
        column,
    }
}

/// The tree of the unit with a number, which has these tokens.
fn tree_of(alloc: Global, tokens: &Tokens, number: u32) -> Result<Unit, FrontFault>
    requires { length tokens.now.list < 2 ^ 32 }
    ensures ok { (unit : List ℕ) → Lexes unit tokens.now → IfOk result (IsTreeOf unit) }
    ensures err { (unit : List ℕ) → Lexes unit tokens.now → IfErr result (IsRefused (IsSyntaxFault unit number)) }
{
    match parse(alloc, tokens) {
        Ok(tree) => Ok(tree),
        Err(fault) => match fault {
            SyntaxFault::At { rule, token } => {
                Err(FrontFault::At(fault_at(rule, token, tokens, number)))
            }
            SyntaxFault::Memory => Err(FrontFault::Memory),
        },
    }
}

/// The trees of units that have these tokens, in their order.
pub(crate) fn trees_of(alloc: Global, all: &[Tokens]) -> Result<Items<Unit>, FrontFault>
    requires count { length all.now < 2 ^ 32 }
    requires few { All (λ tokens. length tokens.list < 2 ^ 32) all.now }
    ensures ok { (units : List (List ℕ)) → AllZip Lexes units all.now → IfOk result (AllZip IsTreeOf units) }
    ensures err { (units : List (List ℕ)) → AllZip Lexes units all.now → IfErr result (IsRefused (IsOfFirst HasTree IsSyntaxFault 0 units)) }
{
    let mut trees = Items::new(alloc);
    let mut number: u32 = 0;
    for tokens in all {
        trees.push(tree_of(alloc, tokens, number)?)?;
        number += 1;
    }
    Ok(trees)
}
