//! A token with its place.

ghost use Rattle.std.specs.Prelude.{◌≡◌, ◌≢◌, MatchOption};
ghost use Rattle.cmm_lexer.specs.Spellings.{keyword_number, symbol_number};

use crate::keyword::Keyword;
use crate::symbol::Symbol;

/// What a token is. A `u32` is the number of its spelling, which `Tokens::spelling` gives.
#[derive(Clone, Copy, Debug)]
pub enum TokenKind {
    Name(u32),
    Int(u64),
    /// The byte that the character stands for.
    Char(u8),
    Text(u32),
    /// The name of an operator, after `%`.
    Op(u32),
    /// The name of a checked operator, after `%%`.
    Checked(u32),
    /// The number of a reserved word.
    Word(u8),
    /// The number of a symbol.
    Symbol(u8),
}

impl TokenKind {
    ghost use Rattle.cmm_lexer.specs.declared.keyword.Keyword.{Keyword};
    ghost use Rattle.cmm_lexer.specs.declared.symbol.Symbol.{Symbol};

    /// The reserved word that it is, if it is one.
    pub fn word(self) -> Option<Keyword>
        ensures { MatchOption result ((word : Keyword) → self ≢ TokenKind.Word (keyword_number word)) (λ word. self ≡ TokenKind.Word (keyword_number word)) }
    {
        match self {
            TokenKind::Word(number) => Keyword::of_number(number),
            _ => None,
        }
    }

    /// The symbol that it is, if it is one.
    pub fn symbol(self) -> Option<Symbol>
        ensures { MatchOption result ((symbol : Symbol) → self ≢ TokenKind.Symbol (symbol_number symbol)) (λ symbol. self ≡ TokenKind.Symbol (symbol_number symbol)) }
    {
        match self {
            TokenKind::Symbol(number) => Symbol::of_number(number),
            _ => None,
        }
    }
}

/// A token of a unit.
#[derive(Clone, Copy)]
pub struct Token {
    pub kind: TokenKind,
    /// Where its first byte is, in bytes from the unit's start.
    pub start: u32,
    /// Where the byte after its last is.
    pub end: u32,
    /// The line of its first byte, from 1.
    pub line: u32,
    /// The column of its first byte, in bytes from 1.
    pub column: u32,
}
