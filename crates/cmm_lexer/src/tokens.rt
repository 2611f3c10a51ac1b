//! The tokens of a unit, with the spellings that they have numbers of.

ghost use Rattle.std.specs.Prelude.{◌≡◌, ◌≢◌, ◌+◌, ◌-◌, ◌*◌, ◌^◌, ◌<◌, ◌≤◌, ◌==◌, ℕ, true, List, [], ◌∷◌, ◌++◌, length, map, slice_index_or, nat_eq, if◌then◌else◌, IfOk, OnOk, OnErr, IfErr, not};
ghost use Rattle.std.specs.List.{AllPairs, count_by, suffix_len};
ghost use Rattle.std.specs.Cmp.Lexicographic.{pointwise};
ghost use Rattle.indexmap.specs.IndexSet.{IsUnique};
ghost use Rattle.cmm_lexer.specs.Places.{ends_line};
ghost use Rattle.cmm_lexer.specs.inside.Columns.{column_past};
ghost use Rattle.cmm_lexer.specs.Lexing.{spelled, lexeme_of, is_numbered, are_numbered, token_in, fault_in};
ghost use Rattle.cmm_lexer.specs.inside.Blame.{Blames};

use crate::piece::{Lexeme, Part, Piece};
use crate::token::{Token, TokenKind};
use cmm_items::Items;
use cmm_rules::Rule;
use indexmap::IndexSet;
use std::alloc::{AllocError, Global};
use thiserror::Error;

/// The longest unit, in bytes.
pub const UNIT_LIMIT: usize = 1_048_576;

/// Why a unit has no tokens.
#[derive(Debug, Drop, Error)]
pub enum LexFault {
    /// It breaks this rule of the lexical form, one of those from `Rule::BadByte` to `Rule::UnitTooLong`, at the place that the rule
    /// names. Lines and columns count from 1, columns in bytes.
    #[error("rule {rule} at {line}:{column}")]
    At { rule: Rule, line: u32, column: u32 },
    #[error("out of memory")]
    Memory,
}

impl From<AllocError> for LexFault {
    ghost use Rattle.cmm_lexer.specs.declared.tokens.LexFault.{LexFault};

    ghost from_gives = { λ _ fault. fault ≡ LexFault.Memory };

    fn from(_: AllocError) -> LexFault {
        LexFault::Memory
    }
}

/// The tokens of a unit, in order. Two of them have one number exactly where the bytes that it stands for are equal.
pub struct Tokens {
    pub list: Items<Token>,
    /// The line of the byte after the unit's last.
    pub line: u32,
    /// The column of the byte after the unit's last.
    pub column: u32,
    spellings: IndexSet<Items<u8>>,
}

/// In one place, so that whoever lets one go has one call to prove.
impl Drop for Tokens {
    fn drop(self) {
        let Self {
            list: _,
            line: _,
            column: _,
            spellings: _,
        } = self;
    }
}

impl Tokens {
    /// No tokens, at the start of a unit.
    pub(crate) fn new(alloc: Global) -> Tokens
        ensures list { result.list ≡ [] }
        ensures spellings { result.spellings.keys ≡ [] }
        ensures distinct { IsUnique (pointwise nat_eq) result.spellings }
        ensures place { (result.line ≡ 1) × (result.column ≡ 1) }
    {
        Tokens {
            list: Items::new(alloc),
            line: 1,
            column: 1,
            spellings: IndexSet::new(alloc),
        }
    }

    /// The bytes that a number of a token stands for: of a text those after its escapes, of an operator those after its percent
    /// signs. A number that no token has stands for none.
    pub fn spelling(&self, number: u32) -> &[u8]
        ensures { result.now ≡ slice_index_or self.now.spellings.keys number [] }
    {
        match self.spellings.get_index(number as usize) {
            Some(spelling) => spelling.as_slice(),
            None => &[],
        }
    }

    /// The number of a spelling, which keeps those that there are.
    fn number_of(&mut self, spelling: Items<u8>) -> Result<u32, AllocError>
        requires { length self.old.spellings.keys < 2 ^ 20 }
        ensures number { IfOk result (λ n. (n < length self.new.spellings.keys) × (slice_index_or self.new.spellings.keys n [] ≡ spelling)) }
        ensures kept { OnOk result ((more : List (List ℕ)) × (length more ≤ 1) × (self.new.spellings.keys ≡ self.old.spellings.keys ++ more)) }
        ensures distinct { IsUnique (pointwise nat_eq) self.new.spellings }
        ensures list { self.new.list ≡ self.old.list }
        ensures place { (self.new.line ≡ self.old.line) × (self.new.column ≡ self.old.column) }
    {
        let (number, _) = self.spellings.insert_full(spelling)?;
        Ok(number as u32)
    }

    /// A lexeme's kind of token, whose spelling has a number.
    fn kind_of(&mut self, lexeme: Lexeme) -> Result<TokenKind, AllocError>
        requires few { length self.old.spellings.keys < 2 ^ 20 }
        requires distinct { IsUnique (pointwise nat_eq) self.old.spellings }
        ensures lexeme { IfOk result (λ kind. lexeme_of self.new.spellings.keys kind ≡ lexeme) }
        ensures numbered { IfOk result (λ kind. is_numbered (length self.new.spellings.keys) kind ≡ true) }
        ensures kept { OnOk result ((more : List (List ℕ)) × (length more ≤ 1) × (self.new.spellings.keys ≡ self.old.spellings.keys ++ more)) }
        ensures distinct { IsUnique (pointwise nat_eq) self.new.spellings }
        ensures list { self.new.list ≡ self.old.list }
        ensures place { (self.new.line ≡ self.old.line) × (self.new.column ≡ self.old.column) }
    {
        match lexeme {
            Lexeme::Name(spelling) => Ok(TokenKind::Name(self.number_of(spelling)?)),
            Lexeme::Int(value) => Ok(TokenKind::Int(value)),
            Lexeme::Char(byte) => Ok(TokenKind::Char(byte)),
            Lexeme::Text(spelling) => Ok(TokenKind::Text(self.number_of(spelling)?)),
            Lexeme::Op(spelling) => Ok(TokenKind::Op(self.number_of(spelling)?)),
            Lexeme::Checked(spelling) => Ok(TokenKind::Checked(self.number_of(spelling)?)),
            Lexeme::Word(number) => Ok(TokenKind::Word(number)),
            Lexeme::Symbol(number) => Ok(TokenKind::Symbol(number)),
        }
    }

    /// Adds a token that starts at the place reached.
    fn push(&mut self, lexeme: Lexeme, start: u32, end: u32) -> Result<(), AllocError>
        requires few { length self.old.spellings.keys < 2 ^ 20 }
        requires distinct { IsUnique (pointwise nat_eq) self.old.spellings }
        requires numbered { are_numbered (length self.old.spellings.keys) self.old.list ≡ true }
        ensures list { OnOk result (map (spelled self.new.spellings.keys) self.new.list ≡ map (spelled self.old.spellings.keys) self.old.list ++ record { lexeme = lexeme; start = start; past = «end»; line = self.old.line; column = self.old.column } ∷ []) }
        ensures numbered { OnOk result (are_numbered (length self.new.spellings.keys) self.new.list ≡ true) }
        ensures distinct { OnOk result (IsUnique (pointwise nat_eq) self.new.spellings) }
        ensures few { OnOk result (length self.new.spellings.keys ≤ length self.old.spellings.keys + 1) }
        ensures place { (self.new.line ≡ self.old.line) × (self.new.column ≡ self.old.column) }
    {
        let kind = self.kind_of(lexeme)?;
        let token = Token {
            kind,
            start,
            end,
            line: self.line,
            column: self.column,
        };
        self.list.push(token)?;
        Ok(())
    }

    /// Adds the token that a piece is, or says which rule it breaks at the place reached.
    pub(crate) fn take(&mut self, part: Part, start: u32, end: u32) -> Result<(), LexFault>
        requires few { length self.old.spellings.keys < 2 ^ 20 }
        requires distinct { IsUnique (pointwise nat_eq) self.old.spellings }
        requires numbered { are_numbered (length self.old.spellings.keys) self.old.list ≡ true }
        ensures list { OnOk result (map (spelled self.new.spellings.keys) self.new.list ≡ map (spelled self.old.spellings.keys) self.old.list ++ token_in part start «end» self.old.line self.old.column) }
        ensures numbered { OnOk result (are_numbered (length self.new.spellings.keys) self.new.list ≡ true) }
        ensures distinct { OnOk result (IsUnique (pointwise nat_eq) self.new.spellings) }
        ensures few { OnOk result (length self.new.spellings.keys ≤ length self.old.spellings.keys + 1) }
        ensures unbroken { OnOk result (fault_in part start ≡ []) }
        ensures err { IfErr result (Blames part self.old.line self.old.column) }
        ensures place { (self.new.line ≡ self.old.line) × (self.new.column ≡ self.old.column) }
    {
        match part {
            Part::Skipped => Ok(()),
            Part::Lexed(lexeme) => Ok(self.push(lexeme, start, end)?),
            Part::Broken(rule) => Err(self.fault(rule)),
        }
    }

    /// The fault of a rule that is broken at the place reached.
    pub(crate) fn fault(&self, rule: Rule) -> LexFault
        ensures { result ≡ LexFault.At rule self.now.line self.now.column }
    {
        LexFault::At {
            rule,
            line: self.line,
            column: self.column,
        }
    }

    /// Passes these bytes: the place reached is then the one after them.
    pub(crate) fn pass(&mut self, bytes: &[u8])
        requires line { self.old.line + length bytes.now < 2 ^ 32 }
        requires column { self.old.column + length bytes.now < 2 ^ 32 }
        ensures line { self.new.line ≡ self.old.line + count_by ends_line bytes.now }
        ensures column { self.new.column ≡ column_past self.old.column bytes.now }
        ensures list { self.new.list ≡ self.old.list }
        ensures spellings { self.new.spellings ≡ self.old.spellings }
    {
        for byte in bytes {
            if *byte == b'\n' {
                self.line += 1;
                self.column = 1;
            } else {
                self.column += 1;
            }
        }
    }
}
