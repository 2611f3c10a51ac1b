//! One token at a time.

ghost use Rattle.std.specs.Prelude.{◌≡◌, ◌+◌, ◌-◌, ◌^◌, ◌<◌, ◌≤◌, length, Ok, Some, IsTrue, IsFalse, OnOk, OnSome, MatchOption, option_map};
ghost use Rattle.cmm_lexer.specs.Spellings.{keyword_number, symbol_number};
ghost use Rattle.cmm_grammar.specs.Taking.{is_word, is_sign};
ghost use Rattle.cmm_grammar.specs.Reading.{next, past, passes};
ghost use Rattle.cmm_grammar.specs.Reading as readers;
ghost use Rattle.cmm_grammar.specs.ExpressionReading.{operator_name};
ghost use Rattle.cmm_grammar.specs.PartReading.{is_any_name, is_any_text};
ghost use Rattle.cmm_grammar.specs.DeclarationReading.{is_other, optional_text};
ghost use Rattle.cmm_lexer.specs.declared.piece.Lexeme.{Lexeme};
ghost use Rattle.cmm_parser.specs.inside.Parsing.{Takes, MayTake, Skips, Stays, NoWord, NoSymbol, skipped, point_of};
ghost use Rattle.cmm_parser.specs.Faults.{lexeme_in};
ghost use Rattle.cmm_parser.specs.declared.fault.Stop.{Stop};

use crate::fault::Stop;
use crate::parser::Parser;
use cmm_ast::{Ident, Int, Text};
use cmm_items::Items;
use cmm_lexer::{Keyword, Symbol, TokenKind};
use cmm_words::Name;

impl Parser<'_> {
    /// What the next token is, if there is one.
    #[tactic(auto, unfolding(crate::specs::inside::Parsing::point_of))]
    pub(crate) fn next(&self) -> Option<TokenKind>
        ensures { next (point_of self.now).left ≡ option_map (lexeme_in self.now.tokens.now) result }
    {
        match self.rest.first() {
            Some(token) => Some(token.kind),
            None => None,
        }
    }

    /// The number of the next token.
    #[tactic(auto, unfolding(crate::specs::inside::Parsing::point_of))]
    pub(crate) fn here(&self) -> u32
        ensures { result ≡ (point_of self.now).taken }
    {
        self.taken
    }

    /// The fault that the next token is none that may stand there.
    #[tactic(auto, unfolding(crate::specs::inside::Parsing::point_of))]
    pub(crate) fn unexpected(&self) -> Stop
        ensures { result ≡ Stop.Unexpected (point_of self.now).taken }
    {
        Stop::Unexpected(self.taken)
    }

    /// The reserved word that is next, if one is.
    pub(crate) fn next_word(&self) -> Option<Keyword>
        ensures { MatchOption result (NoWord (next (point_of self.now).left)) (λ word. next (point_of self.now).left ≡ Some (Lexeme.Word (keyword_number word))) }
    {
        self.next()?.word()
    }

    /// The symbol that is next, if one is.
    pub(crate) fn next_symbol(&self) -> Option<Symbol>
        ensures { MatchOption result (NoSymbol (next (point_of self.now).left)) (λ symbol. next (point_of self.now).left ≡ Some (Lexeme.Symbol (symbol_number symbol))) }
    {
        self.next()?.symbol()
    }

    pub(crate) fn is_word(&self, word: Keyword) -> bool
        ensures { passes (is_word word) (next (point_of self.now).left) ≡ result }
    {
        match self.next_word() {
            Some(next) => next == word,
            None => false,
        }
    }

    pub(crate) fn is_symbol(&self, symbol: Symbol) -> bool
        ensures { passes (is_sign symbol) (next (point_of self.now).left) ≡ result }
    {
        match self.next_symbol() {
            Some(next) => next == symbol,
            None => false,
        }
    }

    /// Takes the next token, if there is one.
    #[tactic(auto, unfolding(crate::specs::inside::Parsing::point_of))]
    pub(crate) fn take(&mut self)
        ensures there { 0 < length (point_of self.old).left → point_of self.new ≡ skipped (point_of self.old) }
        ensures fewer { 0 < length (point_of self.old).left → length (point_of self.new).left < length (point_of self.old).left }
    {
        if let Some((_, rest)) = self.rest.split_first() {
            self.rest = rest;
            self.taken += 1;
        }
    }

    pub(crate) fn is_name(&self) -> bool
        ensures { passes is_any_name (next (point_of self.now).left) ≡ result }
    {
        matches!(self.next(), Some(TokenKind::Name(_)))
    }

    pub(crate) fn is_text(&self) -> bool
        ensures { passes is_any_text (next (point_of self.now).left) ≡ result }
    {
        matches!(self.next(), Some(TokenKind::Text(_)))
    }

    /// A token is next, and it is not this one, which ends a row.
    pub(crate) fn is_within(&self, end: Symbol) -> bool
        ensures { passes (is_other «end») (next (point_of self.now).left) ≡ result }
    {
        self.next().is_some() && !self.is_symbol(end)
    }

    /// Takes the word where it is next, and says whether it was.
    pub(crate) fn accept_word(&mut self, word: Keyword) -> bool
        ensures taken { IsTrue result → Skips (is_word word) (point_of self.old) (point_of self.new) }
        ensures kept { IsFalse result → Stays (is_word word) (point_of self.old) (point_of self.new) }
    {
        let found = self.is_word(word);
        if found {
            self.take();
        }
        found
    }

    /// Takes the symbol where it is next, and says whether it was.
    pub(crate) fn accept(&mut self, symbol: Symbol) -> bool
        ensures taken { IsTrue result → Skips (is_sign symbol) (point_of self.old) (point_of self.new) }
        ensures kept { IsFalse result → Stays (is_sign symbol) (point_of self.old) (point_of self.new) }
    {
        let found = self.is_symbol(symbol);
        if found {
            self.take();
        }
        found
    }

    pub(crate) fn expect(&mut self, symbol: Symbol) -> Result<(), Stop>
        ensures { Takes (λ fuel. readers.symbol symbol) (point_of self.old) result (point_of self.new) }
    {
        if self.accept(symbol) {
            Ok(())
        } else {
            Err(self.unexpected())
        }
    }

    pub(crate) fn expect_word(&mut self, word: Keyword) -> Result<(), Stop>
        ensures { Takes (λ fuel. readers.keyword word) (point_of self.old) result (point_of self.new) }
    {
        if self.accept_word(word) {
            Ok(())
        } else {
            Err(self.unexpected())
        }
    }

    pub(crate) fn name(&mut self) -> Result<Name, Stop>
        ensures { Takes (λ fuel. readers.name) (point_of self.old) result (point_of self.new) }
    {
        let Some(TokenKind::Name(number)) = self.next() else {
            return Err(self.unexpected());
        };
        let name = Name::from_slice(self.alloc, self.tokens.spelling(number))?;
        self.take();
        Ok(name)
    }

    pub(crate) fn ident(&mut self) -> Result<Ident, Stop>
        ensures { Takes (λ fuel. readers.ident) (point_of self.old) result (point_of self.new) }
    {
        let token = self.here();
        let name = self.name()?;
        Ok(Ident { name, token })
    }

    pub(crate) fn text(&mut self) -> Result<Text, Stop>
        ensures { Takes (λ fuel. readers.text) (point_of self.old) result (point_of self.new) }
    {
        let token = self.here();
        let Some(TokenKind::Text(number)) = self.next() else {
            return Err(self.unexpected());
        };
        let bytes = Items::from_slice(self.alloc, self.tokens.spelling(number))?;
        self.take();
        Ok(Text { bytes, token })
    }

    /// The text that may stand here.
    pub(crate) fn optional_text(&mut self) -> Result<Option<Text>, Stop>
        ensures { MayTake (λ fuel. optional_text) (point_of self.old) result (point_of self.new) }
    {
        if self.is_text() {
            Ok(Some(self.text()?))
        } else {
            Ok(None)
        }
    }

    pub(crate) fn int(&mut self) -> Result<Int, Stop>
        ensures { Takes (λ fuel. readers.int) (point_of self.old) result (point_of self.new) }
    {
        let token = self.here();
        let Some(TokenKind::Int(value)) = self.next() else {
            return Err(self.unexpected());
        };
        self.take();
        Ok(Int { value, token })
    }

    /// The operator that is next by its name, of which an outermost expression may have one more.
    pub(crate) fn operator_name(&mut self) -> Result<Name, Stop>
        ensures { Takes (λ fuel. operator_name) (point_of self.old) result (point_of self.new) }
    {
        let Some(TokenKind::Op(number)) = self.next() else {
            return Err(self.unexpected());
        };
        let name = Name::from_slice(self.alloc, self.tokens.spelling(number))?;
        self.operator()?;
        Ok(name)
    }
}
