//! Lists with a comma between two.

ghost use Rattle.std.specs.Prelude.{◌≡◌, ◌-◌, ◌<◌, ◌≤◌, ◌∷◌, [], ℕ, Bool, length, OnOk, Result};
ghost use Rattle.cmm_lexer.specs.declared.piece.Lexeme.{Lexeme};
ghost use Rattle.cmm_grammar.specs.Reading.{Reads, next, passes};
ghost use Rattle.cmm_grammar.specs.Reading as readers;
ghost use Rattle.cmm_parser.specs.inside.Parsing.{Takes, MayTake, point_of};
ghost use Rattle.cmm_parser.specs.Faults.{lexeme_in};

use crate::fault::Stop;
use crate::parser::Parser;
use cmm_items::Items;
use cmm_lexer::{Symbol, TokenKind};

/// What a list holds.
pub(crate) trait Listed: Drop {
    /// How one is read.
    ghost reads: { ℕ → Reads Self };

    /// One begins with such a token.
    ghost begins: { Lexeme → Bool };

    /// One begins with the next token.
    fn is_next(parser: &Parser<'_>) -> bool
        ensures { passes Self.begins (next (point_of parser.now).left) ≡ result };

    fn parse(parser: &mut Parser<'_>) -> Result<Self, Stop>
        ensures { Takes (λ fuel. Self.reads fuel) (point_of parser.old) result (point_of parser.new) };
}

impl Parser<'_> {
    /// One or more.
    pub(crate) fn commas<T: Listed>(&mut self) -> Result<Items<T>, Stop>
        ensures { Takes (λ fuel. readers.commas fuel (T.reads fuel)) (point_of self.old) result (point_of self.new) }
    {
        let mut items = Items::new(self.alloc);
        items.push(T::parse(self)?)?;
        while self.accept(Symbol::Comma) {
            items.push(T::parse(self)?)?;
        }
        Ok(items)
    }

    /// One or more, after which a comma may stand.
    pub(crate) fn listed<T: Listed>(&mut self) -> Result<Items<T>, Stop>
        ensures { Takes (λ fuel. readers.listed fuel T.begins (T.reads fuel)) (point_of self.old) result (point_of self.new) }
    {
        let first = T::parse(self)?;
        self.listed_from(first)
    }

    /// One or more, the first of which is taken, after which a comma may stand.
    pub(crate) fn listed_from<T: Listed>(&mut self, first: T) -> Result<Items<T>, Stop>
        ensures { MayTake (λ fuel. readers.more_listed fuel T.begins (T.reads fuel) (first ∷ [])) (point_of self.old) result (point_of self.new) }
    {
        let mut items = Items::new(self.alloc);
        items.push(first)?;
        while self.accept(Symbol::Comma) && T::is_next(self) {
            items.push(T::parse(self)?)?;
        }
        Ok(items)
    }

    /// None, or one or more, after which a comma may stand.
    pub(crate) fn may_list<T: Listed>(&mut self) -> Result<Items<T>, Stop>
        ensures { MayTake (λ fuel. readers.may_list fuel T.begins (T.reads fuel)) (point_of self.old) result (point_of self.new) }
    {
        if T::is_next(self) {
            self.listed()
        } else {
            Ok(Items::new(self.alloc))
        }
    }

    /// As many as there are.
    pub(crate) fn many<T: Listed>(&mut self) -> Result<Items<T>, Stop>
        ensures { MayTake (λ fuel. readers.many fuel T.begins (T.reads fuel) []) (point_of self.old) result (point_of self.new) }
    {
        let mut items = Items::new(self.alloc);
        while T::is_next(self) {
            items.push(T::parse(self)?)?;
        }
        Ok(items)
    }
}
