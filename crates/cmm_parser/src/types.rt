//! Types, and the parts of expressions that hold no other.

ghost use Rattle.std.specs.Prelude.{◌≡◌, ◌-◌, ◌<◌, ◌≤◌, true, length, Ok, IsTrue, OnOk, MatchOption};
ghost use Rattle.cmm_grammar.specs.Reading.{next, passes, pick};
ghost use Rattle.cmm_grammar.specs.ExpressionReading as readers;
ghost use Rattle.cmm_grammar.specs.PartReading.{is_width};
ghost use Rattle.cmm_parser.specs.inside.Parsing.{Takes, MayTake, Stays, point_of, width_next, Bits};

use crate::fault::Stop;
use crate::operators::width_of;
use crate::parser::Parser;
use cmm_ast::{Ident, Int, Number, PrimForm, TypeForm, TypeName};
use cmm_lexer::{Keyword, Symbol, TokenKind};
use cmm_words::Width;

/// The type that a name stands for.
pub(crate) fn named_type(name: Ident) -> TypeName
    ensures { result ≡ readers.named_type name }
{
    TypeName {
        token: name.token,
        form: TypeForm::Named(name.into_name()),
    }
}

impl Parser<'_> {
    /// The width whose word is next, if one is.
    pub(crate) fn next_width(&self) -> Option<Width>
        ensures { result ≡ width_next (next (point_of self.now).left) }
    {
        width_of(self.next_word()?)
    }

    /// A type that is one of the words for bits, where such a word is next.
    pub(crate) fn bits(&mut self) -> Option<TypeName>
        ensures { MatchOption result (Stays is_width (point_of self.old) (point_of self.new)) (λ width. Bits width (point_of self.old) (point_of self.new)) }
    {
        let token = self.here();
        let width = self.next_width()?;
        self.take();
        Some(TypeName {
            token,
            form: TypeForm::Bits(width),
        })
    }

    pub(crate) fn type_name(&mut self) -> Result<TypeName, Stop>
        ensures { Takes (λ fuel. readers.type_name) (point_of self.old) result (point_of self.new) }
    {
        match self.bits() {
            Some(width) => Ok(width),
            None => Ok(named_type(self.ident()?)),
        }
    }

    /// A number or a character.
    fn number(&mut self) -> Result<Number, Stop>
        ensures { Takes (λ fuel. pick readers.number_in) (point_of self.old) result (point_of self.new) }
    {
        let number = match self.next() {
            Some(TokenKind::Int(value)) => Number::Int(value),
            Some(TokenKind::Char(byte)) => Number::Char(byte),
            _ => return Err(self.unexpected()),
        };
        self.take();
        Ok(number)
    }

    /// The type of a literal, where it has one.
    fn typed(&mut self) -> Result<Option<TypeName>, Stop>
        ensures { MayTake (λ fuel. readers.typed) (point_of self.old) result (point_of self.new) }
    {
        if self.accept(Symbol::Colons) {
            Ok(Some(self.type_name()?))
        } else {
            Ok(None)
        }
    }

    /// A number or a character, and after `::` its type.
    #[inline(never)]
    pub(crate) fn literal(&mut self) -> Result<PrimForm, Stop>
        ensures { Takes (λ fuel. readers.literal) (point_of self.old) result (point_of self.new) }
    {
        let number = self.number()?;
        let width = self.typed()?;
        Ok(PrimForm::Literal { number, width })
    }

    /// What the address of a word in memory is said to be a multiple of.
    pub(crate) fn aligned(&mut self) -> Result<Option<Int>, Stop>
        ensures { MayTake (λ fuel. readers.aligned) (point_of self.old) result (point_of self.new) }
    {
        if self.accept_word(Keyword::Aligned) || self.accept_word(Keyword::Align) {
            Ok(Some(self.int()?))
        } else {
            Ok(None)
        }
    }
}
