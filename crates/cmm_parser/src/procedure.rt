//! Procedures, their formals, and what their bodies declare.

ghost use Rattle.std.specs.Prelude.{◌≡◌, ◌-◌, ◌<◌, ◌≤◌, None, Ok, length, OnOk};
ghost use Rattle.cmm_lexer.specs.declared.symbol.Symbol.{Symbol};
ghost use Rattle.cmm_grammar.specs.Reading.{next, passes};
ghost use Rattle.cmm_grammar.specs.Reading as tokens;
ghost use Rattle.cmm_grammar.specs.ExpressionReading.{whole};
ghost use Rattle.cmm_grammar.specs.StatementReading.{block};
ghost use Rattle.cmm_grammar.specs.DeclarationReading.{is_other};
ghost use Rattle.cmm_grammar.specs.ProcedureReading as readers;
ghost use Rattle.cmm_parser.specs.inside.Parsing.{Takes, MayTake, point_of};

use crate::fault::Stop;
use crate::list::Listed;
use crate::parser::Parser;
use crate::types::named_type;
use cmm_ast::{Expr, Formal, Ident, LocalForm, Modifiers, Proc, Room, RoomForm, Text, TypeName};
use cmm_items::Items;
use cmm_lexer::{Keyword, Symbol, TokenKind};

impl Listed for Formal {
    ghost reads = { λ fuel. readers.formal };

    ghost begins = { readers.begins_formal };

    fn is_next(parser: &Parser<'_>) -> bool {
        match parser.next() {
            Some(TokenKind::Name(_) | TokenKind::Text(_)) => true,
            Some(TokenKind::Word(_)) => {
                parser.is_word(Keyword::Invariant) || parser.next_width().is_some()
            }
            _ => false,
        }
    }

    fn parse(parser: &mut Parser<'_>) -> Result<Formal, Stop> {
        let modifiers = parser.modifiers_of()?;
        let width = parser.type_name()?;
        let name = parser.ident()?;
        Ok(Formal {
            modifiers,
            width,
            name,
        })
    }
}

impl Listed for Room {
    ghost reads = { λ fuel. readers.room fuel };

    ghost begins = { is_other Symbol.CloseBrace };

    fn is_next(parser: &Parser<'_>) -> bool {
        parser.is_within(Symbol::CloseBrace)
    }

    fn parse(parser: &mut Parser<'_>) -> Result<Room, Stop> {
        let token = parser.here();
        let form = parser.room_form()?;
        Ok(Room { token, form })
    }
}

/// What the word `invariant` and the kind that may follow it say; the word is the token with this number.
fn invariant_by(first: u32, kind: Option<Text>) -> Modifiers
    ensures { result ≡ readers.invariant_by first kind }
{
    match kind {
        Some(kind) => Modifiers::InvariantKind(first, kind),
        None => Modifiers::Invariant(first),
    }
}

impl Parser<'_> {
    /// The word `invariant`, and the kind that may follow it.
    fn invariant_first(&mut self) -> Result<Modifiers, Stop>
        ensures { Takes (λ fuel. readers.invariant_first) (point_of self.old) result (point_of self.new) }
    {
        let first = self.here();
        self.expect_word(Keyword::Invariant)?;
        let kind = self.optional_text()?;
        Ok(invariant_by(first, kind))
    }

    /// The word `invariant` that may follow a kind.
    fn kind_by(&mut self, kind: Option<Text>) -> Modifiers
        ensures { MayTake (λ fuel. readers.kind_by kind) (point_of self.old) (Ok result) (point_of self.new) }
    {
        match kind {
            Some(kind) => {
                if self.accept_word(Keyword::Invariant) {
                    Modifiers::KindInvariant(kind)
                } else {
                    Modifiers::Kind(kind)
                }
            }
            None => Modifiers::Nothing,
        }
    }

    /// What stands before the type of a variable.
    pub(crate) fn modifiers_of(&mut self) -> Result<Modifiers, Stop>
        ensures { MayTake (λ fuel. readers.modifiers_of) (point_of self.old) result (point_of self.new) }
    {
        if self.is_word(Keyword::Invariant) {
            return self.invariant_first();
        }
        let kind = self.optional_text()?;
        Ok(self.kind_by(kind))
    }

    /// A declaration of variables after their type.
    pub(crate) fn variables(
        &mut self,
        modifiers: Modifiers,
        width: TypeName,
    ) -> Result<LocalForm, Stop>
        ensures { Takes (λ fuel. readers.variables fuel modifiers width) (point_of self.old) result (point_of self.new) }
    {
        let names = self.listed()?;
        self.expect(Symbol::Semicolon)?;
        Ok(LocalForm::Variables {
            modifiers,
            width,
            names,
        })
    }

    /// How many values there is room for, in its brackets.
    fn room_size(&mut self) -> Result<Expr, Stop>
        ensures { Takes (λ fuel. tokens.square (whole fuel)) (point_of self.old) result (point_of self.new) }
    {
        let outside = self.enter(Symbol::OpenSquare)?;
        let size = self.whole()?;
        self.leave(Symbol::CloseSquare, outside)?;
        Ok(size)
    }

    fn room_count(&mut self) -> Result<Option<Expr>, Stop>
        ensures { MayTake (λ fuel. readers.room_count fuel) (point_of self.old) result (point_of self.new) }
    {
        if self.is_symbol(Symbol::OpenSquare) {
            Ok(Some(self.room_size()?))
        } else {
            Ok(None)
        }
    }

    /// Room for values of this type.
    fn sized_room(&mut self, width: TypeName) -> Result<RoomForm, Stop>
        ensures { Takes (λ fuel. readers.sized_room fuel width) (point_of self.old) result (point_of self.new) }
    {
        let count = self.room_count()?;
        self.expect(Symbol::Semicolon)?;
        Ok(RoomForm::Data { width, count })
    }

    /// A label, or room for values of the type of this name.
    fn named_room(&mut self) -> Result<RoomForm, Stop>
        ensures { Takes (λ fuel. readers.room_by fuel None) (point_of self.old) result (point_of self.new) }
    {
        let name = self.ident()?;
        if self.accept(Symbol::Colon) {
            Ok(RoomForm::Label(name))
        } else {
            self.sized_room(named_type(name))
        }
    }

    /// What a piece of stackdata is.
    fn room_form(&mut self) -> Result<RoomForm, Stop>
        ensures { Takes (λ fuel. readers.room_form fuel) (point_of self.old) result (point_of self.new) }
    {
        if self.accept_word(Keyword::Align) {
            let bytes = self.int()?;
            self.expect(Symbol::Semicolon)?;
            return Ok(RoomForm::Align(bytes));
        }
        match self.bits() {
            Some(width) => self.sized_room(width),
            None => self.named_room(),
        }
    }

    /// What follows a `stackdata`.
    pub(crate) fn stackdata(&mut self) -> Result<LocalForm, Stop>
        ensures { Takes (λ fuel. readers.stackdata fuel) (point_of self.old) result (point_of self.new) }
    {
        let outside = self.enter(Symbol::OpenBrace)?;
        let rooms = self.many()?;
        self.leave(Symbol::CloseBrace, outside)?;
        Ok(LocalForm::Stackdata(rooms))
    }

    /// A procedure after its name.
    pub(crate) fn procedure(&mut self, name: Ident) -> Result<Proc, Stop>
        ensures { Takes (λ fuel. readers.procedure fuel (block fuel) name) (point_of self.old) result (point_of self.new) }
    {
        let outside = self.enter(Symbol::Open)?;
        let formals = self.may_list()?;
        self.leave(Symbol::Close, outside)?;
        let body = self.block()?;
        let past = self.here();
        Ok(Proc {
            name,
            formals,
            body,
            past,
        })
    }

    pub(crate) fn proc(&mut self) -> Result<Proc, Stop>
        ensures { Takes (λ fuel. readers.proc fuel (block fuel)) (point_of self.old) result (point_of self.new) }
    {
        let name = self.ident()?;
        self.procedure(name)
    }
}
