//! Units and their sections.

ghost use Rattle.std.specs.Prelude.{◌≡◌, ◌-◌, ◌<◌, ◌≤◌, ◌^◌, [], length, pred, IfErr, IfOk, OnOk};
ghost use Rattle.cmm_lexer.specs.declared.symbol.Symbol.{Symbol};
ghost use Rattle.cmm_grammar.specs.Reading.{next, passes, many};
ghost use Rattle.cmm_grammar.specs.StatementReading.{block};
ghost use Rattle.cmm_grammar.specs.DeclarationReading.{is_other};
ghost use Rattle.cmm_grammar.specs.UnitReading as readers;
ghost use Rattle.cmm_grammar.specs.Derivation.{DerivesWithin, at_start};
ghost use Rattle.cmm_grammar.specs.ReadingLaws.{point};
ghost use Rattle.cmm_parser.specs.inside.Parsing.{Takes, MayTake, point_of};
ghost use Rattle.cmm_parser.specs.Faults.{IsFaultOf, lexemes_of, places_of};

use crate::fault::{Stop, SyntaxFault};
use crate::list::Listed;
use crate::parser::Parser;
use cmm_ast::{Item, Place, Section, TopLevel, Unit};
use cmm_items::Items;
use cmm_lexer::{Keyword, Symbol, Tokens};
use std::alloc::{AllocError, Global};

/// The unit that the tokens are, as `lex` gives them. A fault is at the token that no unit goes on with, or at the first that passes
/// a limit on nesting; past the last token it is at the end of the unit.
pub fn parse(alloc: Global, tokens: &Tokens) -> Result<Unit, SyntaxFault>
    requires { length tokens.now.list < 2 ^ 32 }
    ensures ok { IfOk result (DerivesWithin (lexemes_of tokens.now)) }
    ensures places { IfOk result (λ unit. unit.places ≡ places_of tokens.now) }
    ensures err { IfErr result (IsFaultOf (lexemes_of tokens.now)) }
{
    let mut parser = Parser::new(alloc, tokens);
    let parts = parser.parts()?;
    let places = places(alloc, tokens)?;
    Ok(Unit { parts, places })
}

/// Where each token stands, and the end of the unit.
fn places(alloc: Global, tokens: &Tokens) -> Result<Items<Place>, AllocError>
    ensures { IfOk result (λ places. places ≡ places_of tokens.now) }
{
    let mut places = Items::new(alloc);
    for token in tokens.list.as_slice() {
        places.push(Place {
            line: token.line,
            column: token.column,
        })?;
    }
    places.push(Place {
        line: tokens.line,
        column: tokens.column,
    })?;
    Ok(places)
}

impl<'a> Parser<'a> {
    /// A parser before the first token.
    #[tactic(auto, unfolding(crate::specs::inside::Parsing::point_of))]
    pub(crate) fn new(alloc: Global, tokens: &'a Tokens) -> Parser<'a>
        requires { length tokens.now.list < 2 ^ 32 }
        ensures { point_of result ≡ point (at_start (lexemes_of tokens.now)) }
    {
        Parser {
            alloc,
            tokens,
            rest: tokens.list.as_slice(),
            taken: 0,
            open: 0,
            operators: 0,
        }
    }
}

impl Listed for TopLevel {
    ghost reads = { λ fuel. readers.top_level fuel block };

    ghost begins = { readers.any_token };

    fn is_next(parser: &Parser<'_>) -> bool {
        parser.next().is_some()
    }

    fn parse(parser: &mut Parser<'_>) -> Result<TopLevel, Stop> {
        if parser.is_word(Keyword::Section) {
            return Ok(TopLevel::Section(parser.section()?));
        }
        if parser.is_name() {
            return Ok(TopLevel::Proc(parser.proc()?));
        }
        Ok(TopLevel::Decl(parser.decl()?))
    }
}

impl Parser<'_> {
    /// Items up to the brace that ends them.
    #[cycle(item)]
    fn items(&mut self) -> Result<Items<Item>, Stop>
        ensures { MayTake (λ fuel. many fuel (is_other Symbol.CloseBrace) (readers.item fuel block) []) (point_of self.old) result (point_of self.new) }
    {
        let mut items = Items::new(self.alloc);
        while self.is_within(Symbol::CloseBrace) {
            items.push(self.item()?)?;
        }
        Ok(items)
    }

    /// The items of a section or of a span, in their braces.
    #[cycle(item)]
    fn in_braces(&mut self) -> Result<Items<Item>, Stop>
        ensures { Takes (λ fuel. readers.in_braces fuel (readers.item fuel block)) (point_of self.old) result (point_of self.new) }
    {
        let outside = self.enter(Symbol::OpenBrace)?;
        let items = self.items()?;
        self.leave(Symbol::CloseBrace, outside)?;
        Ok(items)
    }

    #[cycle(item)]
    fn span(&mut self) -> Result<Item, Stop>
        ensures { Takes (λ fuel. readers.span (pred fuel) (readers.item (pred fuel) block)) (point_of self.old) result (point_of self.new) }
    {
        let token = self.here();
        self.expect_word(Keyword::Span)?;
        let key = self.whole_prim()?;
        let value = self.whole()?;
        let items = self.in_braces()?;
        Ok(Item::Span {
            token,
            key,
            value,
            items,
        })
    }

    #[cycle(item)]
    pub(crate) fn item(&mut self) -> Result<Item, Stop>
        ensures { Takes (λ fuel. readers.item fuel block) (point_of self.old) result (point_of self.new) }
    {
        if self.is_word(Keyword::Span) {
            return self.span();
        }
        self.flat_item()
    }

    fn section(&mut self) -> Result<Section, Stop>
        ensures { Takes (λ fuel. readers.section fuel block) (point_of self.old) result (point_of self.new) }
    {
        let token = self.here();
        self.expect_word(Keyword::Section)?;
        let name = self.text()?;
        let items = self.in_braces()?;
        Ok(Section { token, name, items })
    }

    /// The parts of a unit, up to its end.
    pub(crate) fn parts(&mut self) -> Result<Items<TopLevel>, Stop>
        ensures { MayTake (λ fuel. readers.parts fuel block) (point_of self.old) result (point_of self.new) }
    {
        self.many()
    }
}
