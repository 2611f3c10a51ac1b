//! Data of sections, and what else a section may hold but spans.

ghost use Rattle.std.specs.Prelude.{◌≡◌, ◌-◌, ◌<◌, ◌≤◌, length, OnOk};
ghost use Rattle.cmm_grammar.specs.StatementReading.{block};
ghost use Rattle.cmm_grammar.specs.UnitReading as readers;
ghost use Rattle.cmm_parser.specs.inside.Parsing.{Takes, MayTake, point_of};

use crate::fault::Stop;
use crate::parser::Parser;
use crate::types::named_type;
use cmm_ast::{Count, Datum, DatumForm, Expr, Ident, Initial, Item, TypeName};
use cmm_lexer::{Keyword, Symbol};

/// How many values there are, by what stands in the square brackets.
fn count_of(count: Option<Expr>) -> Count
    ensures { result ≡ readers.count_of count }
{
    match count {
        None => Count::OfInitial,
        Some(count) => Count::Of(count),
    }
}

/// A datum whose first token has this number.
fn datum_at(token: u32, form: DatumForm) -> Item
    ensures { result ≡ readers.datum_at token form }
{
    Item::Datum(Datum { token, form })
}

impl Parser<'_> {
    /// What stands in the square brackets.
    fn count_in(&mut self) -> Result<Option<Expr>, Stop>
        ensures { MayTake (λ fuel. readers.count_in fuel) (point_of self.old) result (point_of self.new) }
    {
        if self.is_symbol(Symbol::CloseSquare) {
            Ok(None)
        } else {
            Ok(Some(self.whole()?))
        }
    }

    /// How many values a datum has.
    fn count(&mut self) -> Result<Count, Stop>
        ensures { MayTake (λ fuel. readers.count fuel) (point_of self.old) result (point_of self.new) }
    {
        if self.is_symbol(Symbol::OpenSquare) {
            let outside = self.enter(Symbol::OpenSquare)?;
            let count = self.count_in()?;
            self.leave(Symbol::CloseSquare, outside)?;
            return Ok(count_of(count));
        }
        Ok(Count::One)
    }

    /// The values that a datum begins as.
    fn values(&mut self) -> Result<Initial, Stop>
        ensures { Takes (λ fuel. readers.values fuel) (point_of self.old) result (point_of self.new) }
    {
        let outside = self.enter(Symbol::OpenBrace)?;
        let values = self.listed()?;
        self.leave(Symbol::CloseBrace, outside)?;
        Ok(Initial::Values(values))
    }

    /// What a datum begins as.
    fn initial(&mut self) -> Result<Initial, Stop>
        ensures { MayTake (λ fuel. readers.initial fuel) (point_of self.old) result (point_of self.new) }
    {
        if self.is_text() {
            return Ok(Initial::Text(self.text()?));
        }
        if self.is_symbol(Symbol::OpenBrace) {
            return self.values();
        }
        Ok(Initial::Zeros)
    }

    /// Data after its type.
    fn values_of(&mut self, width: TypeName) -> Result<DatumForm, Stop>
        ensures { Takes (λ fuel. readers.values_of fuel width) (point_of self.old) result (point_of self.new) }
    {
        let count = self.count()?;
        let initial = self.initial()?;
        self.expect(Symbol::Semicolon)?;
        Ok(DatumForm::Data {
            width,
            count,
            initial,
        })
    }

    /// A label, or data of the type of this name.
    fn named_datum(&mut self, name: Ident) -> Result<DatumForm, Stop>
        ensures { Takes (λ fuel. readers.named_datum fuel name) (point_of self.old) result (point_of self.new) }
    {
        if self.accept(Symbol::Colon) {
            Ok(DatumForm::Label(name))
        } else {
            self.values_of(named_type(name))
        }
    }

    /// An item after the name that it begins with: a procedure, a label, or data of the type that it names.
    fn named_item(&mut self, name: Ident) -> Result<Item, Stop>
        ensures { Takes (λ fuel. readers.named_item fuel (block fuel) name) (point_of self.old) result (point_of self.new) }
    {
        if self.is_symbol(Symbol::Open) {
            return Ok(Item::Proc(self.procedure(name)?));
        }
        let token = name.token;
        let form = self.named_datum(name)?;
        Ok(datum_at(token, form))
    }

    fn align_item(&mut self) -> Result<Item, Stop>
        ensures { Takes (λ fuel. readers.align_item) (point_of self.old) result (point_of self.new) }
    {
        let token = self.here();
        self.expect_word(Keyword::Align)?;
        let bytes = self.int()?;
        self.expect(Symbol::Semicolon)?;
        Ok(datum_at(token, DatumForm::Align(bytes)))
    }

    /// Data of this type, or a declaration where there is none.
    fn item_by(&mut self, width: Option<TypeName>) -> Result<Item, Stop>
        ensures { Takes (λ fuel. readers.item_by fuel width) (point_of self.old) result (point_of self.new) }
    {
        match width {
            Some(width) => {
                let token = width.token;
                let form = self.values_of(width)?;
                Ok(datum_at(token, form))
            }
            None => Ok(Item::Decl(self.decl()?)),
        }
    }

    /// An item that holds no other.
    pub(crate) fn flat_item(&mut self) -> Result<Item, Stop>
        ensures { Takes (λ fuel. readers.flat_item fuel (block fuel)) (point_of self.old) result (point_of self.new) }
    {
        if self.is_name() {
            let name = self.ident()?;
            return self.named_item(name);
        }
        if self.is_word(Keyword::Align) {
            return self.align_item();
        }
        let width = self.bits();
        self.item_by(width)
    }
}
