//! Declarations of a unit.

ghost use Rattle.std.specs.Prelude.{◌≡◌, ◌-◌, ◌<◌, ◌≤◌, length, Ok, OnOk};
ghost use Rattle.cmm_lexer.specs.Spellings.{keyword_number};
ghost use Rattle.cmm_grammar.specs.Taking.{is_word};
ghost use Rattle.cmm_lexer.specs.declared.keyword.Keyword.{Keyword};
ghost use Rattle.cmm_lexer.specs.declared.symbol.Symbol.{Symbol};
ghost use Rattle.cmm_grammar.specs.Reading.{next, passes};
ghost use Rattle.cmm_grammar.specs.Reading as tokens;
ghost use Rattle.cmm_grammar.specs.PartReading.{is_any_name, is_any_text};
ghost use Rattle.cmm_grammar.specs.DeclarationReading as readers;
ghost use Rattle.cmm_parser.specs.inside.Parsing.{Takes, MayTake, point_of};

use crate::fault::Stop;
use crate::list::Listed;
use crate::parser::Parser;
use crate::types::named_type;
use cmm_ast::{
    ByteOrder, Decl, DeclForm, Export, Ident, Import, Property, PropertyForm, Text, TypeName,
};
use cmm_grammar::Head;
use cmm_items::Items;
use cmm_lexer::{Keyword, Symbol};

impl Listed for Ident {
    ghost reads = { λ fuel. tokens.ident };

    ghost begins = { is_any_name };

    fn is_next(parser: &Parser<'_>) -> bool {
        parser.is_name()
    }

    fn parse(parser: &mut Parser<'_>) -> Result<Ident, Stop> {
        parser.ident()
    }
}

impl Listed for Import {
    ghost reads = { λ fuel. readers.import_name };

    ghost begins = { readers.begins_name };

    fn is_next(parser: &Parser<'_>) -> bool {
        parser.is_name() || parser.is_text()
    }

    fn parse(parser: &mut Parser<'_>) -> Result<Import, Stop> {
        let link = parser.import_link()?;
        let name = parser.ident()?;
        Ok(Import { link, name })
    }
}

impl Listed for Export {
    ghost reads = { λ fuel. readers.export_name };

    ghost begins = { is_any_name };

    fn is_next(parser: &Parser<'_>) -> bool {
        parser.is_name()
    }

    fn parse(parser: &mut Parser<'_>) -> Result<Export, Stop> {
        let name = parser.ident()?;
        parser.export_of(name)
    }
}

impl Listed for Property {
    ghost reads = { λ fuel. readers.property };

    ghost begins = { readers.is_other Symbol.Semicolon };

    fn is_next(parser: &Parser<'_>) -> bool {
        parser.is_within(Symbol::Semicolon)
    }

    fn parse(parser: &mut Parser<'_>) -> Result<Property, Stop> {
        let token = parser.here();
        let form = parser.property_form()?;
        Ok(Property { token, form })
    }
}

impl Parser<'_> {
    /// A type, or else the first name where there is none: a name is a type where a name or a text follows.
    fn head(&mut self) -> Result<Head, Stop>
        ensures { MayTake (λ fuel. readers.head) (point_of self.old) result (point_of self.new) }
    {
        match self.bits() {
            Some(width) => Ok(Head::TypeFirst(width)),
            None => self.untyped_head(),
        }
    }

    /// The same where the type is no word for bits.
    fn untyped_head(&mut self) -> Result<Head, Stop>
        ensures { MayTake (λ fuel. readers.head_by None) (point_of self.old) result (point_of self.new) }
    {
        if self.is_name() {
            self.name_head()
        } else {
            Ok(Head::Neither)
        }
    }

    fn name_head(&mut self) -> Result<Head, Stop>
        ensures { Takes (λ fuel. readers.name_head) (point_of self.old) result (point_of self.new) }
    {
        let name = self.ident()?;
        if self.is_name() || self.is_text() {
            Ok(Head::TypeFirst(named_type(name)))
        } else {
            Ok(Head::NameFirst(name))
        }
    }

    /// The name under which another unit exports it, and `as`.
    fn text_as(&mut self) -> Result<Text, Stop>
        ensures { Takes (λ fuel. readers.text_as) (point_of self.old) result (point_of self.new) }
    {
        let name = self.text()?;
        self.expect_word(Keyword::As)?;
        Ok(name)
    }

    fn import_link(&mut self) -> Result<Option<Text>, Stop>
        ensures { MayTake (λ fuel. tokens.optional is_any_text readers.text_as) (point_of self.old) result (point_of self.new) }
    {
        if self.is_text() {
            Ok(Some(self.text_as()?))
        } else {
            Ok(None)
        }
    }

    /// `as`, and the name under which it is published.
    fn as_text(&mut self) -> Result<Text, Stop>
        ensures { Takes (λ fuel. readers.as_text) (point_of self.old) result (point_of self.new) }
    {
        self.expect_word(Keyword::As)?;
        self.text()
    }

    fn export_link(&mut self) -> Result<Option<Text>, Stop>
        ensures { MayTake (λ fuel. tokens.optional (is_word Keyword.As) readers.as_text) (point_of self.old) result (point_of self.new) }
    {
        if self.is_word(Keyword::As) {
            Ok(Some(self.as_text()?))
        } else {
            Ok(None)
        }
    }

    /// An export after its name.
    fn export_of(&mut self, name: Ident) -> Result<Export, Stop>
        ensures { MayTake (λ fuel. readers.export_of name) (point_of self.old) result (point_of self.new) }
    {
        let link = self.export_link()?;
        Ok(Export { name, link })
    }

    /// What is imported, after the head.
    fn imports_by(&mut self, head: Head) -> Result<(Option<TypeName>, Items<Import>), Stop>
        ensures { MayTake (λ fuel. readers.imports_by fuel head) (point_of self.old) result (point_of self.new) }
    {
        match head {
            Head::TypeFirst(width) => {
                let imports = self.listed()?;
                Ok((Some(width), imports))
            }
            Head::NameFirst(name) => {
                let imports = self.listed_from(Import { link: None, name })?;
                Ok((None, imports))
            }
            Head::Neither => {
                let imports = self.listed()?;
                Ok((None, imports))
            }
        }
    }

    /// What is exported, after the head.
    fn exports_by(&mut self, head: Head) -> Result<(Option<TypeName>, Items<Export>), Stop>
        ensures { MayTake (λ fuel. readers.exports_by fuel head) (point_of self.old) result (point_of self.new) }
    {
        match head {
            Head::TypeFirst(width) => {
                let exports = self.listed()?;
                Ok((Some(width), exports))
            }
            Head::NameFirst(name) => {
                let first = self.export_of(name)?;
                let exports = self.listed_from(first)?;
                Ok((None, exports))
            }
            Head::Neither => {
                let exports = self.listed()?;
                Ok((None, exports))
            }
        }
    }

    /// The name of a constant, after the head.
    fn typed_name_by(&mut self, head: Head) -> Result<(Option<TypeName>, Ident), Stop>
        ensures { MayTake (λ fuel. readers.typed_name_by head) (point_of self.old) result (point_of self.new) }
    {
        match head {
            Head::TypeFirst(width) => {
                let name = self.ident()?;
                Ok((Some(width), name))
            }
            Head::NameFirst(name) => Ok((None, name)),
            Head::Neither => {
                let name = self.ident()?;
                Ok((None, name))
            }
        }
    }

    fn byte_order(&mut self) -> Result<ByteOrder, Stop>
        ensures { Takes (λ fuel. readers.byte_order) (point_of self.old) result (point_of self.new) }
    {
        if self.accept_word(Keyword::Little) {
            return Ok(ByteOrder::Little);
        }
        self.expect_word(Keyword::Big)?;
        Ok(ByteOrder::Big)
    }

    /// What a property says.
    fn property_form(&mut self) -> Result<PropertyForm, Stop>
        ensures { Takes (λ fuel. readers.property_form) (point_of self.old) result (point_of self.new) }
    {
        if self.accept_word(Keyword::Memsize) {
            return Ok(PropertyForm::Memsize(self.int()?));
        }
        if self.accept_word(Keyword::Byteorder) {
            return Ok(PropertyForm::Byteorder(self.byte_order()?));
        }
        if self.accept_word(Keyword::Pointersize) {
            return Ok(PropertyForm::Pointersize(self.int()?));
        }
        self.expect_word(Keyword::Wordsize)?;
        Ok(PropertyForm::Wordsize(self.int()?))
    }

    /// What follows an `import`.
    fn imports(&mut self) -> Result<DeclForm, Stop>
        ensures { Takes (λ fuel. readers.imports fuel) (point_of self.old) result (point_of self.new) }
    {
        let head = self.head()?;
        let (width, imports) = self.imports_by(head)?;
        self.expect(Symbol::Semicolon)?;
        Ok(DeclForm::Import { width, imports })
    }

    /// What follows an `export`.
    fn exports(&mut self) -> Result<DeclForm, Stop>
        ensures { Takes (λ fuel. readers.exports fuel) (point_of self.old) result (point_of self.new) }
    {
        let head = self.head()?;
        let (width, exports) = self.exports_by(head)?;
        self.expect(Symbol::Semicolon)?;
        Ok(DeclForm::Export { width, exports })
    }

    /// What follows a `const`.
    fn constant(&mut self) -> Result<DeclForm, Stop>
        ensures { Takes (λ fuel. readers.constant fuel) (point_of self.old) result (point_of self.new) }
    {
        let head = self.head()?;
        let (width, name) = self.typed_name_by(head)?;
        self.expect(Symbol::Assign)?;
        let value = self.whole()?;
        self.expect(Symbol::Semicolon)?;
        Ok(DeclForm::Const { width, name, value })
    }

    /// What follows a `typedef`.
    fn typedef(&mut self) -> Result<DeclForm, Stop>
        ensures { Takes (λ fuel. readers.typedef fuel) (point_of self.old) result (point_of self.new) }
    {
        let width = self.type_name()?;
        let names = self.listed()?;
        self.expect(Symbol::Semicolon)?;
        Ok(DeclForm::Typedef { width, names })
    }

    /// What follows a `target`.
    fn target(&mut self) -> Result<DeclForm, Stop>
        ensures { Takes (λ fuel. readers.target fuel) (point_of self.old) result (point_of self.new) }
    {
        let properties = self.many()?;
        self.expect(Symbol::Semicolon)?;
        Ok(DeclForm::Target(properties))
    }

    /// A declaration of registers, whole.
    fn register(&mut self) -> Result<DeclForm, Stop>
        ensures { Takes (λ fuel. readers.register fuel) (point_of self.old) result (point_of self.new) }
    {
        let invariant = self.accept_word(Keyword::Invariant);
        self.expect_word(Keyword::Register)?;
        let kind = self.optional_text()?;
        let width = self.type_name()?;
        let names = self.listed()?;
        self.expect(Symbol::Semicolon)?;
        Ok(DeclForm::Register {
            invariant,
            kind,
            width,
            names,
        })
    }

    /// What a declaration is, by its first word.
    fn decl_form(&mut self) -> Result<DeclForm, Stop>
        ensures { Takes (λ fuel. readers.decl_form fuel) (point_of self.old) result (point_of self.new) }
    {
        if self.accept_word(Keyword::Import) {
            return self.imports();
        }
        if self.accept_word(Keyword::Export) {
            return self.exports();
        }
        if self.accept_word(Keyword::Const) {
            return self.constant();
        }
        if self.accept_word(Keyword::Typedef) {
            return self.typedef();
        }
        if self.accept_word(Keyword::Target) {
            return self.target();
        }
        self.register()
    }

    pub(crate) fn decl(&mut self) -> Result<Decl, Stop>
        ensures { Takes (λ fuel. readers.decl fuel) (point_of self.old) result (point_of self.new) }
    {
        let token = self.here();
        let form = self.decl_form()?;
        Ok(Decl { token, form })
    }
}
