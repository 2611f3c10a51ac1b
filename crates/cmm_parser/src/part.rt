//! The parts of a body that hold no block: most statements, told apart by their first tokens, and the declarations.

ghost use Rattle.std.specs.Prelude.{◌≡◌, ◌-◌, ◌<◌, ◌≤◌, ◌∷◌, [], None, Some, length, IfOk, OnOk};
ghost use Rattle.cmm_lexer.specs.Spellings.{symbol_number};
ghost use Rattle.cmm_grammar.specs.Taking.{is_sign};
ghost use Rattle.cmm_lexer.specs.declared.symbol.Symbol.TheVariants.{Open, Less};
ghost use Rattle.cmm_ast.specs.declared.statement.Lvalue.TheVariants as lvalues;
ghost use Rattle.cmm_grammar.specs.declared.told_apart.Targets.TheVariants as targets;
ghost use Rattle.cmm_grammar.specs.Reading.{◌>>=◌ as followed_by, optional, round, may_list};
ghost use Rattle.cmm_grammar.specs.ExpressionReading.{whole_memory};
ghost use Rattle.cmm_grammar.specs.ProcedureReading.{variables};
ghost use Rattle.cmm_grammar.specs.PartReading as parts;
ghost use Rattle.cmm_grammar.specs.StatementReading as readers;
ghost use Rattle.cmm_parser.specs.inside.Parsing.{Takes, MayTake, point_of};

use crate::fault::Stop;
use crate::parser::Parser;
use crate::types::named_type;
use cmm_ast::{
    Actual, Callee, CalleeForm, Exit, Ident, Kinded, LocalForm, Lvalue, Memory, Modifiers,
    StmtForm, Text, TypeName,
};
use cmm_grammar::{PartForm, Targets};
use cmm_items::Items;
use cmm_lexer::{Keyword, Symbol, TokenKind};
use std::alloc::{AllocError, Global};

/// This name, as what an assignment begins with.
fn first_name(alloc: Global, name: Ident) -> Result<Targets, AllocError>
    ensures { IfOk result (λ made. made ≡ targets.Names (name ∷ [])) }
{
    let mut names = Items::new(alloc);
    names.push(name)?;
    Ok(Targets::Names(names))
}

/// This word in memory, as what an assignment begins with.
fn first_memory(alloc: Global, memory: Memory) -> Result<Targets, AllocError>
    ensures { IfOk result (λ made. made ≡ targets.Lvalues (lvalues.Memory memory ∷ [])) }
{
    let mut to = Items::new(alloc);
    to.push(Lvalue::Memory(memory))?;
    Ok(Targets::Lvalues(to))
}

/// This result, as what a call begins with.
fn first_result(alloc: Global, kind: Text, name: Ident) -> Result<Targets, AllocError>
    ensures { IfOk result (λ made. made ≡ targets.Results (record { kind = Some kind; name = name } ∷ [])) }
{
    let mut results = Items::new(alloc);
    results.push(Kinded {
        kind: Some(kind),
        name,
    })?;
    Ok(Targets::Results(results))
}

/// The number of the token that a word in memory begins with.
fn memory_token(memory: &Memory) -> u32
    ensures { result ≡ readers.memory_token memory.now }
{
    memory.width.token
}

impl Parser<'_> {
    /// A part that holds no block.
    #[inline(never)]
    pub(crate) fn flat_part(&mut self) -> Result<PartForm, Stop>
        ensures { Takes (λ fuel. readers.flat_part fuel) (point_of self.old) result (point_of self.new) }
    {
        let Some(kind) = self.next() else {
            return self.symbol_part();
        };
        match kind {
            TokenKind::Name(_) => self.name_part(),
            TokenKind::Text(_) => self.text_part(),
            TokenKind::Word(_) => self.word_part(),
            _ => self.symbol_part(),
        }
    }

    /// A part that begins with a symbol.
    fn symbol_part(&mut self) -> Result<PartForm, Stop>
        ensures { Takes (λ fuel. readers.of_stmt (readers.symbol_stmt fuel)) (point_of self.old) result (point_of self.new) }
    {
        let form = self.symbol_stmt()?;
        Ok(PartForm::OfStmt(form))
    }

    /// Variables, as a part.
    fn variables_part(&mut self, modifiers: Modifiers, width: TypeName) -> Result<PartForm, Stop>
        ensures { Takes (λ fuel. readers.of_local (variables fuel modifiers width)) (point_of self.old) result (point_of self.new) }
    {
        let form = self.variables(modifiers, width)?;
        Ok(PartForm::OfLocal(form))
    }

    /// A part that begins with a name: where another name follows, it is the type of variables.
    fn name_part(&mut self) -> Result<PartForm, Stop>
        ensures { Takes (λ fuel. readers.name_part fuel) (point_of self.old) result (point_of self.new) }
    {
        let name = self.ident()?;
        if self.is_name() {
            self.variables_part(Modifiers::Nothing, named_type(name))
        } else {
            let form = self.name_stmt(name)?;
            Ok(PartForm::OfStmt(form))
        }
    }

    /// A part that begins with a text, which is the kind of variables or of a result.
    fn text_part(&mut self) -> Result<PartForm, Stop>
        ensures { Takes (λ fuel. readers.text_part fuel) (point_of self.old) result (point_of self.new) }
    {
        let kind = self.text()?;
        if self.accept_word(Keyword::Invariant) {
            let width = self.type_name()?;
            self.variables_part(Modifiers::KindInvariant(kind), width)
        } else {
            self.kind_part(kind)
        }
    }

    /// What follows a kind that no `invariant` follows.
    fn kind_part(&mut self, kind: Text) -> Result<PartForm, Stop>
        ensures { Takes (λ fuel. readers.kind_part fuel kind) (point_of self.old) result (point_of self.new) }
    {
        match self.bits() {
            Some(width) => self.variables_part(Modifiers::Kind(kind), width),
            None => {
                let name = self.ident()?;
                self.kinded_part(kind, name)
            }
        }
    }

    /// What follows a kind and a name, which is the type of variables or a result.
    fn kinded_part(&mut self, kind: Text, name: Ident) -> Result<PartForm, Stop>
        ensures { Takes (λ fuel. readers.kinded_part fuel kind name) (point_of self.old) result (point_of self.new) }
    {
        if self.is_name() {
            self.variables_part(Modifiers::Kind(kind), named_type(name))
        } else {
            let first = first_result(self.alloc, kind, name)?;
            let form = self.assignment(first)?;
            Ok(PartForm::OfStmt(form))
        }
    }

    /// A part that begins with a reserved word.
    fn word_part(&mut self) -> Result<PartForm, Stop>
        ensures { Takes (λ fuel. readers.word_part fuel) (point_of self.old) result (point_of self.new) }
    {
        match self.bits() {
            Some(width) => self.width_part(width),
            None => self.other_part(),
        }
    }

    /// What follows a type: a word in memory or variables.
    fn width_part(&mut self, width: TypeName) -> Result<PartForm, Stop>
        ensures { Takes (λ fuel. readers.width_part fuel width) (point_of self.old) result (point_of self.new) }
    {
        if self.is_symbol(Symbol::OpenSquare) {
            let form = self.memory_first(width)?;
            Ok(PartForm::OfStmt(form))
        } else {
            self.variables_part(Modifiers::Nothing, width)
        }
    }

    /// A part that begins with a reserved word that is no type.
    fn other_part(&mut self) -> Result<PartForm, Stop>
        ensures { Takes (λ fuel. readers.other_part fuel) (point_of self.old) result (point_of self.new) }
    {
        if self.is_word(Keyword::Invariant) {
            let modifiers = self.modifiers_of()?;
            let width = self.type_name()?;
            self.variables_part(modifiers, width)
        } else if self.accept_word(Keyword::Stackdata) {
            let form = self.stackdata()?;
            Ok(PartForm::OfLocal(form))
        } else {
            let form = self.word_stmt()?;
            Ok(PartForm::OfStmt(form))
        }
    }

    /// A statement that begins with a word in memory of this type.
    fn memory_first(&mut self, width: TypeName) -> Result<StmtForm, Stop>
        ensures { Takes (λ fuel. followed_by (whole_memory fuel width) (λ m. readers.memory_stmt fuel m)) (point_of self.old) result (point_of self.new) }
    {
        let memory = self.whole_memory(width)?;
        self.memory_stmt(memory)
    }

    /// A statement after its first name.
    fn name_stmt(&mut self, name: Ident) -> Result<StmtForm, Stop>
        ensures { Takes (λ fuel. readers.name_stmt fuel name) (point_of self.old) result (point_of self.new) }
    {
        if self.accept(Symbol::Colon) {
            Ok(StmtForm::Label(name))
        } else if self.is_symbol(Symbol::OpenSquare) {
            self.memory_first(named_type(name))
        } else if self.is_symbol(Symbol::Open) {
            let callee = Callee {
                token: name.token,
                form: CalleeForm::Name(name),
            };
            self.call(Items::new(self.alloc), None, callee)
        } else {
            let first = first_name(self.alloc, name)?;
            self.assignment(first)
        }
    }

    /// A statement after the word in memory that it begins with.
    fn memory_stmt(&mut self, memory: Memory) -> Result<StmtForm, Stop>
        ensures { Takes (λ fuel. readers.memory_stmt fuel memory) (point_of self.old) result (point_of self.new) }
    {
        if self.is_symbol(Symbol::Open) {
            let token = memory_token(&memory);
            let callee = Callee {
                token,
                form: CalleeForm::Memory(memory),
            };
            self.call(Items::new(self.alloc), None, callee)
        } else {
            let first = first_memory(self.alloc, memory)?;
            self.assignment(first)
        }
    }

    /// A statement that begins with a reserved word.
    fn word_stmt(&mut self) -> Result<StmtForm, Stop>
        ensures { Takes (λ fuel. readers.word_stmt fuel) (point_of self.old) result (point_of self.new) }
    {
        if self.accept_word(Keyword::Return) {
            self.return_form()
        } else if self.accept_word(Keyword::Goto) {
            self.goto()
        } else if self.accept_word(Keyword::Jump) {
            self.jump()
        } else if self.accept_word(Keyword::Cut) {
            self.cut()
        } else if self.accept_word(Keyword::Continuation) {
            self.continuation()
        } else if self.is_word(Keyword::Foreign) {
            self.call_after(Items::new(self.alloc))
        } else {
            Err(self.unexpected())
        }
    }

    /// A statement that begins with a symbol.
    fn symbol_stmt(&mut self) -> Result<StmtForm, Stop>
        ensures { Takes (λ fuel. readers.symbol_stmt fuel) (point_of self.old) result (point_of self.new) }
    {
        if self.is_symbol(Symbol::Open) {
            self.call_after(Items::new(self.alloc))
        } else {
            self.expect(Symbol::Semicolon)?;
            Ok(StmtForm::Empty)
        }
    }

    /// What follows a `return`.
    fn return_form(&mut self) -> Result<StmtForm, Stop>
        ensures { Takes (λ fuel. readers.return_form fuel) (point_of self.old) result (point_of self.new) }
    {
        let exit = self.optional_exit()?;
        let values = self.optional_arguments()?;
        self.expect(Symbol::Semicolon)?;
        Ok(StmtForm::Return { exit, values })
    }

    /// The exit that may stand here.
    fn optional_exit(&mut self) -> Result<Option<Exit>, Stop>
        ensures { MayTake (λ fuel. optional (is_sign Less) (parts.exit fuel)) (point_of self.old) result (point_of self.new) }
    {
        if self.is_symbol(Symbol::Less) {
            Ok(Some(self.exit()?))
        } else {
            Ok(None)
        }
    }

    /// The values in brackets that may stand here.
    fn optional_arguments(&mut self) -> Result<Option<Items<Actual>>, Stop>
        ensures { MayTake (λ fuel. optional (is_sign Open) (parts.arguments fuel)) (point_of self.old) result (point_of self.new) }
    {
        if self.is_symbol(Symbol::Open) {
            Ok(Some(self.arguments()?))
        } else {
            Ok(None)
        }
    }

    /// What follows a `goto`.
    fn goto(&mut self) -> Result<StmtForm, Stop>
        ensures { Takes (λ fuel. readers.goto) (point_of self.old) result (point_of self.new) }
    {
        let name = self.ident()?;
        self.expect(Symbol::Semicolon)?;
        Ok(StmtForm::Goto(name))
    }

    /// What follows a `jump`.
    fn jump(&mut self) -> Result<StmtForm, Stop>
        ensures { Takes (λ fuel. readers.jump fuel) (point_of self.old) result (point_of self.new) }
    {
        let callee = self.callee()?;
        let actuals = self.arguments()?;
        self.expect(Symbol::Semicolon)?;
        Ok(StmtForm::Jump { callee, actuals })
    }

    /// What follows a `cut`.
    fn cut(&mut self) -> Result<StmtForm, Stop>
        ensures { Takes (λ fuel. readers.cut fuel) (point_of self.old) result (point_of self.new) }
    {
        self.expect_word(Keyword::To)?;
        let callee = self.callee()?;
        let actuals = self.arguments()?;
        let flows = self.last_annotations()?;
        Ok(StmtForm::Cut {
            callee,
            actuals,
            flows,
        })
    }

    /// What follows a `continuation`.
    fn continuation(&mut self) -> Result<StmtForm, Stop>
        ensures { Takes (λ fuel. readers.continuation fuel) (point_of self.old) result (point_of self.new) }
    {
        let name = self.ident()?;
        let parameters = self.parameters()?;
        self.expect(Symbol::Colon)?;
        Ok(StmtForm::Continuation { name, parameters })
    }

    /// The parameters of a continuation, in their brackets.
    fn parameters(&mut self) -> Result<Items<Kinded>, Stop>
        ensures { Takes (λ fuel. round (may_list fuel parts.begins_kinded parts.kinded)) (point_of self.old) result (point_of self.new) }
    {
        let outside = self.enter(Symbol::Open)?;
        let parameters = self.may_list()?;
        self.leave(Symbol::Close, outside)?;
        Ok(parameters)
    }
}
