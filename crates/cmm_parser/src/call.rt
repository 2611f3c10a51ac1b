//! Calls: what is called, what is passed, and the annotations.

ghost use Rattle.std.specs.Prelude.{◌≡◌, ◌+◌, ◌-◌, ◌<◌, ◌≤◌, length, OnOk};
ghost use Rattle.cmm_grammar.specs.Reading.{◌>>=◌ as followed_by, next, passes, keyword, listed, round};
ghost use Rattle.cmm_lexer.specs.declared.keyword.Keyword.TheVariants.{To};
ghost use Rattle.cmm_grammar.specs.ExpressionReading.{whole};
ghost use Rattle.cmm_grammar.specs.Reading as readers;
ghost use Rattle.cmm_grammar.specs.PartReading as parts;
ghost use Rattle.cmm_grammar.specs.CallReading as calls;
ghost use Rattle.cmm_parser.specs.inside.Ended.{ended};
ghost use Rattle.cmm_parser.specs.inside.Parsing.{Takes, MayTake, point_of};

use crate::fault::Stop;
use crate::list::Listed;
use crate::parser::Parser;
use cmm_ast::{
    Actual, Callee, CalleeForm, Exit, Expr, Flow, FlowForm, Ident, Kinded, Lvalue, StmtForm, Text,
};
use cmm_items::Items;
use cmm_lexer::{Keyword, Symbol};

impl Listed for Kinded {
    ghost reads = { λ fuel. parts.kinded };

    ghost begins = { parts.begins_kinded };

    fn is_next(parser: &Parser<'_>) -> bool {
        parser.is_text() || parser.is_name()
    }

    fn parse(parser: &mut Parser<'_>) -> Result<Kinded, Stop> {
        let kind = parser.optional_text()?;
        let name = parser.ident()?;
        Ok(Kinded { kind, name })
    }
}

impl Listed for Actual {
    ghost reads = { λ fuel. parts.actual fuel };

    ghost begins = { parts.begins_actual };

    fn is_next(parser: &Parser<'_>) -> bool {
        parser.is_text() || parser.is_expression()
    }

    fn parse(parser: &mut Parser<'_>) -> Result<Actual, Stop> {
        let kind = parser.optional_text()?;
        let value = parser.whole()?;
        Ok(Actual { kind, value })
    }
}

impl Listed for Flow {
    ghost reads = { λ fuel. parts.flow fuel };

    ghost begins = { parts.begins_flow };

    fn is_next(parser: &Parser<'_>) -> bool {
        parser.is_word(Keyword::Also) || parser.is_word(Keyword::Never)
    }

    fn parse(parser: &mut Parser<'_>) -> Result<Flow, Stop> {
        let token = parser.here();
        let form = parser.flow_form()?;
        Ok(Flow { token, form })
    }
}

/// What is assigned to, as what is called.
fn called(lvalue: Lvalue) -> CalleeForm
    ensures { result ≡ parts.called lvalue }
{
    match lvalue {
        Lvalue::Name(name) => CalleeForm::Name(name),
        Lvalue::Memory(memory) => CalleeForm::Memory(memory),
    }
}

impl Parser<'_> {
    /// The values that are passed, in their brackets.
    pub(crate) fn arguments(&mut self) -> Result<Items<Actual>, Stop>
        ensures { Takes (λ fuel. parts.arguments fuel) (point_of self.old) result (point_of self.new) }
    {
        self.begin_outermost();
        let outside = self.enter(Symbol::Open)?;
        let actuals = self.may_list()?;
        self.leave(Symbol::Close, outside)?;
        Ok(actuals)
    }

    /// An expression in round brackets.
    fn whole_in_brackets(&mut self) -> Result<Expr, Stop>
        ensures { Takes (λ fuel. round (whole fuel)) (point_of self.old) result (point_of self.new) }
    {
        let outside = self.enter(Symbol::Open)?;
        let inner = self.whole()?;
        self.leave(Symbol::Close, outside)?;
        Ok(inner)
    }

    /// What is called: an expression in round brackets, a name or a word in memory.
    fn callee_form(&mut self) -> Result<CalleeForm, Stop>
        ensures { Takes (λ fuel. parts.callee_form fuel) (point_of self.old) result (point_of self.new) }
    {
        if self.is_symbol(Symbol::Open) {
            let inner = self.whole_in_brackets()?;
            Ok(CalleeForm::Bracketed(inner))
        } else {
            let lvalue = self.lvalue()?;
            Ok(called(lvalue))
        }
    }

    /// What is called, jumped to or cut to.
    pub(crate) fn callee(&mut self) -> Result<Callee, Stop>
        ensures { Takes (λ fuel. parts.callee fuel) (point_of self.old) result (point_of self.new) }
    {
        let token = self.here();
        let form = self.callee_form()?;
        Ok(Callee { token, form })
    }

    /// A call after its callee.
    pub(crate) fn call(
        &mut self,
        results: Items<Kinded>,
        convention: Option<Text>,
        callee: Callee,
    ) -> Result<StmtForm, Stop>
        ensures { Takes (λ fuel. calls.call fuel results convention callee) (point_of self.old) result (point_of self.new) }
    {
        let actuals = self.arguments()?;
        let flows = self.last_annotations()?;
        Ok(StmtForm::Call {
            results,
            convention,
            callee,
            actuals,
            flows,
        })
    }

    /// The convention of a call, where it has one.
    fn convention(&mut self) -> Result<Option<Text>, Stop>
        ensures { MayTake (λ fuel. calls.convention) (point_of self.old) result (point_of self.new) }
    {
        if self.accept_word(Keyword::Foreign) {
            Ok(Some(self.text()?))
        } else {
            Ok(None)
        }
    }

    /// A call after the `=` that follows its results, or one without them.
    pub(crate) fn call_after(&mut self, results: Items<Kinded>) -> Result<StmtForm, Stop>
        ensures { Takes (λ fuel. calls.call_after fuel results) (point_of self.old) result (point_of self.new) }
    {
        let convention = self.convention()?;
        let callee = self.callee()?;
        self.call(results, convention, callee)
    }

    /// The comma that may stand here.
    fn may_comma(&mut self)
        ensures { MayTake (λ fuel. parts.may_comma) (point_of self.old) (Ok tt) (point_of self.new) }
    {
        self.accept(Symbol::Comma);
    }

    /// The continuations of an annotation, and the comma that may follow them.
    fn names_to(&mut self) -> Result<Items<Ident>, Stop>
        ensures { Takes (λ fuel. followed_by (keyword To) (λ _. listed fuel parts.is_any_name readers.ident)) (point_of self.old) result (point_of self.new) }
    {
        self.expect_word(Keyword::To)?;
        self.listed()
    }

    /// What follows an `also`.
    fn also(&mut self) -> Result<FlowForm, Stop>
        ensures { Takes (λ fuel. parts.also fuel) (point_of self.old) result (point_of self.new) }
    {
        if self.accept_word(Keyword::Aborts) {
            self.may_comma();
            Ok(FlowForm::Aborts)
        } else if self.accept_word(Keyword::Cuts) {
            Ok(FlowForm::CutsTo(self.names_to()?))
        } else if self.accept_word(Keyword::Unwinds) {
            Ok(FlowForm::UnwindsTo(self.names_to()?))
        } else {
            self.expect_word(Keyword::Returns)?;
            Ok(FlowForm::ReturnsTo(self.names_to()?))
        }
    }

    /// What an annotation says.
    fn flow_form(&mut self) -> Result<FlowForm, Stop>
        ensures { Takes (λ fuel. parts.flow_form fuel) (point_of self.old) result (point_of self.new) }
    {
        if self.accept_word(Keyword::Never) {
            self.expect_word(Keyword::Returns)?;
            self.may_comma();
            Ok(FlowForm::NeverReturns)
        } else {
            self.expect_word(Keyword::Also)?;
            self.also()
        }
    }

    /// The annotations, after each of which a comma may stand.
    pub(crate) fn annotations(&mut self) -> Result<Items<Flow>, Stop>
        ensures { MayTake (λ fuel. parts.annotations fuel) (point_of self.old) result (point_of self.new) }
    {
        self.many()
    }

    /// The annotations at the end of a statement, and its semicolon.
    pub(crate) fn last_annotations(&mut self) -> Result<Items<Flow>, Stop>
        ensures { Takes (λ fuel. ended (parts.annotations fuel)) (point_of self.old) result (point_of self.new) }
    {
        let flows = self.annotations()?;
        self.expect(Symbol::Semicolon)?;
        Ok(flows)
    }

    /// The exit of a return.
    pub(crate) fn exit(&mut self) -> Result<Exit, Stop>
        ensures { Takes (λ fuel. parts.exit fuel) (point_of self.old) result (point_of self.new) }
    {
        let token = self.here();
        self.expect(Symbol::Less)?;
        let index = self.whole_prim()?;
        self.expect(Symbol::Slash)?;
        let count = self.whole_prim()?;
        self.expect(Symbol::Greater)?;
        Ok(Exit {
            token,
            index,
            count,
        })
    }
}
