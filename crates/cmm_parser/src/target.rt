//! What stands before an `=`, and the statements that it begins. Names alone may be assigned to or be results of a call, so the
//! first kind, the first word in memory or else what follows the `=` decides.

ghost use Rattle.std.specs.Prelude.{◌≡◌, ◌≢◌, ◌-◌, ◌<◌, ◌≤◌, ◌∷◌, [], length, IfOk, MatchOption, OnOk};
ghost use Rattle.cmm_grammar.specs.Reading.{next, passes, listed, round};
ghost use Rattle.cmm_grammar.specs.ExpressionReading.{begins_expression, whole};
ghost use Rattle.cmm_grammar.specs.PartReading as parts;
ghost use Rattle.cmm_grammar.specs.TargetReading as readers;
ghost use Rattle.cmm_grammar.specs.declared.told_apart.Targets.TheVariants.{Names};
ghost use Rattle.cmm_parser.specs.inside.Parsing.{Takes, MayTake, point_of};

use crate::fault::Stop;
use crate::list::Listed;
use crate::parser::Parser;
use crate::types::named_type;
use cmm_ast::{Callee, CalleeForm, Expr, ExprForm, Ident, Kinded, Lvalue, PrimForm, StmtForm};
use cmm_grammar::Targets;
use cmm_items::Items;
use cmm_lexer::{Keyword, Symbol, TokenKind};
use cmm_words::Name;
use std::alloc::{AllocError, Global};

/// The names as what is assigned to.
fn lvalues_of(alloc: Global, names: Items<Ident>) -> Result<Items<Lvalue>, AllocError>
    ensures { IfOk result (λ made. made ≡ readers.lvalues_of names) }
{
    let mut to = Items::new(alloc);
    for name in names.into_vec() {
        to.push(Lvalue::Name(name))?;
    }
    Ok(to)
}

/// The names as results of a call.
fn results_of(alloc: Global, names: Items<Ident>) -> Result<Items<Kinded>, AllocError>
    ensures { IfOk result (λ made. made ≡ readers.results_of names) }
{
    let mut results = Items::new(alloc);
    for name in names.into_vec() {
        results.push(Kinded { kind: None, name })?;
    }
    Ok(results)
}

/// The names, and what is assigned to after them.
fn with_lvalue(
    alloc: Global,
    mut names: Items<Ident>,
    lvalue: Lvalue,
) -> Result<Targets, AllocError>
    ensures { IfOk result (λ made. made ≡ readers.with_lvalue names lvalue) }
{
    match lvalue {
        Lvalue::Name(name) => {
            names.push(name)?;
            Ok(Targets::Names(names))
        }
        Lvalue::Memory(memory) => {
            let mut to = lvalues_of(alloc, names)?;
            to.push(Lvalue::Memory(memory))?;
            Ok(Targets::Lvalues(to))
        }
    }
}

/// The name that stands alone, if one does.
fn only(mut names: Items<Ident>) -> Option<Ident>
    ensures { MatchOption result (length names ≢ 1) (λ name. names ≡ name ∷ []) }
{
    let name = names.pop()?;
    if names.is_empty() { Some(name) } else { None }
}

/// The callee that a primary expression before an opening bracket is.
fn callee_of_prim(token: u32, form: PrimForm) -> Option<CalleeForm>
    ensures { result ≡ readers.callee_of_prim token form }
{
    match form {
        PrimForm::Name(name) => Some(CalleeForm::Name(Ident { name, token })),
        PrimForm::Bracketed(inner) => Some(CalleeForm::Bracketed(inner.into_inner())),
        _ => None,
    }
}

/// The callee that an expression before an opening bracket is.
fn callee_of_form(token: u32, form: ExprForm) -> Option<CalleeForm>
    ensures { result ≡ readers.callee_of_form token form }
{
    match form {
        ExprForm::Prim(prim) => callee_of_prim(token, prim),
        ExprForm::Memory(memory) => Some(CalleeForm::Memory(memory)),
        _ => None,
    }
}

impl Parser<'_> {
    /// A name, or a word in memory.
    pub(crate) fn lvalue(&mut self) -> Result<Lvalue, Stop>
        ensures { Takes (λ fuel. parts.lvalue fuel) (point_of self.old) result (point_of self.new) }
    {
        match self.bits() {
            Some(width) => Ok(Lvalue::Memory(self.whole_memory(width)?)),
            None => {
                let name = self.ident()?;
                self.lvalue_from(name)
            }
        }
    }

    /// What this name begins: a name alone, or a word in memory.
    fn lvalue_from(&mut self, name: Ident) -> Result<Lvalue, Stop>
        ensures { MayTake (λ fuel. parts.lvalue_from fuel name) (point_of self.old) result (point_of self.new) }
    {
        if self.is_symbol(Symbol::OpenSquare) {
            Ok(Lvalue::Memory(self.whole_memory(named_type(name))?))
        } else {
            Ok(Lvalue::Name(name))
        }
    }

    /// The rest of an assignment or of a call with results, after the first target.
    pub(crate) fn assignment(&mut self, first: Targets) -> Result<StmtForm, Stop>
        ensures { Takes (λ fuel. readers.assignment fuel first) (point_of self.old) result (point_of self.new) }
    {
        let targets = self.more_targets(first)?;
        self.expect(Symbol::Assign)?;
        self.assigned(targets)
    }

    /// The other targets.
    fn more_targets(&mut self, first: Targets) -> Result<Targets, Stop>
        ensures { MayTake (λ fuel. readers.more_targets fuel fuel first) (point_of self.old) result (point_of self.new) }
    {
        let mut targets = first;
        while self.accept(Symbol::Comma) {
            targets = self.next_target(targets)?;
        }
        Ok(targets)
    }

    /// One more target.
    fn next_target(&mut self, targets: Targets) -> Result<Targets, Stop>
        ensures { Takes (λ fuel. readers.next_target fuel targets) (point_of self.old) result (point_of self.new) }
    {
        match targets {
            Targets::Names(names) => self.target_after_names(names),
            Targets::Lvalues(mut to) => {
                let lvalue = self.lvalue()?;
                to.push(lvalue)?;
                Ok(Targets::Lvalues(to))
            }
            Targets::Results(mut results) => {
                let kinded = Kinded::parse(self)?;
                results.push(kinded)?;
                Ok(Targets::Results(results))
            }
        }
    }

    /// One more target after names alone.
    fn target_after_names(&mut self, names: Items<Ident>) -> Result<Targets, Stop>
        ensures { Takes (λ fuel. readers.next_target fuel (Names names)) (point_of self.old) result (point_of self.new) }
    {
        if self.is_text() {
            let kinded = Kinded::parse(self)?;
            let mut results = results_of(self.alloc, names)?;
            results.push(kinded)?;
            Ok(Targets::Results(results))
        } else {
            let lvalue = self.lvalue()?;
            let targets = with_lvalue(self.alloc, names, lvalue)?;
            Ok(targets)
        }
    }

    /// What follows the `=`.
    fn assigned(&mut self, targets: Targets) -> Result<StmtForm, Stop>
        ensures { Takes (λ fuel. readers.assigned fuel targets) (point_of self.old) result (point_of self.new) }
    {
        match targets {
            Targets::Names(names) => self.after_names(names),
            Targets::Lvalues(to) => self.assign(to),
            Targets::Results(results) => self.call_after(results),
        }
    }

    /// The values that are assigned.
    fn assign(&mut self, to: Items<Lvalue>) -> Result<StmtForm, Stop>
        ensures { Takes (λ fuel. readers.assign fuel to (listed fuel begins_expression (whole fuel))) (point_of self.old) result (point_of self.new) }
    {
        let values = self.listed()?;
        self.expect(Symbol::Semicolon)?;
        Ok(StmtForm::Assign { to, values })
    }

    /// What follows names and an `=`: a call, a checked operator or values.
    fn after_names(&mut self, names: Items<Ident>) -> Result<StmtForm, Stop>
        ensures { Takes (λ fuel. readers.after_names fuel names) (point_of self.old) result (point_of self.new) }
    {
        if self.is_word(Keyword::Foreign) {
            let results = results_of(self.alloc, names)?;
            self.call_after(results)
        } else if self.is_checked_operator() {
            self.checked(names)
        } else {
            self.values_or_call(names)
        }
    }

    /// Values, or a call without a convention.
    fn values_or_call(&mut self, names: Items<Ident>) -> Result<StmtForm, Stop>
        ensures { Takes (λ fuel. readers.values fuel names) (point_of self.old) result (point_of self.new) }
    {
        let value = self.whole()?;
        if self.is_symbol(Symbol::Open) {
            let token = value.token;
            let form = callee_of_form(token, value.into_form());
            self.called(names, token, form)
        } else {
            let values = self.listed_from(value)?;
            self.expect(Symbol::Semicolon)?;
            let to = lvalues_of(self.alloc, names)?;
            Ok(StmtForm::Assign { to, values })
        }
    }

    /// A call with these results, if what is called may be called.
    fn called(
        &mut self,
        names: Items<Ident>,
        token: u32,
        form: Option<CalleeForm>,
    ) -> Result<StmtForm, Stop>
        ensures { Takes (λ fuel. readers.called fuel names token form) (point_of self.old) result (point_of self.new) }
    {
        match form {
            Some(form) => {
                let callee = Callee { token, form };
                let results = results_of(self.alloc, names)?;
                self.call(results, None, callee)
            }
            None => Err(self.unexpected()),
        }
    }

    fn is_checked_operator(&self) -> bool
        ensures { passes readers.is_checked_operator (next (point_of self.now).left) ≡ result }
    {
        matches!(self.next(), Some(TokenKind::Checked(_)))
    }

    fn checked_operator(&mut self) -> Result<Ident, Stop>
        ensures { Takes (λ fuel. readers.checked_operator) (point_of self.old) result (point_of self.new) }
    {
        let token = self.here();
        let Some(TokenKind::Checked(number)) = self.next() else {
            return Err(self.unexpected());
        };
        let name = Name::from_slice(self.alloc, self.tokens.spelling(number))?;
        self.take();
        Ok(Ident { name, token })
    }

    /// Two values with a comma between them.
    fn two_values(&mut self) -> Result<(Expr, Expr), Stop>
        ensures { Takes (λ fuel. readers.two_values fuel) (point_of self.old) result (point_of self.new) }
    {
        let left = self.whole()?;
        self.expect(Symbol::Comma)?;
        let right = self.whole()?;
        Ok((left, right))
    }

    /// The operands of a checked operator, in their brackets.
    fn checked_operands(&mut self) -> Result<(Expr, Expr), Stop>
        ensures { Takes (λ fuel. round (readers.two_values fuel)) (point_of self.old) result (point_of self.new) }
    {
        let outside = self.enter(Symbol::Open)?;
        let values = self.two_values()?;
        self.leave(Symbol::Close, outside)?;
        Ok(values)
    }

    /// What a checked operator gives, of which there is one result.
    fn checked(&mut self, names: Items<Ident>) -> Result<StmtForm, Stop>
        ensures { Takes (λ fuel. readers.checked fuel names) (point_of self.old) result (point_of self.new) }
    {
        match only(names) {
            Some(name) => self.checked_to(name),
            None => Err(self.unexpected()),
        }
    }

    /// What a checked operator gives, by the name of its result.
    fn checked_to(&mut self, name: Ident) -> Result<StmtForm, Stop>
        ensures { Takes (λ fuel. readers.checked fuel (name ∷ [])) (point_of self.old) result (point_of self.new) }
    {
        let operator = self.checked_operator()?;
        let (left, right) = self.checked_operands()?;
        let flows = self.last_annotations()?;
        Ok(StmtForm::Checked {
            result: name,
            operator,
            left,
            right,
            flows,
        })
    }
}
