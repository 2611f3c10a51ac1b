//! The types and the values of expressions in a scope that is a list of names.

ghost use Rattle.std.specs.Prelude.{◌≡◌, IsTrue};
ghost use Rattle.cmm_static_semantics.specs.Algebras.{knowns};
ghost use Rattle.cmm_static_semantics.specs.Constants.{constant_of};
ghost use Rattle.cmm_static_semantics.specs.Typing.{expr_type};
ghost use Rattle.cmm_typing.specs.Fitting.{AreWords};
ghost use Rattle.cmm_typing.specs.Meanings.{Answers, fault_of, meaning_in, sense_of, senses_of, type_shown};
ghost use Rattle.cmm_typing.specs.Words.{are_words, is_word};

use crate::judging::{as_wanted, judge};
use crate::meaning::{ExprType, Meaning, TypeFault};
use crate::names::Names;
use cmm_ast::Expr;
use cmm_items::Items;
use cmm_operators::{Judged, as_constant};
use cmm_rules::Rule;
use cmm_static_semantics::{Host, Known, Sense, Spot, Typed};
use cmm_words::{Constant, Name};

/// Names with what they mean. The last entry of a name counts.
pub struct Scope {
    pub names: Items<(Name, Meaning)>,
}

/// In one place, so that whoever lets one go has one call to prove.
impl Drop for Scope {
    fn drop(self) {
        let Self { names: _ } = self;
    }
}

impl Meaning {
    /// Whether a constant is a word of its width.
    fn fits(self) -> bool
        ensures { result ≡ is_word self }
    {
        match self {
            Meaning::Value(Constant::Number(word, width)) => word <= width.max(),
            Meaning::Value(Constant::Code { .. }) => true,
            Meaning::Value(Constant::Address { .. }) => true,
            Meaning::Variable(_, _) => true,
            Meaning::Register(_, _) => true,
            Meaning::Stack(_) => true,
            Meaning::Continuation(_) => true,
            Meaning::Typedef(_) => true,
            Meaning::CodeLabel => true,
            Meaning::Host => true,
        }
    }
}

/// Whether each constant is a word of its width.
fn are_words(entries: &[(Name, Meaning)]) -> bool
    ensures { result ≡ are_words entries.now }
{
    entries.iter().all(|entry| entry.1.fits())
}

impl Scope {
    /// Whether each constant is a word of its width, as the judgements ask.
    pub fn fits(&self) -> bool
        ensures each { result ≡ are_words self.now.names }
        ensures words { IsTrue result → AreWords (senses_of self.now.names) }
    {
        are_words(self.names.as_slice())
    }
}

/// What a meaning is among senses.
fn sense_of(meaning: Meaning) -> Sense
    ensures { result ≡ sense_of meaning }
{
    match meaning {
        Meaning::Variable(number, width) => Sense::Variable(number, Some(width)),
        Meaning::Register(number, width) => Sense::Register(number, Some(width)),
        Meaning::Value(constant) => Sense::Value(constant),
        Meaning::Stack(number) => Sense::Stackdata(number),
        Meaning::Continuation(number) => Sense::Continuation(number),
        Meaning::Typedef(width) => Sense::Typedef(Some(width)),
        Meaning::CodeLabel => Sense::CodeLabel,
        Meaning::Host => Sense::Host(Host::Yield),
    }
}

/// What the last entry of a name says.
fn meaning_in(entries: &[(Name, Meaning)], name: &Name) -> Option<Meaning>
    ensures { result ≡ meaning_in entries.now name.now }
{
    match entries.iter().rev().find(|entry| entry.0 == *name) {
        Some(entry) => Some(entry.1),
        None => None,
    }
}

impl Names for Scope {
    ghost senses = { λ scope. senses_of scope.names };

    fn sense(&self, name: &Name) -> Option<Sense> {
        match meaning_in(self.names.as_slice(), name) {
            Some(meaning) => Some(sense_of(meaning)),
            None => None,
        }
    }
}

fn fault_of(spot: Spot) -> TypeFault
    ensures { result ≡ fault_of spot }
{
    TypeFault {
        rule: spot.rule.number(),
        token: spot.token,
    }
}

fn type_shown(typed: Typed<Known, ()>) -> ExprType
    ensures { result ≡ type_shown typed }
{
    match typed {
        Typed::Bits(bits) => ExprType::Bits(bits.width),
        Typed::Test(_) => ExprType::Bool,
    }
}

#[tactic(auto, using(crate::proofs::Answering::answers_ok, crate::proofs::Answering::answers_err, crate::proofs::Answering::answers_type))]
/// The type of an expression, or the rule that it breaks and where: 21, or 23 to 26. A name of the host is bits64. Takes no memory.
pub fn type_of(e: &Expr, scope: &Scope) -> Result<ExprType, TypeFault>
    requires { AreWords (senses_of scope.now.names) }
    ensures { Answers type_shown (expr_type knowns (senses_of scope.now.names) e.now) result }
{
    match judge(scope, e) {
        Ok(typed) => Ok(type_shown(typed)),
        Err(Some(spot)) => Err(fault_of(spot)),
        // In a scope nothing is broken elsewhere.
        Err(None) => Err(fault_of(Spot {
            token: e.token,
            rule: Rule::Undeclared,
        })),
    }
}

/// The judgement of an expression as a link-time constant.
fn constant_judged(e: &Expr, scope: &Scope) -> Judged<Constant>
    requires { AreWords (senses_of scope.now.names) }
    ensures { result ≡ constant_of (senses_of scope.now.names) e.now }
{
    let typed = judge(scope, e)?;
    let bits = as_wanted(None, e.token, typed)?;
    as_constant(e.token, bits)
}

#[tactic(auto, using(crate::proofs::Answering::answers_ok, crate::proofs::Answering::answers_err, crate::proofs::Answering::answers_constant))]
/// The value of an expression that is a constant when the program is linked, or the rule that it breaks and where: 21, or 23 to 27, the last
/// at the expression's first token. Takes no memory.
pub fn constant(e: &Expr, scope: &Scope) -> Result<Constant, TypeFault>
    requires { AreWords (senses_of scope.now.names) }
    ensures { Answers (λ c. c) (constant_of (senses_of scope.now.names) e.now) result }
{
    match constant_judged(e, scope) {
        Ok(constant) => Ok(constant),
        Err(Some(spot)) => Err(fault_of(spot)),
        // In a scope nothing is broken elsewhere.
        Err(None) => Err(fault_of(Spot {
            token: e.token,
            rule: Rule::NotAConstant,
        })),
    }
}
