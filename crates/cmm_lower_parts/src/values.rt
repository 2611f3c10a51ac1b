//! The values, conditions and callees of a program, from their expressions (C-- Language Specification 2.0, expressions).

ghost use Rattle.std.specs.Prelude.{◌≡◌, map, IfOk};
ghost use Rattle.cmm_static_semantics.specs.Algebras.{expressions};
ghost use Rattle.cmm_static_semantics.specs.Typing as typing;
ghost use Rattle.cmm_elaboration.specs.Resolving as resolving;
ghost use Rattle.cmm_lower_parts.specs.Fitting.{ActualsFit, CalleeFits};
ghost use Rattle.cmm_typing.specs.Fitting.{AreWords, FitsSense};
ghost use Rattle.cmm_typing.specs.Resolved.{AlignmentsFit};

use cmm_ast::{Actual, Callee, CalleeForm, Expr, Memory};
use cmm_items::{Boxed, Items};
use cmm_program::{Condition, Expression};
use cmm_static_semantics::{Sense, Typed};
use cmm_typing::{Judged, Names, resolve, resolve_memory, resolve_name};
use cmm_words::{Cmp, Constant, Width};
use std::alloc::{AllocError, Global};

/// What an expression is judged to be, with names resolved.
type Resolved = Judged<Typed<Expression, Condition>>;

/// What stands where there is no value.
fn no_value() -> Expression
    ensures { result ≡ resolving.no_value }
{
    Expression::Known(Constant::Number(0, Width::W64))
}

/// What stands where there is no condition.
fn no_condition(alloc: Global) -> Result<Condition, AllocError>
    ensures { IfOk result (λ c. c ≡ Condition.Compare Cmp.Eq Width.W64 resolving.no_value resolving.no_value) }
{
    let left = Boxed::new(alloc, no_value())?;
    let right = Boxed::new(alloc, no_value())?;
    Ok(Condition::Compare(Cmp::Eq, Width::W64, left, right))
}

/// The value that is judged, if there is one.
fn value_in(judged: Resolved) -> Expression
    ensures { result ≡ resolving.value_in judged }
{
    let Ok(typed) = judged else {
        return no_value();
    };
    match typed {
        Typed::Bits(bits) => bits.value.unwrap_or(no_value()),
        Typed::Test(_) => no_value(),
    }
}

/// A condition that is judged, if there is one.
fn condition_or(alloc: Global, condition: Option<Condition>) -> Result<Condition, AllocError>
    ensures { IfOk result (λ c. c ≡ resolving.condition_in (Ok (Typed.Test condition))) }
{
    match condition {
        Some(condition) => Ok(condition),
        None => no_condition(alloc),
    }
}

/// The condition that is judged, if there is one.
fn condition_in(alloc: Global, judged: Resolved) -> Result<Condition, AllocError>
    ensures { IfOk result (λ c. c ≡ resolving.condition_in judged) }
{
    let Ok(typed) = judged else {
        return no_condition(alloc);
    };
    match typed {
        Typed::Test(condition) => condition_or(alloc, condition),
        Typed::Bits(_) => no_condition(alloc),
    }
}

/// What stands for the value of an expression.
pub fn value_of<N: Names>(alloc: Global, names: &N, e: &Expr) -> Result<Expression, AllocError>
    requires { AreWords (N.senses names.now) }
    ensures { AlignmentsFit e.now → IfOk result (λ x. x ≡ resolving.value_of (N.senses names.now) e.now) }
{
    let judged = resolve(alloc, names, e)?;
    Ok(value_in(judged))
}

/// What stands for a condition.
pub fn condition_of<N: Names>(alloc: Global, names: &N, e: &Expr) -> Result<Condition, AllocError>
    requires { AreWords (N.senses names.now) }
    ensures { AlignmentsFit e.now → IfOk result (λ c. c ≡ resolving.condition_of (N.senses names.now) e.now) }
{
    let judged = resolve(alloc, names, e)?;
    condition_in(alloc, judged)
}

/// What stands for the values that are passed.
pub fn values_of<N: Names>(
    alloc: Global,
    names: &N,
    actuals: &[Actual],
) -> Result<Items<Expression>, AllocError>
    requires { AreWords (N.senses names.now) }
    ensures { ActualsFit actuals.now → IfOk result (λ xs. xs ≡ resolving.values_of (N.senses names.now) actuals.now) }
{
    let mut values = Items::new(alloc);
    for actual in actuals {
        let value = value_of(alloc, names, &actual.value)?;
        values.push(value)?;
    }
    Ok(values)
}

/// What stands for a name, at a token.
fn name_value(alloc: Global, token: u32, sense: Option<Sense>) -> Result<Expression, AllocError>
    requires { FitsSense sense }
    ensures { IfOk result (λ x. x ≡ resolving.value_in (typing.name_type expressions token sense)) }
{
    let judged = resolve_name(alloc, token, sense)?;
    Ok(value_in(judged))
}

/// What stands for a word in memory.
fn memory_value<N: Names>(
    alloc: Global,
    names: &N,
    memory: &Memory,
) -> Result<Expression, AllocError>
    requires { AreWords (N.senses names.now) }
    ensures { AlignmentsFit (typing.of_memory 0 memory.now) → IfOk result (λ x. x ≡ resolving.value_in (typing.memory_type expressions (N.senses names.now) memory.now)) }
{
    let judged = resolve_memory(alloc, names, memory)?;
    Ok(value_in(judged))
}

/// What stands for what is called, jumped to or cut to.
pub fn callee_of<N: Names>(
    alloc: Global,
    names: &N,
    callee: &Callee,
) -> Result<Expression, AllocError>
    requires { AreWords (N.senses names.now) }
    ensures { CalleeFits callee.now.form → IfOk result (λ x. x ≡ resolving.callee_of (N.senses names.now) callee.now) }
{
    match &callee.form {
        CalleeForm::Name(name) => name_value(alloc, callee.token, names.sense(&name.name)),
        CalleeForm::Memory(memory) => memory_value(alloc, names, memory),
        CalleeForm::Bracketed(e) => value_of(alloc, names, e),
    }
}
