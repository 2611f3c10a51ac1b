//! What an expression is judged to be, with what is known of its value, and with names resolved; operators at operands of which
//! something is known, and what is wanted of them.

ghost use Rattle.std.specs.Prelude.{◌≡◌, IfOk};
ghost use Rattle.cmm_static_semantics.specs.Algebras.{expressions, knowns};
ghost use Rattle.cmm_static_semantics.specs.Judging as judging;
ghost use Rattle.cmm_static_semantics.specs.Typing as typing;
ghost use Rattle.cmm_typing.specs.Fitting.{AreWords, FitsBits, FitsSense, FitsTyped};
ghost use Rattle.cmm_typing.specs.Resolved.{AlignmentsFit, resolved};

use crate::engine::{judge_by, judge_memory};
use crate::expressions::Expressions;
use crate::leaf;
use crate::names::Names;
use cmm_ast::{Expr, Memory};
use cmm_operators::{Judged, Knowns};
use cmm_program::{Condition, Expression};
use cmm_static_semantics::{Bits, Known, Operand, Operator, Sense, Typed};
use cmm_words::Width;
use std::alloc::{AllocError, Global};

/// What an expression is judged to be among names, with what is known of its value. Takes no memory.
pub fn judge<N: Names>(names: &N, e: &Expr) -> Judged<Typed<Known, ()>>
    requires { AreWords (N.senses names.now) }
    ensures value { result ≡ typing.expr_type knowns (N.senses names.now) e.now }
    ensures fits { IfOk result FitsTyped }
{
    let Ok(judged) = judge_by(names, &Knowns, e);
    judged
}

/// What an expression is judged to be among names, with names resolved: the expression or the condition of a program. Fails only for want of
/// memory. An alignment of 2^32 bytes or more, which no program has, is given as 2^32 - 1.
pub fn resolve<N: Names>(
    alloc: Global,
    names: &N,
    e: &Expr,
) -> Result<Judged<Typed<Expression, Condition>>, AllocError>
    requires { AreWords (N.senses names.now) }
    ensures value { IfOk result (λ j. j ≡ typing.expr_type resolved (N.senses names.now) e.now) }
    ensures in_program { AlignmentsFit e.now → IfOk result (λ j. j ≡ typing.expr_type expressions (N.senses names.now) e.now) }
{
    judge_by(names, &Expressions { alloc }, e)
}

/// What a word in memory is judged to be among names, with names resolved. Fails only for want of memory. An alignment of 2^32 bytes or more is
/// given as 2^32 - 1.
pub fn resolve_memory<N: Names>(
    alloc: Global,
    names: &N,
    memory: &Memory,
) -> Result<Judged<Typed<Expression, Condition>>, AllocError>
    requires { AreWords (N.senses names.now) }
    ensures value { IfOk result (λ j. j ≡ typing.memory_type resolved (N.senses names.now) memory.now) }
    ensures in_program { AlignmentsFit (typing.of_memory 0 memory.now) → IfOk result (λ j. j ≡ typing.memory_type expressions (N.senses names.now) memory.now) }
{
    judge_memory(names, &Expressions { alloc }, memory)
}

/// A name in an expression, at a token, with names resolved: rule 21 where it is no value. Fails only for want of memory.
pub fn resolve_name(
    alloc: Global,
    token: u32,
    sense: Option<Sense>,
) -> Result<Judged<Typed<Expression, Condition>>, AllocError>
    requires { FitsSense sense }
    ensures { IfOk result (λ j. j ≡ typing.name_type expressions token sense) }
{
    leaf::name_type(&Expressions { alloc }, token, sense)
}

/// A name in an expression, at a token: rule 21 where it is no value.
pub fn name_type(token: u32, sense: Option<Sense>) -> Judged<Typed<Known, ()>>
    requires { FitsSense sense }
    ensures value { result ≡ typing.name_type knowns token sense }
    ensures fits { IfOk result FitsTyped }
{
    let Ok(judged) = leaf::name_type(&Knowns, token, sense);
    judged
}

/// An operator at one operand, where the operator stands at a token: else rule 26.
pub fn applied_to_one(
    operator: Operator,
    token: u32,
    operand: Operand<Known, ()>,
) -> Judged<Typed<Known, ()>>
    requires { FitsTyped operand.typed }
    ensures value { result ≡ typing.applied_to_one knowns operator token operand }
    ensures fits { IfOk result FitsTyped }
{
    let Ok(judged) = cmm_operators::applied_to_one(&Knowns, operator, token, operand);
    judged
}

/// An operator at two operands, where the operator stands at a token: else rule 26.
pub fn applied_to_two(
    operator: Operator,
    token: u32,
    left: Operand<Known, ()>,
    right: Operand<Known, ()>,
) -> Judged<Typed<Known, ()>>
    requires left { FitsTyped left.typed }
    requires right { FitsTyped right.typed }
    ensures value { result ≡ typing.applied_to_two knowns operator token left right }
    ensures fits { IfOk result FitsTyped }
{
    let Ok(judged) = cmm_operators::applied_to_two(&Knowns, operator, token, left, right);
    judged
}

/// Bits are wanted of what stands at a token: else rule 24.
pub fn as_bits(token: u32, typed: Typed<Known, ()>) -> Judged<Bits<Known>>
    ensures value { result ≡ judging.as_bits token typed }
    ensures fits { FitsTyped typed → IfOk result FitsBits }
{
    cmm_operators::as_bits::<Knowns>(token, typed)
}

/// A condition is wanted of what stands at a token: else rule 24.
pub fn as_test(token: u32, typed: Typed<Known, ()>) -> Judged<Option<()>>
    ensures { result ≡ judging.as_test token typed }
{
    cmm_operators::as_test::<Knowns>(token, typed)
}

/// Bits are wanted at a token, of this width where there is one: else rule 24 or 23.
pub fn as_wanted(wanted: Option<Width>, token: u32, typed: Typed<Known, ()>) -> Judged<Bits<Known>>
    ensures value { result ≡ judging.as_wanted wanted token typed }
    ensures fits { FitsTyped typed → IfOk result FitsBits }
{
    cmm_operators::as_wanted::<Knowns>(wanted, token, typed)
}
