//! The judgement of expressions, over whatever tells what names mean and whatever stands for their values.

ghost use Rattle.std.specs.Prelude.{◌≡◌, IfOk, Ok};
ghost use Rattle.cmm_static_semantics.specs.Judging.{with_ok, with_both};
ghost use Rattle.cmm_static_semantics.specs.Operators as operators;
ghost use Rattle.cmm_static_semantics.specs.Typing as typing;
ghost use Rattle.cmm_operators.specs.Fitting.{TypedFits};
ghost use Rattle.cmm_typing.specs.Fitting.{AreWords};
ghost use Rattle.cmm_typing.specs.inside.Operands.{OperandsFit, list_operands};

use crate::joining::{applied, infixed, loaded, prefixed, with_operand};
use crate::leaf::{literal_type, name_type, type_width};
use crate::names::Names;
use cmm_ast::{Expr, ExprForm, Infix, Memory, Prefix, PrimForm};
use cmm_operators::{Judged, OperandsOf, Outcome, TypedOf, Values, operator_named};
use cmm_static_semantics::Operands;
use cmm_words::Name;

/// What an expression is judged to be among names, with what stands for its value.
#[cycle(expression)]
pub(crate) fn judge_by<N: Names, V: Values>(
    names: &N,
    values: &V,
    e: &Expr,
) -> Outcome<TypedOf<V>, V>
    requires { AreWords (N.senses names.now) }
    ensures value { IfOk result (λ j. j ≡ typing.expr_type V.algebra (N.senses names.now) e.now) }
    ensures fits { IfOk result (λ j. IfOk j (TypedFits V.fits)) }
{
    match &e.form {
        ExprForm::Infix {
            left,
            operator,
            right,
        } => {
            let a = judge_by(names, values, left.get())?;
            let left = (left.get().token, a);
            judge_right(names, values, e.token, left, *operator, right.get())
        }
        ExprForm::Prefix { operator, operand } => {
            judge_prefix(names, values, e.token, *operator, operand.get())
        }
        ExprForm::Prim(prim) => judge_primary(names, values, e.token, prim),
        ExprForm::Memory(memory) => judge_memory(names, values, memory),
        ExprForm::Named { operator, operands } => {
            judge_named(names, values, e.token, operator, operands.as_slice())
        }
    }
}

// Each form has a function of its own, so that a level of an expression holds on the stack what its own form needs.

/// An operator between two operands, the left of which is judged.
#[cycle(expression)]
#[inline(never)]
fn judge_right<N: Names, V: Values>(
    names: &N,
    values: &V,
    token: u32,
    left: (u32, Judged<TypedOf<V>>),
    operator: Infix,
    right: &Expr,
) -> Outcome<TypedOf<V>, V>
    requires names { AreWords (N.senses names.now) }
    requires left { IfOk left.1 (TypedFits V.fits) }
    ensures value { IfOk result (λ j. j ≡ with_both (typing.operand_at V.algebra left.0 left.1) (typing.operand_at V.algebra right.now.token (typing.expr_type V.algebra (N.senses names.now) right.now)) (typing.applied_to_two V.algebra (operators.infix_operator operator) token)) }
    ensures fits { IfOk result (λ j. IfOk j (TypedFits V.fits)) }
{
    let b = judge_by(names, values, right)?;
    infixed(values, token, operator, left, (right.token, b))
}

/// An operator before its operand.
#[cycle(expression)]
#[inline(never)]
fn judge_prefix<N: Names, V: Values>(
    names: &N,
    values: &V,
    token: u32,
    operator: Prefix,
    operand: &Expr,
) -> Outcome<TypedOf<V>, V>
    requires { AreWords (N.senses names.now) }
    ensures value { IfOk result (λ j. j ≡ with_ok (typing.operand_at V.algebra operand.now.token (typing.expr_type V.algebra (N.senses names.now) operand.now)) (typing.applied_to_one V.algebra (operators.prefix_operator operator) token)) }
    ensures fits { IfOk result (λ j. IfOk j (TypedFits V.fits)) }
{
    let a = judge_by(names, values, operand)?;
    prefixed(values, token, operator, operand.token, a)
}

/// An operator that is written by its name.
#[cycle(expression)]
#[inline(never)]
fn judge_named<N: Names, V: Values>(
    names: &N,
    values: &V,
    token: u32,
    operator: &Name,
    operands: &[Expr],
) -> Outcome<TypedOf<V>, V>
    requires { AreWords (N.senses names.now) }
    ensures value { IfOk result (λ j. j ≡ with_ok (list_operands V.algebra (N.senses names.now) (Ok Operands.Zero) operands.now) (typing.applied V.algebra token (operators.operator_named operator.now))) }
    ensures fits { IfOk result (λ j. IfOk j (TypedFits V.fits)) }
{
    let given = judge_operands(names, values, operands)?;
    applied(values, token, operator_named(operator), given)
}

/// A primary expression, by its first token.
#[cycle(expression)]
fn judge_primary<N: Names, V: Values>(
    names: &N,
    values: &V,
    token: u32,
    prim: &PrimForm,
) -> Outcome<TypedOf<V>, V>
    requires { AreWords (N.senses names.now) }
    ensures value { IfOk result (λ j. j ≡ typing.prim_type V.algebra (N.senses names.now) token prim.now) }
    ensures fits { IfOk result (λ j. IfOk j (TypedFits V.fits)) }
{
    match prim {
        PrimForm::Literal { number, width } => literal_type(names, values, token, *number, width),
        PrimForm::Name(name) => name_type(values, token, names.sense(name)),
        PrimForm::Bracketed(inner) => judge_by(names, values, inner.get()),
    }
}

/// A word in memory.
#[cycle(expression)]
#[inline(never)]
pub(crate) fn judge_memory<N: Names, V: Values>(
    names: &N,
    values: &V,
    memory: &Memory,
) -> Outcome<TypedOf<V>, V>
    requires { AreWords (N.senses names.now) }
    ensures value { IfOk result (λ j. j ≡ typing.memory_type V.algebra (N.senses names.now) memory.now) }
    ensures fits { IfOk result (λ j. IfOk j (TypedFits V.fits)) }
{
    let width = type_width(names, &memory.width);
    let address = judge_by(names, values, memory.address.get())?;
    loaded(
        values,
        width,
        memory.address.get().token,
        address,
        memory.aligned,
    )
}

/// The operands of an operator that is written by its name.
#[cycle(expression)]
fn judge_operands<N: Names, V: Values>(
    names: &N,
    values: &V,
    operands: &[Expr],
) -> Outcome<OperandsOf<V>, V>
    requires { AreWords (N.senses names.now) }
    ensures value { IfOk result (λ j. j ≡ list_operands V.algebra (N.senses names.now) (Ok Operands.Zero) operands.now) }
    ensures fits { IfOk result (λ j. IfOk j (OperandsFit V.fits)) }
{
    let mut given = Ok(Operands::Zero);
    for e in operands {
        let judged = judge_by(names, values, e)?;
        given = with_operand::<V>(given, e.token, judged);
    }
    Ok(given)
}
