//! Literals that stand alone: they take the width that is wanted.

ghost use Rattle.std.specs.Prelude.{◌≡◌, IfOk, IfSome, option_map};
ghost use Rattle.cmm_ast.specs.declared.expression.PrimForm.TheVariants.{Literal};
ghost use Rattle.cmm_static_semantics.specs.Algebras.{knowns};
ghost use Rattle.cmm_static_semantics.specs.Constants as constants;
ghost use Rattle.cmm_typing.specs.Fitting.{FitsTyped};
ghost use Rattle.cmm_typing.specs.inside.Prefixes.{prefix_alone};

use crate::expected::literal::literal;
use crate::judging::applied_to_one;
use cmm_ast::{Expr, ExprForm, Number, Prefix, PrimForm, TypeName};
use cmm_operators::{Judged, prefix_operator};
use cmm_static_semantics::{Known, Operand, Typed};
use cmm_words::Width;

/// The number of a literal, unless it has a type or is a character.
fn literal_alone(number: Number, width: &Option<TypeName>) -> Option<u64>
    ensures { result ≡ constants.prim_alone (Literal number width.now) }
{
    if width.is_some() {
        return None;
    }
    match number {
        Number::Int(value) => Some(value),
        Number::Char(_) => None,
    }
}

/// The number of a primary expression that is a literal without a type.
fn prim_alone(prim: &PrimForm) -> Option<u64>
    ensures { result ≡ constants.prim_alone prim.now }
{
    match prim {
        PrimForm::Literal { number, width } => literal_alone(*number, width),
        PrimForm::Name(_) => None,
        PrimForm::Bracketed(_) => None,
    }
}

/// The number of an expression that is a literal without a type.
fn form_alone(form: &ExprForm) -> Option<u64>
    ensures { result ≡ constants.form_alone form.now }
{
    match form {
        ExprForm::Prim(prim) => prim_alone(prim),
        ExprForm::Infix { .. } => None,
        ExprForm::Prefix { .. } => None,
        ExprForm::Memory(_) => None,
        ExprForm::Named { .. } => None,
    }
}

/// A number with a minus before it at a token, by its own token: rule 25 where the number itself does not fit.
fn negative(token: u32, own: u32, value: u64, width: Width) -> Judged<Typed<Known, ()>>
    ensures value { result ≡ constants.alone_type knowns token width (constants.Negative own value) }
    ensures fits { IfOk result FitsTyped }
{
    let typed = literal(own, value, width)?;
    let operand = Operand { token: own, typed };
    applied_to_one(prefix_operator(Prefix::Negate), token, operand)
}

/// What an operator at an operand is judged to be, if that is a literal that stands alone: one with a minus before it.
fn prefix_type(
    token: u32,
    operator: Prefix,
    operand: &Expr,
    width: Width,
) -> Option<Judged<Typed<Known, ()>>>
    ensures value { result ≡ option_map (constants.alone_type knowns token width) (prefix_alone operator operand.now) }
    ensures fits { IfSome result (λ j. IfOk j FitsTyped) }
{
    match operator {
        Prefix::Negate => {
            let value = form_alone(&operand.form)?;
            Some(negative(token, operand.token, value, width))
        }
        Prefix::Complement => None,
    }
}

/// What an expression is judged to be where this width is wanted, if it is a literal that stands alone.
pub(crate) fn alone_type(e: &Expr, width: Width) -> Option<Judged<Typed<Known, ()>>>
    ensures value { result ≡ option_map (constants.alone_type knowns e.now.token width) (constants.alone e.now.form) }
    ensures fits { IfSome result (λ j. IfOk j FitsTyped) }
{
    match &e.form {
        ExprForm::Prim(prim) => {
            let value = prim_alone(prim)?;
            Some(literal(e.token, value, width))
        }
        ExprForm::Prefix { operator, operand } => prefix_type(
            e.token,
            *operator,
            operand.get(),
            width,
        ),
        ExprForm::Infix { .. } => None,
        ExprForm::Memory(_) => None,
        ExprForm::Named { .. } => None,
    }
}
