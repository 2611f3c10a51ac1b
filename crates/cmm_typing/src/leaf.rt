//! Judgements of what holds no other expression: types, literals and names.

ghost use Rattle.std.specs.Prelude.{◌≡◌, IfOk, Ok};
ghost use Rattle.cmm_words.specs.Constants.{Fits};
ghost use Rattle.cmm_static_semantics.specs.Senses.{constant_width};
ghost use Rattle.cmm_static_semantics.specs.Typing as typing;
ghost use Rattle.cmm_operators.specs.Fitting.{TypedFits};
ghost use Rattle.cmm_typing.specs.Fitting.{FitsSense};

use crate::names::Names;
use cmm_ast::{Number, TypeForm, TypeName};
use cmm_operators::{Judged, Outcome, TypedOf, Values, faulty};
use cmm_rules::Rule;
use cmm_static_semantics::{Bits, Sense, Typed};
use cmm_words::{Constant, Width};

/// The width of what stands as a type at a token: rule 21 where it is no typedef.
fn typedef_width(token: u32, sense: Option<Sense>) -> Judged<Width>
    ensures { result ≡ typing.typedef_width token sense }
{
    match sense {
        Some(Sense::Typedef(Some(width))) => Ok(width),
        Some(Sense::Typedef(None)) => Err(None),
        _ => Err(faulty(Rule::Undeclared, token)),
    }
}

/// The width of a type.
pub fn type_width<N: Names>(names: &N, t: &TypeName) -> Judged<Width>
    ensures { result ≡ typing.type_width (N.senses names.now) t.now }
{
    match &t.form {
        TypeForm::Bits(width) => Ok(*width),
        TypeForm::Named(name) => typedef_width(t.token, names.sense(name)),
    }
}

/// A number of this width at a token: rule 25 where it does not fit.
fn literal<V: Values>(values: &V, token: u32, value: u64, width: Width) -> Outcome<TypedOf<V>, V>
    ensures value { IfOk result (λ j. j ≡ typing.literal V.algebra token value width) }
    ensures fits { IfOk result (λ j. IfOk j (TypedFits V.fits)) }
{
    if value > width.max() {
        return Ok(Err(faulty(Rule::LiteralDoesNotFit, token)));
    }
    let value = Some(values.constant(Constant::Number(value, width))?);
    Ok(Ok(Typed::Bits(Bits { width, value })))
}

fn number_value(number: Number) -> u64
    ensures { result ≡ typing.number_value number }
{
    match number {
        Number::Int(value) => value,
        Number::Char(byte) => u64::from(byte),
    }
}

fn number_width(number: Number) -> Width
    ensures { result ≡ typing.number_width number }
{
    match number {
        Number::Int(_) => Width::W64,
        Number::Char(_) => Width::W8,
    }
}

fn literal_width<N: Names>(names: &N, number: Number, width: &Option<TypeName>) -> Judged<Width>
    ensures { result ≡ typing.literal_width (N.senses names.now) number width.now }
{
    match width {
        None => Ok(number_width(number)),
        Some(t) => type_width(names, t),
    }
}

/// A literal, by its first token.
pub(crate) fn literal_type<N: Names, V: Values>(
    names: &N,
    values: &V,
    token: u32,
    number: Number,
    width: &Option<TypeName>,
) -> Outcome<TypedOf<V>, V>
    ensures value { IfOk result (λ j. j ≡ typing.literal_type V.algebra (N.senses names.now) token number width.now) }
    ensures fits { IfOk result (λ j. IfOk j (TypedFits V.fits)) }
{
    match literal_width(names, number, width) {
        Ok(width) => literal(values, token, number_value(number), width),
        Err(broken) => Ok(Err(broken)),
    }
}

/// A variable, where its width is not broken.
fn variable<V: Values>(values: &V, number: u32, width: Option<Width>) -> Outcome<TypedOf<V>, V>
    ensures value { IfOk result (λ j. j ≡ typing.of_target V.algebra width (V.algebra.variable number)) }
    ensures fits { IfOk result (λ j. IfOk j (TypedFits V.fits)) }
{
    let Some(width) = width else {
        return Ok(Err(None));
    };
    let value = Some(values.variable(number, width)?);
    Ok(Ok(Typed::Bits(Bits { width, value })))
}

/// A global register, where its width is not broken.
fn register<V: Values>(values: &V, number: u32, width: Option<Width>) -> Outcome<TypedOf<V>, V>
    ensures value { IfOk result (λ j. j ≡ typing.of_target V.algebra width (V.algebra.register number)) }
    ensures fits { IfOk result (λ j. IfOk j (TypedFits V.fits)) }
{
    let Some(width) = width else {
        return Ok(Err(None));
    };
    let value = Some(values.register(number, width)?);
    Ok(Ok(Typed::Bits(Bits { width, value })))
}

/// A constant that is broken elsewhere, with its width where that is known.
fn broken<V: Values>(width: Option<Width>) -> Judged<TypedOf<V>>
    ensures value { result ≡ typing.of_broken V.algebra width }
    ensures fits { IfOk result (TypedFits V.fits) }
{
    match width {
        Some(width) => Ok(Typed::Bits(Bits { width, value: None })),
        None => Err(None),
    }
}

/// An address is a word of 64 bits.
fn width_of(constant: Constant) -> Width
    ensures { result ≡ constant_width constant }
{
    match constant {
        Constant::Number(_, width) => width,
        Constant::Code { .. } => Width::W64,
        Constant::Address { .. } => Width::W64,
    }
}

/// A constant or an address.
fn constant<V: Values>(values: &V, constant: Constant) -> Result<TypedOf<V>, V::Failure>
    requires { Fits constant }
    ensures value { IfOk result (λ t. Ok t ≡ typing.word V.algebra (constant_width constant) (V.algebra.constant constant)) }
    ensures fits { IfOk result (TypedFits V.fits) }
{
    let width = width_of(constant);
    let value = Some(values.constant(constant)?);
    Ok(Typed::Bits(Bits { width, value }))
}

/// The address of a stackdata label.
fn stackdata<V: Values>(values: &V, number: u32) -> Result<TypedOf<V>, V::Failure>
    ensures value { IfOk result (λ t. Ok t ≡ typing.word V.algebra Width.W64 (V.algebra.stackdata number)) }
    ensures fits { IfOk result (TypedFits V.fits) }
{
    let value = Some(values.stackdata(number)?);
    Ok(Typed::Bits(Bits {
        width: Width::W64,
        value,
    }))
}

/// The value of a continuation.
fn continuation<V: Values>(values: &V, number: u32) -> Result<TypedOf<V>, V::Failure>
    ensures value { IfOk result (λ t. Ok t ≡ typing.word V.algebra Width.W64 (V.algebra.continuation number)) }
    ensures fits { IfOk result (TypedFits V.fits) }
{
    let value = Some(values.continuation(number)?);
    Ok(Typed::Bits(Bits {
        width: Width::W64,
        value,
    }))
}

/// A name in an expression, at a token: rule 21 where it is no value.
pub(crate) fn name_type<V: Values>(
    values: &V,
    token: u32,
    sense: Option<Sense>,
) -> Outcome<TypedOf<V>, V>
    requires { FitsSense sense }
    ensures value { IfOk result (λ j. j ≡ typing.name_type V.algebra token sense) }
    ensures fits { IfOk result (λ j. IfOk j (TypedFits V.fits)) }
{
    let Some(sense) = sense else {
        return Ok(Err(faulty(Rule::Undeclared, token)));
    };
    match sense {
        Sense::Variable(number, width) => variable(values, number, width),
        Sense::Register(number, width) => register(values, number, width),
        Sense::Value(known) => Ok(Ok(constant(values, known)?)),
        Sense::Broken(width) => Ok(broken::<V>(width)),
        Sense::Stackdata(number) => Ok(Ok(stackdata(values, number)?)),
        Sense::Continuation(number) => Ok(Ok(continuation(values, number)?)),
        // It breaks a rule of its own, and what stands for it is asked by nobody.
        Sense::Host(_) => Ok(Ok(continuation(values, 0)?)),
        Sense::Typedef(_) => Ok(Err(faulty(Rule::Undeclared, token))),
        Sense::CodeLabel => Ok(Err(faulty(Rule::Undeclared, token))),
    }
}
