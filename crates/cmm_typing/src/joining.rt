//! Judgements of what holds other expressions, from theirs. What is broken in an operand is named before what is required of it.

ghost use Rattle.std.specs.Prelude.{◌≡◌, IfOk, option_map};
ghost use Rattle.cmm_static_semantics.specs.Judging.{with_ok, with_both};
ghost use Rattle.cmm_static_semantics.specs.Operators as operators;
ghost use Rattle.cmm_static_semantics.specs.Typing as typing;
ghost use Rattle.cmm_operators.specs.Fitting.{OperandFits, TypedFits};
ghost use Rattle.cmm_typing.specs.inside.Operands.{OperandsFit};

use cmm_ast::{Infix, Int, Prefix};
use cmm_operators::{
    Judged, OperandOf, OperandsOf, Outcome, TypedOf, Values, applied_to_one, applied_to_two,
    as_wanted, faulty, infix_operator, prefix_operator,
};
use cmm_rules::Rule;
use cmm_static_semantics::{Bits, Operand, Operands, Operator, Spot, Typed};
use cmm_words::Width;

/// What is judged, as an operand by its first token.
fn operand_at<V: Values>(token: u32, judged: Judged<TypedOf<V>>) -> Judged<OperandOf<V>>
    requires { IfOk judged (TypedFits V.fits) }
    ensures value { result ≡ typing.operand_at V.algebra token judged }
    ensures fits { IfOk result (OperandFits V.fits) }
{
    match judged {
        Ok(typed) => Ok(Operand { token, typed }),
        Err(broken) => Err(broken),
    }
}

/// An operator between two operands, by their first tokens.
pub(crate) fn infixed<V: Values>(
    values: &V,
    token: u32,
    operator: Infix,
    left: (u32, Judged<TypedOf<V>>),
    right: (u32, Judged<TypedOf<V>>),
) -> Outcome<TypedOf<V>, V>
    requires left { IfOk left.1 (TypedFits V.fits) }
    requires right { IfOk right.1 (TypedFits V.fits) }
    ensures value { IfOk result (λ j. j ≡ with_both (typing.operand_at V.algebra left.0 left.1) (typing.operand_at V.algebra right.0 right.1) (typing.applied_to_two V.algebra (operators.infix_operator operator) token)) }
    ensures fits { IfOk result (λ j. IfOk j (TypedFits V.fits)) }
{
    match (
        operand_at::<V>(left.0, left.1),
        operand_at::<V>(right.0, right.1),
    ) {
        (Ok(a), Ok(b)) => applied_to_two(values, infix_operator(operator), token, a, b),
        (Ok(_), Err(broken)) => Ok(Err(broken)),
        (Err(broken), Ok(_)) => Ok(Err(broken)),
        (Err(first), Err(second)) => Ok(Err(Spot::sooner_of(first, second))),
    }
}

/// An operator before its operand, by the operand's first token.
pub(crate) fn prefixed<V: Values>(
    values: &V,
    token: u32,
    operator: Prefix,
    own: u32,
    a: Judged<TypedOf<V>>,
) -> Outcome<TypedOf<V>, V>
    requires { IfOk a (TypedFits V.fits) }
    ensures value { IfOk result (λ j. j ≡ with_ok (typing.operand_at V.algebra own a) (typing.applied_to_one V.algebra (operators.prefix_operator operator) token)) }
    ensures fits { IfOk result (λ j. IfOk j (TypedFits V.fits)) }
{
    match operand_at::<V>(own, a) {
        Ok(a) => applied_to_one(values, prefix_operator(operator), token, a),
        Err(broken) => Ok(Err(broken)),
    }
}

/// One operand more.
fn given_with<V: Values>(given: OperandsOf<V>, operand: OperandOf<V>) -> OperandsOf<V>
    requires given { OperandsFit V.fits given }
    requires operand { OperandFits V.fits operand }
    ensures value { result ≡ typing.given_with V.algebra given operand }
    ensures fits { OperandsFit V.fits result }
{
    match given {
        Operands::Zero => Operands::One(operand),
        Operands::One(first) => Operands::Two(first, operand),
        Operands::Two(_, _) => Operands::More,
        Operands::More => Operands::More,
    }
}

/// One operand more, by its first token.
pub(crate) fn with_operand<V: Values>(
    given: Judged<OperandsOf<V>>,
    token: u32,
    judged: Judged<TypedOf<V>>,
) -> Judged<OperandsOf<V>>
    requires given { IfOk given (OperandsFit V.fits) }
    requires operand { IfOk judged (TypedFits V.fits) }
    ensures value { result ≡ typing.with_operand V.algebra given (typing.operand_at V.algebra token judged) }
    ensures fits { IfOk result (OperandsFit V.fits) }
{
    match (given, operand_at::<V>(token, judged)) {
        (Ok(operands), Ok(operand)) => Ok(given_with::<V>(operands, operand)),
        (Ok(_), Err(broken)) => Err(broken),
        (Err(broken), Ok(_)) => Err(broken),
        (Err(first), Err(second)) => Err(Spot::sooner_of(first, second)),
    }
}

/// An operator that is written by its name at a token, if it is one: else rule 26.
pub(crate) fn applied<V: Values>(
    values: &V,
    token: u32,
    operator: Option<Operator>,
    given: Judged<OperandsOf<V>>,
) -> Outcome<TypedOf<V>, V>
    requires { IfOk given (OperandsFit V.fits) }
    ensures value { IfOk result (λ j. j ≡ with_ok given (typing.applied V.algebra token operator)) }
    ensures fits { IfOk result (λ j. IfOk j (TypedFits V.fits)) }
{
    match given {
        Ok(operands) => applied_to(values, token, operator, operands),
        Err(broken) => Ok(Err(broken)),
    }
}

fn applied_to<V: Values>(
    values: &V,
    token: u32,
    operator: Option<Operator>,
    given: OperandsOf<V>,
) -> Outcome<TypedOf<V>, V>
    requires { OperandsFit V.fits given }
    ensures value { IfOk result (λ j. j ≡ typing.applied V.algebra token operator given) }
    ensures fits { IfOk result (λ j. IfOk j (TypedFits V.fits)) }
{
    let Some(operator) = operator else {
        return Ok(Err(faulty(Rule::UnknownOperator, token)));
    };
    match given {
        Operands::One(a) => applied_to_one(values, operator, token, a),
        Operands::Two(a, b) => applied_to_two(values, operator, token, a, b),
        Operands::Zero => Ok(Err(faulty(Rule::UnknownOperator, token))),
        Operands::More => Ok(Err(faulty(Rule::UnknownOperator, token))),
    }
}

/// What a word of this width is aligned to, in bytes: to its width, where nothing else is said.
fn alignment(width: Width, aligned: Option<Int>) -> u64
    ensures { result ≡ typing.alignment width aligned }
{
    match aligned {
        Some(k) => k.value,
        None => width.bytes(),
    }
}

/// The word at an address, for which nothing stands where nothing does for the address.
fn word_at<V: Values>(
    values: &V,
    width: Width,
    address: Option<V::Value>,
    aligned: Option<Int>,
) -> Result<TypedOf<V>, V::Failure>
    ensures value { IfOk result (λ t. t ≡ Typed.Bits record { width = width; value = option_map (V.algebra.load width (typing.alignment width aligned)) address }) }
    ensures fits { IfOk result (TypedFits V.fits) }
{
    let Some(address) = address else {
        return Ok(Typed::Bits(Bits { width, value: None }));
    };
    let value = Some(values.load(width, alignment(width, aligned), address)?);
    Ok(Typed::Bits(Bits { width, value }))
}

/// A word of this width at an address of 64 bits: else rules 24 and 23.
fn load<V: Values>(
    values: &V,
    width: Width,
    address: OperandOf<V>,
    aligned: Option<Int>,
) -> Outcome<TypedOf<V>, V>
    requires { OperandFits V.fits address }
    ensures value { IfOk result (λ j. j ≡ typing.load V.algebra aligned width address) }
    ensures fits { IfOk result (λ j. IfOk j (TypedFits V.fits)) }
{
    match as_wanted::<V>(Some(Width::W64), address.token, address.typed) {
        Ok(bits) => Ok(Ok(word_at(values, width, bits.value, aligned)?)),
        Err(broken) => Ok(Err(broken)),
    }
}

/// The word at an address, from its width, the address by its first token and what it is said to be aligned to.
pub(crate) fn loaded<V: Values>(
    values: &V,
    width: Judged<Width>,
    token: u32,
    address: Judged<TypedOf<V>>,
    aligned: Option<Int>,
) -> Outcome<TypedOf<V>, V>
    requires { IfOk address (TypedFits V.fits) }
    ensures value { IfOk result (λ j. j ≡ with_both width (typing.operand_at V.algebra token address) (typing.load V.algebra aligned)) }
    ensures fits { IfOk result (λ j. IfOk j (TypedFits V.fits)) }
{
    match (width, operand_at::<V>(token, address)) {
        (Ok(width), Ok(address)) => load(values, width, address, aligned),
        (Ok(_), Err(broken)) => Ok(Err(broken)),
        (Err(broken), Ok(_)) => Ok(Err(broken)),
        (Err(first), Err(second)) => Ok(Err(Spot::sooner_of(first, second))),
    }
}
