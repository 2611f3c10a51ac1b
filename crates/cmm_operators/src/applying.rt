//! Operators applied to operands.

ghost use Rattle.std.specs.Prelude.{◌≡◌, IfOk, IfErr, Err, option_map};
ghost use Rattle.cmm_static_semantics.specs.Judging.{Judged as JudgedAs};
ghost use Rattle.cmm_static_semantics.specs.Typing as typing;
ghost use Rattle.cmm_static_semantics.specs.declared.judged.Bits.{Bits as BitsAs};
ghost use Rattle.cmm_static_semantics.specs.declared.judged.Typed.{Typed as TypedAs};
ghost use Rattle.cmm_operators.specs.Fitting.{BitsFit, FitsIf, OperandFits, TypedFits};

use crate::converting::{Conversion, converted};
use crate::values::{BitsOf, OperandOf, Outcome, TypedOf, Values};
use crate::wanted::{Judged, as_bits, as_test, faulty, of_width};
use cmm_rules::Rule;
use cmm_static_semantics::{Bits, Operator, Spot, Typed};
use cmm_words::{Cmp, Op1, Op2};

/// An operator with one operand, on bits.
fn unary<V: Values>(values: &V, operator: Op1, bits: BitsOf<V>) -> Result<TypedOf<V>, V::Failure>
    requires { BitsFit V.fits bits }
    ensures value { IfOk result (λ t. t ≡ typing.unary V.algebra operator bits) }
    ensures fits { IfOk result (TypedFits V.fits) }
{
    let Bits { width, value } = bits;
    let Some(a) = value else {
        return Ok(Typed::Bits(Bits { width, value: None }));
    };
    let value = Some(values.unary(operator, width, a)?);
    Ok(Typed::Bits(Bits { width, value }))
}

/// An operator with two operands, on bits of one width.
fn binary<V: Values>(
    values: &V,
    operator: Op2,
    left: BitsOf<V>,
    right: BitsOf<V>,
) -> Result<TypedOf<V>, V::Failure>
    requires left { BitsFit V.fits left }
    requires right { FitsIf (V.fits left.width) right.value }
    ensures value { IfOk result (λ t. t ≡ typing.binary V.algebra operator left right) }
    ensures fits { IfOk result (TypedFits V.fits) }
{
    let width = left.width;
    let (Some(a), Some(b)) = (left.value, right.value) else {
        return Ok(Typed::Bits(Bits { width, value: None }));
    };
    let value = Some(values.binary(operator, width, a, b)?);
    Ok(Typed::Bits(Bits { width, value }))
}

/// A comparison of bits of one width.
fn compared<V: Values>(
    values: &V,
    comparison: Cmp,
    left: BitsOf<V>,
    right: BitsOf<V>,
) -> Result<TypedOf<V>, V::Failure>
    ensures { IfOk result (λ t. t ≡ typing.compared V.algebra comparison left right) }
{
    let (Some(a), Some(b)) = (left.value, right.value) else {
        return Ok(Typed::Test(None));
    };
    Ok(Typed::Test(Some(values.compare(comparison, left.width, a, b)?)))
}

/// Two operands of bits and of one width: else rules 24 and 23.
fn alike<V: Values>(left: OperandOf<V>, right: OperandOf<V>) -> Judged<(BitsOf<V>, BitsOf<V>)>
    requires left { OperandFits V.fits left }
    requires right { OperandFits V.fits right }
    ensures ok { IfOk result (λ p. (next : BitsAs V.Value → BitsAs V.Value → JudgedAs (TypedAs V.Value V.Condition)) → typing.alike V.algebra left right next ≡ next p.0 p.1) }
    ensures err { IfErr result (λ e. (next : BitsAs V.Value → BitsAs V.Value → JudgedAs (TypedAs V.Value V.Condition)) → typing.alike V.algebra left right next ≡ Err e) }
    ensures left { IfOk result (λ p. BitsFit V.fits p.0) }
    ensures right { IfOk result (λ p. FitsIf (V.fits p.0.width) p.1.value) }
{
    let token = right.token;
    match (
        as_bits::<V>(left.token, left.typed),
        as_bits::<V>(token, right.typed),
    ) {
        (Ok(a), Ok(b)) => match of_width::<V>(a.width, token, b) {
            Ok(b) => Ok((a, b)),
            Err(broken) => Err(broken),
        },
        (Ok(_), Err(broken)) => Err(broken),
        (Err(broken), Ok(_)) => Err(broken),
        (Err(first), Err(second)) => Err(Spot::sooner_of(first, second)),
    }
}

/// Two conditions: else rule 24.
fn conditions<V: Values>(
    left: OperandOf<V>,
    right: OperandOf<V>,
) -> Judged<(Option<V::Condition>, Option<V::Condition>)>
    ensures ok { IfOk result (λ p. (made : V.Condition → V.Condition → V.Condition) → typing.both V.algebra made left right ≡ Ok (Typed.Test (typing.with_values p.0 p.1 made))) }
    ensures err { IfErr result (λ e. (made : V.Condition → V.Condition → V.Condition) → typing.both V.algebra made left right ≡ Err e) }
{
    match (
        as_test::<V>(left.token, left.typed),
        as_test::<V>(right.token, right.typed),
    ) {
        (Ok(p), Ok(q)) => Ok((p, q)),
        (Ok(_), Err(broken)) => Err(broken),
        (Err(broken), Ok(_)) => Err(broken),
        (Err(first), Err(second)) => Err(Spot::sooner_of(first, second)),
    }
}

/// A condition that holds where both do.
fn conjoined<V: Values>(
    values: &V,
    p: Option<V::Condition>,
    q: Option<V::Condition>,
) -> Result<TypedOf<V>, V::Failure>
    ensures { IfOk result (λ t. t ≡ Typed.Test (typing.with_values p q V.algebra.conjoined)) }
{
    let (Some(p), Some(q)) = (p, q) else {
        return Ok(Typed::Test(None));
    };
    Ok(Typed::Test(Some(values.conjoined(p, q)?)))
}

/// A condition that holds where one does.
fn disjoined<V: Values>(
    values: &V,
    p: Option<V::Condition>,
    q: Option<V::Condition>,
) -> Result<TypedOf<V>, V::Failure>
    ensures { IfOk result (λ t. t ≡ Typed.Test (typing.with_values p q V.algebra.disjoined)) }
{
    let (Some(p), Some(q)) = (p, q) else {
        return Ok(Typed::Test(None));
    };
    Ok(Typed::Test(Some(values.disjoined(p, q)?)))
}

/// A condition that holds where another does not.
fn negated<V: Values>(values: &V, p: Option<V::Condition>) -> Result<TypedOf<V>, V::Failure>
    ensures { IfOk result (λ t. t ≡ Typed.Test (option_map V.algebra.negated p)) }
{
    let Some(p) = p else {
        return Ok(Typed::Test(None));
    };
    Ok(Typed::Test(Some(values.negated(p)?)))
}

/// An operator at one operand, where the operator stands at a token: else rule 26.
pub fn applied_to_one<V: Values>(
    values: &V,
    operator: Operator,
    token: u32,
    operand: OperandOf<V>,
) -> Outcome<TypedOf<V>, V>
    requires { OperandFits V.fits operand }
    ensures value { IfOk result (λ j. j ≡ typing.applied_to_one V.algebra operator token operand) }
    ensures fits { IfOk result (λ j. IfOk j (TypedFits V.fits)) }
{
    match operator {
        Operator::Unary(operator) => match as_bits::<V>(operand.token, operand.typed) {
            Ok(bits) => Ok(Ok(unary(values, operator, bits)?)),
            Err(broken) => Ok(Err(broken)),
        },
        Operator::Not => match as_test::<V>(operand.token, operand.typed) {
            Ok(p) => Ok(Ok(negated(values, p)?)),
            Err(broken) => Ok(Err(broken)),
        },
        Operator::SignExtend(to) => converted(values, Conversion::SignExtend, to, operand),
        Operator::ZeroExtend(to) => converted(values, Conversion::ZeroExtend, to, operand),
        Operator::LowBits(to) => converted(values, Conversion::LowBits, to, operand),
        Operator::Binary(_) => Ok(Err(faulty(Rule::UnknownOperator, token))),
        Operator::Compare(_) => Ok(Err(faulty(Rule::UnknownOperator, token))),
        Operator::Conjoin => Ok(Err(faulty(Rule::UnknownOperator, token))),
        Operator::Disjoin => Ok(Err(faulty(Rule::UnknownOperator, token))),
    }
}

/// An operator at two operands, where the operator stands at a token: else rule 26.
pub fn applied_to_two<V: Values>(
    values: &V,
    operator: Operator,
    token: u32,
    left: OperandOf<V>,
    right: OperandOf<V>,
) -> Outcome<TypedOf<V>, V>
    requires left { OperandFits V.fits left }
    requires right { OperandFits V.fits right }
    ensures value { IfOk result (λ j. j ≡ typing.applied_to_two V.algebra operator token left right) }
    ensures fits { IfOk result (λ j. IfOk j (TypedFits V.fits)) }
{
    match operator {
        Operator::Binary(operator) => match alike::<V>(left, right) {
            Ok(pair) => Ok(Ok(binary(values, operator, pair.0, pair.1)?)),
            Err(broken) => Ok(Err(broken)),
        },
        Operator::Compare(comparison) => match alike::<V>(left, right) {
            Ok(pair) => Ok(Ok(compared(values, comparison, pair.0, pair.1)?)),
            Err(broken) => Ok(Err(broken)),
        },
        Operator::Conjoin => match conditions::<V>(left, right) {
            Ok(pair) => Ok(Ok(conjoined(values, pair.0, pair.1)?)),
            Err(broken) => Ok(Err(broken)),
        },
        Operator::Disjoin => match conditions::<V>(left, right) {
            Ok(pair) => Ok(Ok(disjoined(values, pair.0, pair.1)?)),
            Err(broken) => Ok(Err(broken)),
        },
        Operator::Unary(_) => Ok(Err(faulty(Rule::UnknownOperator, token))),
        Operator::Not => Ok(Err(faulty(Rule::UnknownOperator, token))),
        Operator::SignExtend(_) => Ok(Err(faulty(Rule::UnknownOperator, token))),
        Operator::ZeroExtend(_) => Ok(Err(faulty(Rule::UnknownOperator, token))),
        Operator::LowBits(_) => Ok(Err(faulty(Rule::UnknownOperator, token))),
    }
}
