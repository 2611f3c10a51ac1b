//! What is wanted of an expression: bits, of a width where there is one, a condition or a constant.

ghost use Rattle.std.specs.Prelude.{◌≡◌, IfOk};
ghost use Rattle.cmm_static_semantics.specs.Judging as judging;
ghost use Rattle.cmm_static_semantics.specs.Constants as constants;
ghost use Rattle.cmm_operators.specs.Fitting.{BitsFit, FitsIf, TypedFits};

use crate::values::{BitsOf, TypedOf, Values};
use cmm_rules::Rule;
use cmm_static_semantics::{Bits, Known, Spot, Typed};
use cmm_words::{Constant, Width};

/// A judgement, or the first place at which a rule is broken; no place where that is named elsewhere.
pub type Judged<T> = Result<T, Option<Spot>>;

/// A rule that is broken at a token.
pub fn faulty(rule: Rule, token: u32) -> Option<Spot>
    ensures { result ≡ judging.broken_at rule token }
{
    Some(Spot { token, rule })
}

/// Bits are wanted of what stands at a token: else rule 24.
pub fn as_bits<V: Values>(token: u32, typed: TypedOf<V>) -> Judged<BitsOf<V>>
    ensures value { result ≡ judging.as_bits token typed }
    ensures fits { TypedFits V.fits typed → IfOk result (BitsFit V.fits) }
{
    match typed {
        Typed::Bits(bits) => Ok(bits),
        Typed::Test(_) => Err(faulty(Rule::ConditionOrBitsWanted, token)),
    }
}

/// A condition is wanted of what stands at a token: else rule 24.
pub fn as_test<V: Values>(token: u32, typed: TypedOf<V>) -> Judged<Option<V::Condition>>
    ensures { result ≡ judging.as_test token typed }
{
    match typed {
        Typed::Bits(_) => Err(faulty(Rule::ConditionOrBitsWanted, token)),
        Typed::Test(condition) => Ok(condition),
    }
}

/// Bits of this width are wanted at a token: else rule 23.
pub(crate) fn of_width<V: Values>(wanted: Width, token: u32, bits: BitsOf<V>) -> Judged<BitsOf<V>>
    ensures value { result ≡ judging.of_width wanted token bits }
    ensures fits { BitsFit V.fits bits → IfOk result (λ found. FitsIf (V.fits wanted) found.value) }
    ensures same { BitsFit V.fits bits → IfOk result (BitsFit V.fits) }
{
    if bits.width.bits() == wanted.bits() {
        Ok(bits)
    } else {
        Err(faulty(Rule::WidthsDiffer, token))
    }
}

/// Bits are wanted at a token, of this width where there is one: else rule 24 or 23.
pub fn as_wanted<V: Values>(
    wanted: Option<Width>,
    token: u32,
    typed: TypedOf<V>,
) -> Judged<BitsOf<V>>
    ensures value { result ≡ judging.as_wanted wanted token typed }
    ensures fits { TypedFits V.fits typed → IfOk result (BitsFit V.fits) }
{
    let bits = as_bits::<V>(token, typed)?;
    match wanted {
        Some(width) => of_width::<V>(width, token, bits),
        None => Ok(bits),
    }
}

/// A compile-time constant is wanted at a token: else rule 27.
pub fn as_number(token: u32, bits: Bits<Known>) -> Judged<u64>
    ensures { result ≡ constants.as_number token bits }
{
    match bits.value {
        Some(known) => number_known(token, known),
        None => Err(None),
    }
}

fn number_known(token: u32, known: Known) -> Judged<u64>
    ensures { result ≡ constants.number_known token known }
{
    match known {
        Known::Number(value) => Ok(value),
        Known::Symbol(_) => Err(faulty(Rule::NotAConstant, token)),
        Known::Sum(_) => Err(faulty(Rule::NotAConstant, token)),
        Known::Nothing => Err(faulty(Rule::NotAConstant, token)),
    }
}

/// A link-time constant is wanted at a token: else rule 27.
pub fn as_constant(token: u32, bits: Bits<Known>) -> Judged<Constant>
    ensures { result ≡ constants.as_constant token bits }
{
    match bits.value {
        Some(known) => constant_known(token, bits.width, known),
        None => Err(None),
    }
}

fn constant_known(token: u32, width: Width, known: Known) -> Judged<Constant>
    ensures { result ≡ constants.constant_known token width known }
{
    match known {
        Known::Number(value) => Ok(Constant::Number(value, width)),
        Known::Symbol(constant) => Ok(constant),
        Known::Sum(constant) => Ok(constant),
        Known::Nothing => Err(faulty(Rule::NotAConstant, token)),
    }
}
