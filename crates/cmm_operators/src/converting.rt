//! Bits of one width as bits of another.

ghost use Rattle.std.specs.Prelude.{◌≡◌, IfOk};
ghost use Rattle.cmm_static_semantics.specs.Judging.{with_ok, bits_of};
ghost use Rattle.cmm_static_semantics.specs.Typing as typing;
ghost use Rattle.cmm_operators.specs.Fitting.{BitsFit, OperandFits, TypedFits};
ghost use Rattle.cmm_operators.specs.inside.Converting.{Allowed, allowed, made};

use crate::values::{BitsOf, OperandOf, Outcome, TypedOf, Values};
use crate::wanted::{as_bits, faulty};
use cmm_rules::Rule;
use cmm_static_semantics::{Bits, Typed};
use cmm_words::Width;

/// How bits become bits of another width.
#[derive(Clone, Copy)]
pub(crate) enum Conversion {
    /// By the top bit, to a width that is not less.
    SignExtend,
    /// By zeros, to a width that is not less.
    ZeroExtend,
    /// The low bits, at a width that is not greater.
    LowBits,
}

impl Conversion {
    /// Whether bits of a width become bits of another.
    fn allows(self, from: Width, to: Width) -> bool
        ensures { result ≡ allowed self from to }
    {
        match self {
            Conversion::SignExtend => from.bits() <= to.bits(),
            Conversion::ZeroExtend => from.bits() <= to.bits(),
            Conversion::LowBits => to.bits() <= from.bits(),
        }
    }
}

/// What stands for a word, at another width.
fn word_converted<V: Values>(
    values: &V,
    conversion: Conversion,
    from: Width,
    to: Width,
    a: V::Value,
) -> Result<V::Value, V::Failure>
    requires allowed { Allowed conversion from to }
    requires fits { V.fits from a }
    ensures value { IfOk result (λ v. v ≡ made V.algebra conversion from to a) }
    ensures fits { IfOk result (V.fits to) }
{
    match conversion {
        Conversion::SignExtend => values.sign_extend(from, to, a),
        Conversion::ZeroExtend => values.zero_extend(from, to, a),
        Conversion::LowBits => values.low_part(from, to, a),
    }
}

/// Bits at another width, which a token stands for: rule 23 where they do not become bits of that.
fn bits_converted<V: Values>(
    values: &V,
    conversion: Conversion,
    to: Width,
    token: u32,
    bits: BitsOf<V>,
) -> Outcome<TypedOf<V>, V>
    requires { BitsFit V.fits bits }
    ensures value { IfOk result (λ j. j ≡ typing.converted V.algebra (allowed conversion bits.width to) token to (made V.algebra conversion) bits) }
    ensures fits { IfOk result (λ j. IfOk j (TypedFits V.fits)) }
{
    let Bits { width, value } = bits;
    if !conversion.allows(width, to) {
        return Ok(Err(faulty(Rule::WidthsDiffer, token)));
    }
    let Some(a) = value else {
        return Ok(Ok(Typed::Bits(Bits {
            width: to,
            value: None,
        })));
    };
    let value = Some(word_converted(values, conversion, width, to, a)?);
    Ok(Ok(Typed::Bits(Bits { width: to, value })))
}

/// An operand of bits, at another width: else rule 24, or 23 where it does not become bits of that.
pub(crate) fn converted<V: Values>(
    values: &V,
    conversion: Conversion,
    to: Width,
    operand: OperandOf<V>,
) -> Outcome<TypedOf<V>, V>
    requires { OperandFits V.fits operand }
    ensures value { IfOk result (λ j. j ≡ with_ok (bits_of operand) (λ bits. typing.converted V.algebra (allowed conversion bits.width to) operand.token to (made V.algebra conversion) bits)) }
    ensures fits { IfOk result (λ j. IfOk j (TypedFits V.fits)) }
{
    match as_bits::<V>(operand.token, operand.typed) {
        Ok(bits) => bits_converted(values, conversion, to, operand.token, bits),
        Err(broken) => Ok(Err(broken)),
    }
}
