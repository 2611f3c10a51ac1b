//! What is known of values before the program runs, under operators.

ghost use Rattle.std.specs.Prelude.{◌≡◌, ◌≤◌, ◌^◌, ◌<◌};
ghost use Rattle.cmm_words.specs.Widths.{bits};
ghost use Rattle.cmm_words.specs.Words.{sign_extended, low_bits};
ghost use Rattle.cmm_words.specs.Constants.{Fits};
ghost use Rattle.cmm_static_semantics.specs.Senses.{constant_width};
ghost use Rattle.cmm_static_semantics.specs.Algebras as algebras;
ghost use Rattle.cmm_operators.specs.Fitting.{IsKnown};

use cmm_static_semantics::Known;
use cmm_words::{Constant, Op1, Op2, Width, apply1, apply2, extend, low};

/// What is known of a constant.
pub(crate) fn known_constant(constant: Constant) -> Known
    requires { Fits constant }
    ensures value { result ≡ algebras.known_constant constant }
    ensures known { IsKnown (constant_width constant) result }
{
    match constant {
        Constant::Number(word, _) => Known::Number(word),
        Constant::Code { proc, plus } => Known::Symbol(Constant::Code { proc, plus }),
        Constant::Address { label, plus } => Known::Symbol(Constant::Address { label, plus }),
    }
}

/// An address, moved by a number of bytes.
fn moved(constant: Constant, more: u64) -> Constant
    ensures { result ≡ algebras.moved constant more }
{
    match constant {
        Constant::Code { proc, plus } => Constant::Code {
            proc,
            plus: plus.wrapping_add(more),
        },
        Constant::Address { label, plus } => Constant::Address {
            label,
            plus: plus.wrapping_add(more),
        },
        Constant::Number(word, width) => Constant::Number(word, width),
    }
}

/// An operator with one operand.
pub(crate) fn known_unary(operator: Op1, width: Width, a: Known) -> Known
    requires { IsKnown width a }
    ensures value { result ≡ algebras.known_unary operator width a }
    ensures known { IsKnown width result }
{
    match a {
        Known::Number(word) => Known::Number(apply1(operator, width, word)),
        Known::Symbol(_) => Known::Nothing,
        Known::Sum(_) => Known::Nothing,
        Known::Nothing => Known::Nothing,
    }
}

/// A number added to an address or taken from it.
fn known_sum(operator: Op2, constant: Constant, more: u64) -> Known
    ensures value { result ≡ algebras.known_sum operator constant more }
    ensures known { (width : Width) → IsKnown width result }
{
    match operator {
        Op2::Add => Known::Sum(moved(constant, more)),
        Op2::Sub => Known::Sum(moved(constant, apply1(Op1::Neg, Width::W64, more))),
        _ => Known::Nothing,
    }
}

/// An operator on two numbers.
fn known_value(operator: Op2, width: Width, a: u64, b: u64) -> Known
    requires left { IsKnown width (Known.Number a) }
    requires right { IsKnown width (Known.Number b) }
    ensures value { result ≡ algebras.known_binary operator width (Known.Number a) (Known.Number b) }
    ensures known { IsKnown width result }
{
    match apply2(operator, width, a, b) {
        Some(word) => Known::Number(word),
        None => Known::Nothing,
    }
}

/// An operator with two operands.
pub(crate) fn known_binary(operator: Op2, width: Width, a: Known, b: Known) -> Known
    requires left { IsKnown width a }
    requires right { IsKnown width b }
    ensures value { result ≡ algebras.known_binary operator width a b }
    ensures known { IsKnown width result }
{
    match (a, b) {
        (Known::Number(x), Known::Number(y)) => known_value(operator, width, x, y),
        (Known::Symbol(constant), Known::Number(y)) => known_sum(operator, constant, y),
        _ => Known::Nothing,
    }
}

/// A word as one of a width that is not less, by its top bit.
pub(crate) fn known_sign_extended(from: Width, to: Width, a: Known) -> Known
    requires not_wider { bits from ≤ bits to }
    requires known { IsKnown from a }
    ensures value { result ≡ algebras.known_converted (sign_extended from to) a }
    ensures known { IsKnown to result }
{
    match a {
        Known::Number(word) => Known::Number(extend(from, to, word)),
        Known::Symbol(_) => Known::Nothing,
        Known::Sum(_) => Known::Nothing,
        Known::Nothing => Known::Nothing,
    }
}

/// A word as one of a width that is not less, by zeros.
pub(crate) fn known_zero_extended(from: Width, to: Width, a: Known) -> Known
    requires not_wider { bits from ≤ bits to }
    requires known { IsKnown from a }
    ensures value { result ≡ algebras.known_converted (λ n. n) a }
    ensures known { IsKnown to result }
{
    match a {
        Known::Number(word) => Known::Number(word),
        Known::Symbol(_) => Known::Nothing,
        Known::Sum(_) => Known::Nothing,
        Known::Nothing => Known::Nothing,
    }
}

/// The low bits of a word.
pub(crate) fn known_low_bits(to: Width, a: Known) -> Known
    ensures value { result ≡ algebras.known_converted (low_bits to) a }
    ensures known { IsKnown to result }
{
    match a {
        Known::Number(word) => Known::Number(low(to, word)),
        Known::Symbol(_) => Known::Nothing,
        Known::Sum(_) => Known::Nothing,
        Known::Nothing => Known::Nothing,
    }
}
