//! What a right side becomes.

ghost use Rattle.std.specs.Prelude.{◌≡◌, ◌≢◌, ℕ, ◌^◌, ◌<◌, IfSome, IfNone, IsTrue, Some, None};
ghost use Rattle.cmm_words.specs.Widths.{IsWord, bits};
ghost use Rattle.cmm_words.specs.Words.{value2};
ghost use Rattle.cmm_words.specs.declared.constant.Constant.TheVariants.{Number};
ghost use Rattle.cmm_graph.specs.declared.operand.Operand.TheVariants.{Constant as OfConstant};
ghost use Rattle.cmm_graph.specs.declared.operand.Rvalue.TheVariants.{Binary};
ghost use Rattle.cmm_fold.specs.Folding.{IsIrreducible, StandsFor, OperatorIsIrreducible, number_in};

use cmm_graph::{Operand, Rvalue};
use cmm_words::{Constant, Op2, Width, apply1, apply2, extend, low};

/// The number that an operand is, where that is a word of a width.
fn number_in(width: Width, operand: Operand) -> Option<u64>
    ensures { result ≡ number_in width operand }
{
    match operand {
        Operand::Constant(Constant::Number(word, _)) if word <= width.max() => Some(word),
        _ => None,
    }
}

/// A number as an operand.
fn number(word: u64, width: Width) -> Operand
    ensures { result ≡ OfConstant (Number word width) }
{
    Operand::Constant(Constant::Number(word, width))
}

/// Which power of two a number is, if it is one.
fn exponent_of(n: u64) -> Option<u64>
    ensures some { IfSome result (λ k. (n ≡ 2 ^ k) × (k < 64)) }
    ensures none { IfNone result ((k : ℕ) → n ≢ 2 ^ k) }
{
    for k in 0..64 {
        if n == 1 << k {
            return Some(k);
        }
    }
    None
}

/// A word by an operator whose second operand is a number.
fn by_right(operator: Op2, width: Width, left: Operand, b: u64, right: Operand) -> Rvalue
    requires left { number_in width left ≡ None }
    requires right { number_in width right ≡ Some b }
    ensures stands { StandsFor (Binary operator width left right) result }
    ensures folded { IsIrreducible result }
{
    let same = Rvalue::Binary {
        operator,
        width,
        left,
        right,
    };
    match exponent_of(b) {
        Some(k) => match operator {
            Op2::Mul => Rvalue::Binary {
                operator: Op2::Shl,
                width,
                left,
                right: number(k, width),
            },
            Op2::Divu => Rvalue::Binary {
                operator: Op2::Shrl,
                width,
                left,
                right: number(k, width),
            },
            Op2::Modu => Rvalue::Binary {
                operator: Op2::And,
                width,
                left,
                right: number(b - 1, width),
            },
            _ => same,
        },
        None => same,
    }
}

/// A number by an operator whose second operand is none.
fn by_left(operator: Op2, width: Width, a: u64, left: Operand, right: Operand) -> Rvalue
    requires left { number_in width left ≡ Some a }
    requires right { number_in width right ≡ None }
    ensures stands { StandsFor (Binary operator width left right) result }
    ensures folded { IsIrreducible result }
{
    let same = Rvalue::Binary {
        operator,
        width,
        left,
        right,
    };
    match operator {
        Op2::Mul => match exponent_of(a) {
            Some(k) => Rvalue::Binary {
                operator: Op2::Shl,
                width,
                left: right,
                right: number(k, width),
            },
            None => same,
        },
        _ => same,
    }
}

/// An operator with two operands.
fn fold_binary(operator: Op2, width: Width, left: Operand, right: Operand) -> Rvalue
    ensures stands { StandsFor (Binary operator width left right) result }
    ensures folded { IsIrreducible result }
{
    let same = Rvalue::Binary {
        operator,
        width,
        left,
        right,
    };
    match number_in(width, left) {
        Some(a) => match number_in(width, right) {
            Some(b) => match apply2(operator, width, a, b) {
                Some(value) => Rvalue::Copy(number(value, width)),
                None => same,
            },
            None => by_left(operator, width, a, left, right),
        },
        None => match number_in(width, right) {
            Some(b) => by_right(operator, width, left, b, right),
            None => same,
        },
    }
}

/// A right side that gives the same, with no operator that can be folded.
pub(crate) fn fold_value(value: Rvalue) -> Rvalue
    ensures stands { StandsFor value result }
    ensures folded { IsIrreducible result }
{
    match value {
        Rvalue::Unary {
            operator,
            width,
            operand,
        } => match number_in(width, operand) {
            Some(a) => Rvalue::Copy(number(apply1(operator, width, a), width)),
            None => value,
        },
        Rvalue::Binary {
            operator,
            width,
            left,
            right,
        } => fold_binary(operator, width, left, right),
        Rvalue::SignExtend { from, to, operand } => match number_in(from, operand) {
            Some(a) if from.bits() <= to.bits() => Rvalue::Copy(number(extend(from, to, a), to)),
            _ => value,
        },
        Rvalue::LowBits { from, to, operand } => match number_in(from, operand) {
            Some(a) => Rvalue::Copy(number(low(to, a), to)),
            None => value,
        },
        _ => value,
    }
}
