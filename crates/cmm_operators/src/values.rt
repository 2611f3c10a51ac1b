//! What stands for the values of expressions and for conditions.

ghost use Rattle.std.specs.Prelude.{◌≡◌, ◌≤◌, IfOk};
ghost use Rattle.cmm_words.specs.declared.width.Width.{Width as WidthAs};
ghost use Rattle.cmm_words.specs.Widths.{bits};
ghost use Rattle.cmm_words.specs.Constants.{Fits};
ghost use Rattle.cmm_static_semantics.specs.Algebras.{Algebra};
ghost use Rattle.cmm_static_semantics.specs.Senses.{constant_width};

use crate::wanted::Judged;
use cmm_static_semantics::{Bits, Operand, Operands, Typed};
use cmm_words::{Cmp, Constant, Op1, Op2, Width};

/// What stands for the values of expressions and for conditions, made from what stands for their parts.
pub trait Values {
    type Value: Drop;

    type Condition: Drop;
    /// Why nothing is made.
    type Failure: Drop;

    ghost algebra: { Algebra Self.Value Self.Condition };

    // what may stand for a word of this width
    ghost fits: { WidthAs → Self.Value → Type 0 };

    fn constant(&self, constant: Constant) -> Result<Self::Value, Self::Failure>
        requires { Fits constant }
        ensures value { IfOk result (λ v. v ≡ algebra.constant constant) }
        ensures fits { IfOk result (fits (constant_width constant)) };

    /// The value of a variable of the procedure, by its number.
    fn variable(&self, number: u32, width: Width) -> Result<Self::Value, Self::Failure>
        ensures value { IfOk result (λ v. v ≡ algebra.variable number width) }
        ensures fits { IfOk result (fits width) };

    /// The value of a global register, by its number.
    fn register(&self, number: u32, width: Width) -> Result<Self::Value, Self::Failure>
        ensures value { IfOk result (λ v. v ≡ algebra.register number width) }
        ensures fits { IfOk result (fits width) };

    /// The address of a stackdata label of the procedure, by its number.
    fn stackdata(&self, number: u32) -> Result<Self::Value, Self::Failure>
        ensures value { IfOk result (λ v. v ≡ algebra.stackdata number) }
        ensures fits { IfOk result (fits Width.W64) };

    /// The value of a continuation of the procedure, by its number.
    fn continuation(&self, number: u32) -> Result<Self::Value, Self::Failure>
        ensures value { IfOk result (λ v. v ≡ algebra.continuation number) }
        ensures fits { IfOk result (fits Width.W64) };

    /// The word in memory at an address, which is a multiple of `aligned` bytes.
    fn load(
        &self,
        width: Width,
        aligned: u64,
        address: Self::Value,
    ) -> Result<Self::Value, Self::Failure>
        ensures value { IfOk result (λ v. v ≡ algebra.load width aligned address) }
        ensures fits { IfOk result (fits width) };

    fn unary(
        &self,
        operator: Op1,
        width: Width,
        a: Self::Value,
    ) -> Result<Self::Value, Self::Failure>
        requires { fits width a }
        ensures value { IfOk result (λ v. v ≡ algebra.unary operator width a) }
        ensures fits { IfOk result (fits width) };

    fn binary(
        &self,
        operator: Op2,
        width: Width,
        a: Self::Value,
        b: Self::Value,
    ) -> Result<Self::Value, Self::Failure>
        requires left { fits width a }
        requires right { fits width b }
        ensures value { IfOk result (λ v. v ≡ algebra.binary operator width a b) }
        ensures fits { IfOk result (fits width) };

    /// To a width that is not less, by the top bit.
    fn sign_extend(
        &self,
        from: Width,
        to: Width,
        a: Self::Value,
    ) -> Result<Self::Value, Self::Failure>
        requires not_wider { bits from ≤ bits to }
        requires known { fits from a }
        ensures value { IfOk result (λ v. v ≡ algebra.sign_extend from to a) }
        ensures fits { IfOk result (fits to) };

    /// To a width that is not less, by zeros.
    fn zero_extend(
        &self,
        from: Width,
        to: Width,
        a: Self::Value,
    ) -> Result<Self::Value, Self::Failure>
        requires not_wider { bits from ≤ bits to }
        requires known { fits from a }
        ensures value { IfOk result (λ v. v ≡ algebra.zero_extend from to a) }
        ensures fits { IfOk result (fits to) };

    /// The low bits.
    fn low_part(&self, from: Width, to: Width, a: Self::Value) -> Result<Self::Value, Self::Failure>
        ensures value { IfOk result (λ v. v ≡ algebra.low_part from to a) }
        ensures fits { IfOk result (fits to) };

    fn compare(
        &self,
        comparison: Cmp,
        width: Width,
        a: Self::Value,
        b: Self::Value,
    ) -> Result<Self::Condition, Self::Failure>
        ensures { IfOk result (λ c. c ≡ algebra.compare comparison width a b) };

    fn negated(&self, p: Self::Condition) -> Result<Self::Condition, Self::Failure>
        ensures { IfOk result (λ c. c ≡ algebra.negated p) };

    fn conjoined(
        &self,
        p: Self::Condition,
        q: Self::Condition,
    ) -> Result<Self::Condition, Self::Failure>
        ensures { IfOk result (λ c. c ≡ algebra.conjoined p q) };

    fn disjoined(
        &self,
        p: Self::Condition,
        q: Self::Condition,
    ) -> Result<Self::Condition, Self::Failure>
        ensures { IfOk result (λ c. c ≡ algebra.disjoined p q) };
}

/// Bits, with what stands for them.
pub type BitsOf<V> = Bits<<V as Values>::Value>;

/// Bits or a condition, with what stands for them.
pub type TypedOf<V> = Typed<<V as Values>::Value, <V as Values>::Condition>;

/// An operand, with what stands for it.
pub type OperandOf<V> = Operand<<V as Values>::Value, <V as Values>::Condition>;

/// The operands of an operator, with what stands for them.
pub type OperandsOf<V> = Operands<<V as Values>::Value, <V as Values>::Condition>;

/// A judgement, unless making what stands for it fails.
pub type Outcome<T, V> = Result<Judged<T>, <V as Values>::Failure>;
