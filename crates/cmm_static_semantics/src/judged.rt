//! What an expression is judged to be (C-- Language Specification 2.0, expressions).

use cmm_words::Width;

/// Bits of a width.
#[derive(Drop)]
pub struct Bits<E> {
    pub width: Width,
    /// What stands for the value. Where it depends on a constant that is broken elsewhere there is nothing.
    pub value: Option<E>,
}

/// Bits or a condition, with what stands for them.
#[derive(Drop)]
pub enum Typed<E, C> {
    Bits(Bits<E>),
    Test(Option<C>),
}

/// An operand.
#[derive(Drop)]
pub struct Operand<E, C> {
    /// The number of its first token.
    pub token: u32,
    pub typed: Typed<E, C>,
}

/// The operands of an operator, as far as any operator takes them.
#[derive(Drop)]
pub enum Operands<E, C> {
    Zero,
    One(Operand<E, C>),
    Two(Operand<E, C>, Operand<E, C>),
    More,
}
