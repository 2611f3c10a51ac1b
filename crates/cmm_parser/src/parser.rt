//! A parser: the tokens that are left, and what the limits on nesting count.

ghost use Rattle.std.specs.Prelude.{◌+◌, ◌^◌, ◌<◌, length};

use cmm_lexer::{Token, Tokens};
use std::alloc::Global;

/// A parser with one token in hand. A method takes what it is named for from the front of the tokens that are left.
#[derive(Drop)]
pub(crate) struct Parser<'a> {
    pub(crate) alloc: Global,
    pub(crate) tokens: &'a Tokens,
    pub(crate) rest: &'a [Token],
    /// How many tokens are taken, which is the number of the next.
    pub(crate) taken: u32,
    /// How many brackets are open.
    pub(crate) open: u32,
    /// How many operators the outermost expression has so far.
    pub(crate) operators: u32,
    ghost few: { taken + length rest.now < 2 ^ 32 },
}
