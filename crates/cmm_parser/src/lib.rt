//! The parser of C-- (C-- Language Specification 2.0, syntax).
//!
//! `parse` answers the unit that tokens derive within the limits on nesting; or the token that no unit goes on with; or the first token
//! that passes a limit in a unit. `specs/Faults` says so in the terms of the grammar of `cmm_grammar`. It is written by recursion, with one
//! token in hand: each method of `Parser` is proved to answer what the reader of the same name in `cmm_grammar` answers (`specs/inside/Parsing`),
//! and there it is proved what these promise. Time is linear in the tokens, a node of the tree is made once, and recursion is as deep as the
//! limits on nesting allow.
//!
//! - `unit`: `parse`, units and their sections. `declaration`, `procedure`, `datum`: what these hold.
//! - `statement`: blocks. `part`, `target`, `call`, `case`: what holds no block.
//! - `expression`, `types`, `operators`: expressions.
//! - `parser`, `token`, `bracket`, `list`: the state, one token, the limits, lists.
//! - `fault`: why tokens are no unit.
#![tactic(auto)]

mod bracket;
mod call;
mod case;
mod datum;
mod declaration;
mod expression;
mod fault;
mod list;
mod operators;
mod parser;
mod part;
mod procedure;
mod statement;
mod target;
mod token;
mod types;
mod unit;

pub use fault::SyntaxFault;
pub use unit::parse;
