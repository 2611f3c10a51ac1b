//! The grammar of C-- (C-- Language Specification 2.0, syntax), and how units are parsed: readers, and what they owe the grammar.
//!
//! The grammar says which tokens a tree of `cmm_ast` derives, a line for each alternative: `ExpressionGrammar`, `StatementGrammar` and `UnitGrammar`, by the words of
//! `Taking`; `Derivation` has a whole unit, and its limits on nesting.
//!
//! A reader stands at a token and answers what it read and where it then stands, or the token at which it stopped: one that
//! nothing goes on with, or one that passes a limit. It looks at one token at a time. `specs/` puts a reader together for each
//! part of a unit, from those for single tokens in `Reading` up to `UnitReading`. What a reader owes the grammar is in
//! `inside/Duties`: what it reads is a tree of the tokens that it takes, it reads each tree that what follows does not go on, its
//! answer hangs on no token beyond the one that it looks at, and it stops no later than it must. From these it follows that tokens
//! have one tree, and that a reader stops at the first token that no tree goes on with.
//!
//! All of it is proved, of each reader up to that of units, and `laws` says what follows of expressions and of units. A parser, whose
//! functions answer what the readers answer, stands above.
#![tactic(auto)]

pub mod laws;
mod told_apart;

pub use told_apart::{Head, PartForm, Targets};
