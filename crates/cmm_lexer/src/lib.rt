//! The tokens of a unit of C-- (C-- Language Specification 2.0, lexical form).
//!
//! A unit splits into pieces, each the longest at its place: separators, comments, skipped lines and tokens. `specs/Pieces` says by
//! cases on the bytes which piece stands at a place, and `specs/Lexing` which tokens the pieces make and which fault comes first.
//! `lex` answers the tokens exactly where no piece breaks a rule, with their kinds, places and spellings, and else the first fault
//! of the text. Two tokens have one number exactly where their bytes are equal. The time is linear in the unit's length.
//!
//! - `token`, `tokens`: a token, and the tokens of a unit with the spellings that they have numbers of.
//! - `lexing`: `lex`, one loop over the pieces.
//! - `piece`: the piece at the front of a text.
//! - `keyword`, `symbol`: the reserved words and the symbols, with their spellings and numbers.
//! - `character`, `number`, `spelling`, `bytes`: what characters, numbers and names are made of.
//! - `laws`: what holds of the tokens of any unit.
#![tactic(auto)]

mod bytes;
mod character;
mod keyword;
pub mod laws;
mod lexing;
mod number;
mod piece;
mod spelling;
mod symbol;
mod token;
mod tokens;

pub use keyword::Keyword;
pub use lexing::lex;
pub use symbol::Symbol;
pub use token::{Token, TokenKind};
pub use tokens::{LexFault, Tokens, UNIT_LIMIT};
