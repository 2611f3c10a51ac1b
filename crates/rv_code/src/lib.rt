//! Instructions as words, both ways.
//!
//! `encode` gives the word of a valid instruction. `decode` gives the instruction of a word, and none where no row of the table
//! has the word: FENCE and every reserved encoding among them. So `decode` undoes `encode`, and gives nothing else. `bytes_of`
//! gives the bytes of instructions as they stand in code.
//!
//! - `encoding`: from an instruction to its fields and its word.
//! - `decoding`: from a word to its fields and its instruction.
//! - `bytes`: from instructions to bytes.
//! - `laws`: what follows of the two together.
#![tactic(auto)]

mod bytes;
mod decoding;
mod encoding;
pub mod laws;

pub use bytes::bytes_of;
pub use decoding::decode;
pub use encoding::encode;
