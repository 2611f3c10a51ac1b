//! The assembler: code as a list of parts, and its bytes.
//!
//! A part is an instruction, the place of a label, or something that leads to a label: a branch, a jump, a call, an address, a table of
//! jumps. What it means is a statement about finished code in real addresses (`Does` of `specs/Parts`): wherever it stands, the machine
//! does this, by at most a given number of instructions, and stands behind it or at the label. Nothing in it has a size. `Asm` collects parts, and
//! `finish` is proved to give bytes that run as the list of parts, wherever they stand and whatever numbers the symbols outside of them
//! get. So nobody above sees a byte, an offset or an encoding.
//!
//! - `part`: labels, their meanings, and the parts.
//! - `asm`: `Asm`, a list of parts that grows at its end.
//! - `finishing`: from parts to bytes, places of labels, and fixes. `form`: the instructions of each part, in one word where that reaches
//!   its label. `walks`: which parts that are.
//! - `filling`: `fill`, which gives a fix the number of its symbol.
//! - `laws`: what is proved of parts that stand, of pieces that are appended, and of runs.
//!
//! Whoever appends parts says what they do by `Appends` of `specs/Appending`, and whoever owns a label by `Codes`. These range over
//! everything that may be said of a piece of code, which a contract cannot, so the laws by which they compose are public lemmas of
//! `proofs/Shared`, for proofs of crates above; the contracts of `laws` state instances of them.
#![tactic(auto)]

mod asm;
mod filling;
mod finishing;
mod form;
pub mod laws;
mod part;
mod walks;

pub use asm::Asm;
pub use filling::{CodeFix, fill};
pub use finishing::Placed;
pub use part::{Label, Meaning, Part, TABLE_LIMIT};
