//! From the bytes of units to the program that they mean.
//!
//! `program_of` answers the program of units exactly where they break no rule, and else the first rule that they break: by phase (lexical form, syntax, static
//! rules), then by unit, place and number. So whoever makes code of a program knows no bytes, no tokens and no trees.
//!
//! - `program`: the call `program_of`, the passes in a row. `tokens`, `trees`: the tokens of all units, and their trees. `too_long`
//!   answers the fault of units of which one is longer than a unit may be.
//! - `fault`: why units have no program.
//! - `laws`: units mean one program or have one fault, and never both.
//!
//! `specs/Sources` says what the bytes of units are, and `specs/Refusing` which fault is named.
#![tactic(auto)]

mod fault;
pub mod laws;
mod program;
mod tokens;
mod trees;

pub use fault::FrontFault;
pub use program::program_of;
pub use tokens::too_long;
