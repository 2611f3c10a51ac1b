//! The code of units, and the text to which it is joined.
//!
//! `UnitCode` is how the code of a unit is handed on: bytes that may stand anywhere, with no address in them. Whoever makes code answers it, and whoever links takes
//! it, so that neither stands on the other. What a unit's code names and does not have stands in a list of the unit, and a symbol is a place in it. `specs/Joined` says which codes can be joined, and to which text; `specs/Texts` when a text is the code of a program.
//!
//! - `unit_code`: the code of a unit, what it names, and the code of a program before it is joined.
//! - `text`: the code of a program, as it stands in an image.
#![tactic(auto)]

mod text;
mod unit_code;

pub use text::Text;
pub use unit_code::{ProgramCode, Reference, UnitCode};
