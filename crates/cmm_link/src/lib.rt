//! Images from their parts.
//!
//! `link` makes the image of a program: the code of its units is joined to one text, in which each symbol has its number; its data has the addresses of procedures filled in; and its
//! tables have their rows. The placement that the image shows is the one of that code and of the frames of its procedures, so the data is the definition's for it.
//!
//! - `joining`: the text of a program from the codes of its units.
//! - `filling`: the bytes of data, once each address of a procedure is in them.
//! - `procedures`, `labels`, `globals`: the rows of the tables.
//! - `linking`: `link`. `shown`: the placement that an image shows.
//! - `names`: names that are copied, and their bytes.
//! - `laws`: what holds of all images of programs.
#![tactic(auto)]

mod filling;
mod globals;
mod joining;
mod labels;
pub mod laws;
mod linking;
mod names;
mod procedures;
mod shown;
mod sites;

pub use linking::link;
pub use shown::placement;
