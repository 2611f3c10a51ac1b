//! What units know of each other: what stands under the link names that they import, and the numbers of the registers that they share.
//!
//! Contracts see a `Linkage` as the definition's record, `Linking.Program`. It is `Gathered` first, which grows by a unit at a time; where all units
//! are in, the names of registers are sorted, and each has its place as its number. Link names and names of registers are found by their
//! bytes, as these stand in the units, in expected constant time.
//!
//! - `linked`: `Linked`, which tells what units know of each other. `linkage`: `Gathered`, and `Linkage`, which is made of it.
//! - `link`: the link names of imports and exports. `owned`: what the names of a unit are, and their numbers.
//! - `register`: the registers of a unit. `register_names`: what names of registers are found by.
#![tactic(auto)]

mod link;
mod linkage;
mod linked;
mod owned;
mod register;
mod register_names;

pub use link::{export_link, import_link};
pub use linkage::{Gathered, Linkage};
pub use linked::Linked;
pub use owned::{entry_of, number_of};
pub use register::{Register, registers_in};
