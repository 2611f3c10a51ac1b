//! The two passes over trees in a row: the program that units mean, or the first static rule that they break.
//!
//! `check` promises that its program is the one that the units mean, in range, and that a fault is the one that is named of them. The compiler calls the two
//! passes themselves, `check_units` and `lower`, so nothing of it waits for this crate.
#![tactic(auto)]

mod program;

pub use cmm_check_units::StaticFault;
pub use program::check;
