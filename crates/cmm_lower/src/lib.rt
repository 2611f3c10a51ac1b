//! The pass that lowers: from the units of a program, which break no static rule, to the program that they mean.
//!
//! `lower` answers exactly what `cmm_elaboration` says of the trees, unit by unit: their procedures, data and labels, with numbers for names. A body is walked
//! once, in textual order. Want of memory is the only failure: a number of 32 bits that would be more is given as the greatest. Time is linear, but that each
//! call site has a copy of the spans in force, and each span one of those around it.
//!
//! - `whole`: the call `lower`, and the program of all units. `parts`: `Parts`, which grows by one unit at a time. `units`: the procedures of a unit.
//!   `procedures`: a whole procedure.
//! - `bodies`: the walk, over blocks, statements and arms. `forms`: statements without blocks. `switches`: what arms are for. `tokens`: how many tokens a
//!   statement has of its own.
//! - `sites`: call sites. `exits`: the continuations that their annotations name. `spans`: the spans in force.
//! - `laws`: which procedures fit a program.
#![tactic(auto)]

mod bodies;
mod exits;
mod forms;
pub mod laws;
mod parts;
mod procedures;
mod sites;
mod spans;
mod switches;
mod tokens;
mod units;
mod whole;

pub use whole::lower;
