//! Procedures laid flat, and their names, over those of their unit.
//!
//! `ProcNames` is a procedure with the pieces of its body, the names that it declares, its variables and its stackdata, made once and lent to whatever asks of it. What its names mean
//! over those of its unit, `within`, is exactly `senses` of `cmm_static_semantics`, numbers included, and where they stand as types exactly `types`: a name of
//! the procedure hides that of the unit, and is no type itself. `FlatUnit` is a unit with what stands in it and the names of each of its procedures.
//! Contracts see both as their trees. Time is linear: a name is hashed once where it is declared, and once or twice where it is looked up.
//!
//! - `flat_unit`: `FlatUnit`. `proc_names`: `ProcNames`. `procs_left`: `ProcsLeft`, the procedures that a walk over the tree of a unit has still to meet.
//! - `body_names`: `BodyNames`, the names of a procedure over those of its unit.
//! - `body_types`: `BodyTypes`, the names of the unit that no name of the procedure hides.
//! - `own`: what a name of a procedure is declared as. `declaring`: what a procedure declares.
//! - `variables`, `rooms`: its variables and its stackdata. `numbering`: declarations by their numbers. `own_names`: declarations found by their names.
#![tactic(auto)]

mod body_names;
mod body_types;
mod declaring;
mod flat_unit;
mod numbering;
mod own;
mod own_names;
mod proc_names;
mod procs_left;
mod rooms;
mod variables;

pub use body_names::BodyNames;
pub use body_types::BodyTypes;
pub use flat_unit::FlatUnit;
pub use proc_names::ProcNames;
pub use procs_left::ProcsLeft;
