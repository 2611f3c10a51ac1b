//! Places for the locals of procedures.
//!
//! `places` gives each local of a graph a register or a slot in the frame, by which locals are live where. `place_program` does so for the
//! graphs of a whole program, lays the frames, and lists the locals that begin as 0. Such a plan meets all that the located machine
//! requires of a compiled program, so that its runs follow those of the C-- machine: that is said in `laws`.
//!
//! - `classes`: which locals suit registers of either kind.
//! - `colouring`: registers by the conflicts of locals, and slots for those that get none.
//! - `hints`: which registers suit locals that take or pass values.
//! - `layout`: the frame of a procedure, for the places of its locals.
//! - `procedure`: the places of one procedure.
//! - `program`: those of all procedures.
//! - `rows`: the rows of a placement that has these frames.
//! - `laws`: what they guarantee, as contracts.
#![tactic(auto)]

mod classes;
mod colouring;
mod hints;
pub mod laws;
mod layout;
mod procedure;
mod program;
mod rows;

pub use colouring::places;
pub use procedure::ProcedurePlaces;
pub use program::place_program;
pub use rows::placement;
