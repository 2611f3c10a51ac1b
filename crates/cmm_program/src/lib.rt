//! The resolved program, and the C-- machine that runs it.
//!
//! A program is resolved where each name is replaced by the number of what it names. This layer has the types of a
//! resolved program and of a placement of its code and frames, `Placement::valid`, and, in `specs/`, what a program
//! means: where its data and stackdata lie, which placements are valid, which variables are live at a call site, the
//! machine that runs it step by step, the walk of its activations, and what the client of the run-time system does to
//! it. Whatever is proved about a running program is proved against those definitions.
//!
//! - `expression`: expressions and conditions.
//! - `statement`: the statements of a body.
//! - `procedure`: a procedure, with its variables, stackdata, continuations and call sites.
//! - `program`: a whole program, with its data.
//! - `placement`: where the code and the parts of the frames lie.
//! - `laws`: what the layers above use of the definitions of liveness, as contracts.
#![tactic(auto)]

mod expression;
pub mod laws;
mod placement;
mod procedure;
mod program;
mod statement;

pub use expression::{Condition, Expression};
pub use placement::{PlaceRow, Placement};
pub use procedure::{Cont, Proc, Site, StackItem, Target, VarInfo};
pub use program::{Datum, Global, Label, Program};
pub use statement::{Arm, Case, Form, Lvalue, Range, Statement};
