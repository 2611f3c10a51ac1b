//! Which rules a procedure breaks, the limits on a whole procedure left out.
//!
//! `note_procedure` says how the first fault goes on over a procedure: over the names that it declares again, its formals, and each declaration
//! and statement of its body, exactly as `proc_spots` of `cmm_static_semantics` lists them. Of the faults the first is kept while walking. Time is linear but
//! for the ranges of a switch: whether one meets another before it is required of a set of ranges, in the logarithm of their number.
//!
//! - `procedure`: the call `note_procedure`, and the parts of a body. `declaring`: formals, variables and stackdata.
//! - `statement`: the forms of statements, the blocks inside them left out. `assignment`, `checked`, `returning`: assignments, checked operators, the exits
//!   of returns.
//! - `switch`: the call `note_switch`. `ranges`: the ranges and arms of a switch, one after another. `number`: the numbers in them. `extent`: the numbers
//!   from one to another. `extents`: sets of them.
//! - `callee`: callees. `foreign`: calls of the host. `passing`: what is passed and what takes it. `flows`: annotations. `naming`: names that stand for a
//!   variable, a label or a continuation. `past_limit`: what a list has past its limit.
#![tactic(auto)]

mod assignment;
mod callee;
mod checked;
mod declaring;
mod extent;
mod extents;
mod flows;
mod foreign;
mod naming;
mod number;
mod passing;
mod past_limit;
mod procedure;
mod ranges;
mod returning;
mod statement;
mod switch;

pub use foreign::foreign_callee;
pub use procedure::note_procedure;
