//! Which units are accepted, and which fault is named of others: the static rules of C--.
//!
//! Each rule is a definition of `specs/` on the part of a unit that it speaks of; the faults of units are a list of places, and the first of
//! them is the one that is named. All of it computes: `proofs/*RuleRows.antt` of `cmm_elaboration` has units as text with the place that is named of each. What an
//! expression is judged to be carries the expression with names resolved. The types here are those that the definitions share with the code
//! that meets them, in `cmm_typing` and above.
//!
//! - `spot`, `fault`: where a rule is broken, in a unit and among units. `noting`: how the first fault is kept.
//! - `sense`: what a name means.
//! - `operator`: what an operator does.
//! - `known`: what is known of a value before the program runs.
//! - `judged`: what an expression is judged to be.
//! - `laws`: how first faults compose, and that judgements do not depend on what stands for values.
#![tactic(auto)]

mod fault;
mod judged;
mod known;
mod laws;
mod noting;
mod operator;
mod sense;
mod spot;

pub use fault::Fault;
pub use judged::{Bits, Operand, Operands, Typed};
pub use known::Known;
pub use laws::{first_faults_compose, values_do_not_matter};
pub use noting::unless;
pub use operator::Operator;
pub use sense::{Host, Sense};
pub use spot::Spot;
