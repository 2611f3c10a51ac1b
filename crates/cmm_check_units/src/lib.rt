//! The pass that checks: which static rules units break, and what is known of them where they break none.
//!
//! `check_units` answers the fault that is named of units by the static rules, exactly: the first by unit, place and rule, from the definitions of
//! `cmm_static_semantics`. Where there is none it answers what the pass that lowers takes, `Checked` of `cmm_checked`. Of the faults the first is kept while
//! walking, so that each function's clause says how the first fault goes on. What the limits over all units count is added up on the same walk, and tested
//! last. Time is linear in the units.
//!
//! - `checking`: the call `check_units`, over all units. `unit`, `unit_names`: the rules on one unit, laid flat. `together`, `sums`: those that all units
//!   break together, and what the limits on them count.
//! - `fault`: why units are not accepted.
//! - `host`, `linking`, `target`, `registers`: names of the host, exports and imports, properties of the target, registers.
//! - `cycles`: typedefs and constants that depend on themselves. `procedures`: procedures. `earlier`: what is known of the units before one.
#![tactic(auto)]

mod checking;
mod cycles;
mod earlier;
mod fault;
mod host;
mod linking;
mod procedures;
mod registers;
mod sums;
mod target;
mod together;
mod unit;
mod unit_names;

pub use checking::check_units;
pub use fault::StaticFault;
