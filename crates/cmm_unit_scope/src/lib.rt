//! What the names of a unit mean.
//!
//! `senses_of_unit` answers what each declaration means, by its number, so that names mean exactly `unit_senses` of `cmm_static_semantics`: each typedef's
//! width, and each constant's value, evaluated once, after those that it names, which may stand later in the unit. Names are found by the unit's own table,
//! which is lent, and made once. Below it, `types_of` finds the widths of typedefs, and `dependencies_of` what each
//! typedef and constant names, so that those that depend on themselves are found: they have no value. Time is linear in the unit, and want of memory is the
//! only failure.
//!
//! - `types`: the call `types_of`, and what a name means as a type. `widths`: the widths of typedefs, in order. `typedef_graph`: which typedef names which.
//! - `number`: declarations by their numbers.
//! - `dependencies`: which typedefs and constants depend on themselves. `dependency_graph`: what each declaration names. `mentioned`: the names in an
//!   expression, by their numbers.
//! - `evaluating`: the call `senses_of_unit`. `unit_senses`: `UnitSenses`, a `Names` of `cmm_typing`. `first_senses`: what declarations mean before any
//!   constant is evaluated. `waiting`: which constants wait for which, and those that lead to a cycle. `flags`: nodes, marked.
#![tactic(auto)]

mod dependencies;
mod dependency_graph;
mod evaluating;
mod first_senses;
mod flags;
mod mentioned;
mod number;
mod typedef_graph;
mod types;
mod unit_senses;
mod waiting;
mod widths;

pub use dependencies::{Dependencies, dependencies_of};
pub use evaluating::senses_of_unit;
pub use types::{Types, types_of};
pub use unit_senses::UnitSenses;
