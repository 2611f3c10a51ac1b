//! Limits on a procedure, and its share of the limits on the whole program.
//!
//! `note_limits` notes what a procedure has past a limit: tokens, variables and stackdata, exactly as `cmm_static_semantics` has it. `variable_count`,
//! `site_count` and `site_tokens` are numbers of a procedure, and `site_variables` and `site_spans` their sums over a unit. All take procedures
//! laid flat, with their names: none is made here. Time is linear, but
//! that a token is looked for among those of the spans around it.
//!
//! - `limits`: the call `note_limits`. `stackdata`: where the stackdata of a procedure ends.
//! - `sites`: its call sites. `span_tokens`: the tokens that have a span there.
//! - `unit_variables`, `unit_spans`: the sums of these over all procedures of a unit.
#![tactic(auto)]

mod limits;
mod sites;
mod span_tokens;
mod stackdata;
mod unit_spans;
mod unit_variables;

pub use limits::note_limits;
pub use sites::site_count;
pub use span_tokens::site_tokens;
pub use unit_spans::site_spans;
pub use unit_variables::{site_variables, variable_count};
