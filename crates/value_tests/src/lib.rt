//! Tests that need values which no text has, or show them: of what no clause says, and no line of the programs of rows.
//!
//! - `lines`: lines that a user may type, with what `cmm_command` makes of them.
//! - `graph`: graphs of `cmm_graph` in and out of range.
//! - `report`: a stream that fails under `cmm_report`.
#![tactic(auto)]

#[cfg(test)]
mod graph;
#[cfg(test)]
mod lines;
#[cfg(test)]
mod report;
