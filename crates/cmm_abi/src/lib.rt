//! The calling convention of compiled code: each number of it once, as a constant and as a definition.
//!
//! Compiled code, the image's machine and the run-time system meet here alone: by which register has which role, which registers a
//! procedure gives back as it got them, where the values of a call travel, and by which registers a request is made. Where code, data,
//! region and stack lie is `memory_map` of rv_table, and the number of each request its `Request::number`.
//!
//! - `registers`: the registers by their roles, and those that are saved by who is called.
//! - `values`: where the values of a call, a return, a cut or a yield travel.
//! - `laws`: what is proved of the definitions.
#![tactic(auto)]

pub mod laws;
pub mod registers;
pub mod values;
