//! Snapshots: what is kept of a stopped program beside its image, to walk its stack later.
//!
//! A snapshot has the header of the image that was run, the registers, and the bytes of data and of the region of argument area, global
//! registers and stack. This layer promises that bytes are read exactly where they spell a snapshot of a run of this image, that the first
//! field that breaks a rule is named of any other bytes, and that registers and a memory are written as they are read again.
//!
//! - `reading`, `halted`, `fault`: `read_snapshot`, the registers and the memory that it gives, and why there are none.
//! - `writing`: `write_snapshot`.
//! - `laws`: what bytes are, a snapshot or a first fault, and what a snapshot keeps of a machine's state.
//!
//! The format is one table, `specs/SnapshotFormat`, a line a field, over the kinds of field of `cmm_format`; `specs/Snapshots` says which bytes
//! are a snapshot and which field is named of others.
#![tactic(auto)]

mod fault;
mod halted;
pub mod laws;
mod reading;
mod writing;

pub use fault::SnapshotFault;
pub use halted::Halted;
pub use reading::{SNAPSHOT_LIMIT, read_snapshot};
pub use writing::write_snapshot;
