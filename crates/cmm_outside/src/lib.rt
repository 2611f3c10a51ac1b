//! What lies outside the compiler: input, output and files.
//!
//! A program that is proved to read and write the right bytes says so of objects that can tell what they
//! hold. So each trait here has ghost members: the contents, where the object tells them, and a count of
//! faults. A call fails only where the count rises in it, so code that is generic over a trait cannot
//! answer a fault that the object did not have.
//!
//! - `input`, `output`, `storage`: the traits `Source`, `Sink` and `Files`, with the loops over them,
//!   `write_all`, `read_file` and `write_file`.
//! - `memory_source`, `memory_sink`, `memory_files`: the same over memory, for tests. Their clauses say
//!   exactly which calls fail: those that are listed, and those for which there is no room or no file.
//! - `recorded_files`: files that tell the reads that are made of them, for tests of the order in which files are read.
//! - `fixed_sink`: a sink over lent bytes, for callers that have no memory to spare.
//! - `standard`: the same over standard input, a standard output and the file system.
#![tactic(auto)]

mod failing_calls;
mod fault_count;
pub mod fixed_sink;
pub mod input;
pub mod memory_files;
pub mod memory_sink;
pub mod memory_source;
mod named_call;
pub mod output;
mod place;
pub mod recorded_files;
pub mod standard;
pub mod storage;

pub use fixed_sink::FixedSink;
pub use input::Source;
pub use memory_files::MemFiles;
pub use memory_sink::MemSink;
pub use memory_source::{MemSource, SureSource};
pub use output::{Sink, write_all};
pub use recorded_files::{RecordedFiles, RecordedRead};
pub use standard::{StdFiles, StdSink, StdSource};
pub use storage::{CallKind, FileError, Files, read_file, write_file};

/// A call on something outside has failed. What failed is the object's to know.
#[derive(Clone, Copy, Debug)]
pub struct Failed;
