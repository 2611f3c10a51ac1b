//! ELF files: the code and the data of an image as a file that the tools of RISC-V read.
//!
//! The file is an ELF64 executable with two segments to load, the code and the data, and no section. It has nothing of the tables of an image, so no
//! stack can be walked by it. This layer promises that an image is written as its code, its data and its start are read again, that bytes are read
//! exactly where they spell a file, and that the first field that breaks a rule is named of any other bytes.
//!
//! - `segments`: `Segments`, what is read. `kind`: the two kinds of segment. `fault`: why bytes are no such file.
//! - `reading`: `read_elf`. `fields`: the headers and the padding as they are read.
//! - `writing`: `write_elf`.
//! - `laws`: what bytes are, a file or a first fault.
//!
//! The format is one table, `specs/ElfFormat`, a line a field, over the kinds of field of `cmm_format`; its fields have the names of the ELF
//! specification. `specs/ElfFiles` says which bytes are a file and which field is named of others.
#![tactic(auto)]

mod fault;
mod fields;
mod kind;
pub mod laws;
mod reading;
mod segments;
mod writing;

pub use fault::ElfFault;
pub use reading::{ELF_LIMIT, read_elf};
pub use segments::Segments;
pub use writing::write_elf;
