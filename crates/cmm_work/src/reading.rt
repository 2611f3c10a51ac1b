//! Files that are read.

ghost use Rattle.std.specs.Prelude.{◌≡◌, ◌≤◌, ◌∷◌, [], length, IfOk};
ghost use Rattle.cmm_outside.specs.declared.storage.TheConstants.{NAME_LIMIT};
ghost use Rattle.cmm_work.specs.Files.{HasBytes};
ghost use Rattle.cmm_work.specs.Reading.{IsFileOf, ReadsEach, ReadsOrFails};

use cmm_outside::{FileError, Files, read_file};
use std::alloc::{AllocError, AllocFailed, Global};
use thiserror::Error;

/// A file as it was read, up to one byte past the most that it may have.
#[derive(Drop)]
pub enum FileBytes {
    Whole(Vec<u8>),
    TooLong,
}

/// Why files were not read.
#[derive(Debug, Drop, Error)]
pub enum ReadFault<'a> {
    /// A read of the file of this name failed.
    #[error("no bytes of {0}")]
    Failed(&'a str),
    #[error("out of memory")]
    Memory,
}

impl From<AllocError> for ReadFault<'_> {
    ghost use Rattle.std.specs.Prelude.{◌≡◌};
    ghost use Rattle.cmm_work.specs.declared.reading.ReadFault.TheVariants.{Memory};

    ghost from_gives = { λ _ fault. fault ≡ Memory };

    fn from(_: AllocError) -> Self {
        ReadFault::Memory
    }
}

/// The bytes of a file, unless it has more than `limit`.
pub fn bytes_in<'a, F: Files>(
    alloc: Global,
    files: &mut F,
    name: &'a str,
    limit: u64,
) -> Result<FileBytes, ReadFault<'a>>
    requires { length name.now ≤ NAME_LIMIT }
    ensures ok { IfOk result (λ read. HasBytes (F.contents files.old) name.now (λ bytes. IsFileOf limit bytes read)) }
    ensures same { F.contents files.new ≡ F.contents files.old }
    ensures reads { ReadsEach (record { name = name.now; limit = limit } ∷ []) (F.reads files.old) (F.reads files.new) result }
    ensures fault { ReadsOrFails (name.now ∷ []) (F.faults files.old) (F.faults files.new) (F.last_failed files.old) (F.last_failed files.new) result }
{
    match read_file(alloc, files, name, limit) {
        Ok(bytes) => Ok(FileBytes::Whole(bytes)),
        Err(FileError::TooLong) => Ok(FileBytes::TooLong),
        Err(FileError::Failed) => Err(ReadFault::Failed(name)),
        Err(FileError::Memory) => Err(ReadFault::Memory),
    }
}
