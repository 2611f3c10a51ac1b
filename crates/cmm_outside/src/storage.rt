//! Files by name, with the loops that read and write a whole file.

ghost use Rattle.std.specs.Prelude.{◌≡◌, ℕ, ◌+◌, ◌<◌, ◌≤◌, ◌++◌, [], List, Option, Some, None, Ok, length, take, IfOk, OnOk, OnErr, IsErrOf};
ghost use Rattle.cmm_outside.specs.Faults.{Rose};
ghost use Rattle.cmm_outside.specs.Reads.{IsReadFor, Made, MadeOne, MadeOrNot, ReadCall};
ghost use Rattle.cmm_outside.specs.Storage.{Contents, FailedCall, HasFile, MatchFailed, ReadsAt, StopsWriting, Writes, bytes_of};

use crate::Failed;
use std::alloc::{AllocError, Global};
use thiserror::Error;

/// The longest name of a file, in bytes.
pub const NAME_LIMIT: usize = 4095;

/// How many bytes `read_file` asks for at a time.
const PIECE: usize = 4096;

/// What a call of `Files` does.
#[derive(Clone, Copy)]
pub enum CallKind {
    Read,
    Create,
    Append,
}

/// Files by name. Each call asks for a name of at most `NAME_LIMIT` bytes.
pub trait Files {
    /// What the files hold, where the object tells it.
    ghost contents: { Self → Option Contents };

    /// How many calls have failed.
    ghost faults: { Self → ℕ };

    /// The last call that failed.
    ghost last_failed: { Self → Option FailedCall };

    /// The reads so far, where the object tells them.
    ghost reads: { Self → Option (List ReadCall) } = { λ _. None };

    /// Reads bytes of a file from the offset `from` on into the front of `buffer`, and answers how many:
    /// none only where the file has no byte from there on. It fails where there is no such file.
    fn read_at(&mut self, name: &str, from: u64, buffer: &mut [u8]) -> Result<usize, Failed>
        requires { length name.now ≤ NAME_LIMIT }
        ensures bound { IfOk result (λ n. n ≤ length buffer.old) }
        ensures read { IfOk result (λ n. ReadsAt (contents self.old) name.now from (length buffer.old) buffer.new n) }

        // It changes no file.
        ensures same { contents self.new ≡ contents self.old }

        // It is told as it was asked for, with what came of it. One that fails need not be told.
        ensures told { IfOk result (λ n. 0 < length buffer.old →
            MadeOne (reads self.old) (reads self.new) (record { name = name.now; from = from; room = length buffer.old; came = Some n })) }
        ensures told_failed { OnErr result (MadeOrNot (reads self.old) (reads self.new) (record { name = name.now; from = from; room = length buffer.old; came = None })) }

        // It fails only where the count of faults rises, and that rises only where it fails.
        ensures no_fault { OnOk result (faults self.new ≡ faults self.old) }
        ensures no_failed_call { OnOk result (last_failed self.new ≡ last_failed self.old) }
        ensures fault { OnErr result (Rose (faults self.old) (faults self.new)) }
        ensures failed_call { OnErr result (last_failed self.new ≡ Some (record { kind = CallKind.Read; name = name.now })) }

        // An empty buffer does nothing.
        ensures nothing { length buffer.old ≡ 0 → (result ≡ Ok 0) × (self.new ≡ self.old) };

    /// Makes a file of that name that is empty, also where there was one.
    fn create(&mut self, name: &str) -> Result<(), Failed>
        requires { length name.now ≤ NAME_LIMIT }
        ensures created { OnOk result (Writes (contents self.old) (contents self.new) name.now (λ _. [])) }
        ensures err { OnErr result (contents self.new ≡ contents self.old) }
        ensures same_reads { reads self.new ≡ reads self.old }

        ensures no_fault { OnOk result (faults self.new ≡ faults self.old) }
        ensures no_failed_call { OnOk result (last_failed self.new ≡ last_failed self.old) }
        ensures fault { OnErr result (Rose (faults self.old) (faults self.new)) }
        ensures failed_call { OnErr result (last_failed self.new ≡ Some (record { kind = CallKind.Create; name = name.now })) };

    /// Writes a front of the bytes at a file's end, and answers how many. Taking none of a piece that is
    /// not empty is a failure. A file that is not there is made.
    fn append(&mut self, name: &str, bytes: &[u8]) -> Result<usize, Failed>
        requires { length name.now ≤ NAME_LIMIT }
        ensures bound { IfOk result (λ n. n ≤ length bytes.now) }
        ensures progress { IfOk result (λ n. 0 < length bytes.now → 0 < n) }
        ensures appended { IfOk result (λ n. 0 < n →
            Writes (contents self.old) (contents self.new) name.now (λ file. bytes_of file ++ take n bytes.now)) }
        ensures err { OnErr result (contents self.new ≡ contents self.old) }
        ensures same_reads { reads self.new ≡ reads self.old }

        ensures no_fault { OnOk result (faults self.new ≡ faults self.old) }
        ensures no_failed_call { OnOk result (last_failed self.new ≡ last_failed self.old) }
        ensures fault { OnErr result (Rose (faults self.old) (faults self.new)) }
        ensures failed_call { OnErr result (last_failed self.new ≡ Some (record { kind = CallKind.Append; name = name.now })) }

        // An empty piece does nothing.
        ensures nothing { length bytes.now ≡ 0 → (result ≡ Ok 0) × (self.new ≡ self.old) };
}

/// Why a file was not read.
#[derive(Clone, Copy, Debug, PartialEq, Eq, Error)]
pub enum FileError {
    /// A call failed.
    #[error("the file cannot be read")]
    Failed,

    /// The file has more bytes than the limit.
    #[error("the file is too long")]
    TooLong,

    /// There is no memory for the bytes.
    #[error("out of memory")]
    Memory,
}

impl From<Failed> for FileError {
    ghost use Rattle.std.specs.Prelude.{◌≡◌};
    ghost use Rattle.cmm_outside.specs.declared.storage.FileError.TheVariants.{Failed};

    ghost from_gives = { λ _ error. error ≡ Failed };

    fn from(_failed: Failed) -> FileError {
        FileError::Failed
    }
}

impl From<AllocError> for FileError {
    ghost use Rattle.std.specs.Prelude.{◌≡◌};
    ghost use Rattle.cmm_outside.specs.declared.storage.FileError.TheVariants.{Memory};

    ghost from_gives = { λ _ error. error ≡ Memory };

    fn from(_error: AllocError) -> FileError {
        FileError::Memory
    }
}

/// The bytes of a file, read from its first byte on to its end, each piece where the one before it ended, or to
/// the byte behind `limit`. A limit may be any number: past what memory can hold, memory ends first.
pub fn read_file<F: Files>(
    alloc: Global,
    files: &mut F,
    name: &str,
    limit: u64,
) -> Result<Vec<u8>, FileError>
    requires { length name.now ≤ NAME_LIMIT }
    ensures ok { IfOk result (λ bytes. HasFile (F.contents files.old) name.now (λ file. bytes.items ≡ file)) }
    ensures within { IfOk result (λ bytes. length bytes.items ≤ limit) }
    ensures too_long { IsErrOf result FileError.TooLong → HasFile (F.contents files.old) name.now (λ file. limit < length file) }
    ensures same { F.contents files.new ≡ F.contents files.old }
    ensures reads { Made (F.reads files.old) (F.reads files.new) (IsReadFor name.now limit result) }

    // It answers Failed only where a read of this file fails, at the first that does.
    ensures fault { MatchFailed result (Rose (F.faults files.old) (F.faults files.new)) (F.faults files.new ≡ F.faults files.old) }
    ensures failed_call { MatchFailed result
        (F.last_failed files.new ≡ Some (record { kind = CallKind.Read; name = name.now }))
        (F.last_failed files.new ≡ F.last_failed files.old) }
{
    let mut bytes = Vec::new(alloc);
    let mut piece = [0; PIECE];
    loop {
        let left = limit - bytes.len() as u64;
        let asked = left.saturating_add(1).min(PIECE as u64) as usize;
        let count = files.read_at(name, bytes.len() as u64, &mut piece[..asked])?;
        if count == 0 {
            return Ok(bytes);
        }
        if count as u64 > left {
            return Err(FileError::TooLong);
        }
        bytes.extend_from_slice(&piece[..count])?;
    }
}

/// Makes a file of just these bytes, also where there was one. It fails only where a call fails, at the
/// first that does: nothing has changed then, or the file holds a front of the bytes.
pub fn write_file<F: Files>(files: &mut F, name: &str, bytes: &[u8]) -> Result<(), Failed>
    requires { length name.now ≤ NAME_LIMIT }
    ensures ok { OnOk result (Writes (F.contents files.old) (F.contents files.new) name.now (λ _. bytes.now)) }
    ensures err { OnErr result (StopsWriting (F.contents files.old) (F.contents files.new) (F.last_failed files.new) name.now bytes.now) }
    ensures same_reads { F.reads files.new ≡ F.reads files.old }

    // It fails only where the count of faults rises, and that rises only where it fails.
    ensures no_fault { OnOk result (F.faults files.new ≡ F.faults files.old) }
    ensures no_failed_call { OnOk result (F.last_failed files.new ≡ F.last_failed files.old) }
    ensures fault { OnErr result (Rose (F.faults files.old) (F.faults files.new)) }
{
    files.create(name)?;
    let mut written = 0;
    while written < bytes.len() {
        written += files.append(name, &bytes[written..])?;
    }
    Ok(())
}
