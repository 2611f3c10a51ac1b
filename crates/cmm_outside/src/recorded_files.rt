//! Files that tell the reads that are made of them.

ghost use Rattle.std.specs.Prelude.{◌≡◌, ◌≤◌, ◌++◌, ◌∷◌, [], Some, length, map, OnErr, OnOk};
ghost use Rattle.cmm_outside.specs.Faults.{Rose};
ghost use Rattle.cmm_outside.specs.RecordedFiles.{call_of};

use crate::fault_count::FaultCount;
use crate::named_call::NamedCall;
use crate::storage::NAME_LIMIT;
use crate::{CallKind, Failed, Files};
use std::alloc::{AllocError, Global};

/// A read that was made: of which file, from which byte on, how many bytes it asked for, and how many came.
#[derive(Drop)]
pub struct RecordedRead {
    pub name: Vec<u8>,
    pub from: u64,
    pub room: usize,
    pub came: usize,
}

/// Files that tell the reads that are made of them, but for those that fail. A read fails as well where there is no memory to
/// tell it.
#[derive(Drop)]
pub struct RecordedFiles<F> {
    alloc: Global,
    files: F,
    told: Vec<RecordedRead>,
    faults: FaultCount,
    last_failed: Option<NamedCall>,
}

impl<F: Files> RecordedFiles<F> {
    /// These files, of which no read is told yet.
    pub fn new(alloc: Global, files: F) -> Self
        ensures { result.told.items ≡ [] }
    {
        RecordedFiles {
            alloc,
            files,
            told: Vec::new(alloc),
            faults: FaultCount::new(),
            last_failed: None,
        }
    }

    /// The reads that were made, in their order.
    pub fn told(&self) -> &[RecordedRead]
        ensures { result.now ≡ self.now.told.items }
    {
        self.told.as_slice()
    }

    /// Tells a read that was made.
    fn tell(&mut self, name: &str, from: u64, room: usize, came: usize) -> Result<(), AllocError>
        ensures files { self.new.files ≡ self.old.files }
        ensures faults { self.new.faults ≡ self.old.faults }
        ensures last_failed { self.new.last_failed ≡ self.old.last_failed }
        ensures ok { OnOk result (map call_of self.new.told.items ≡ map call_of self.old.told.items ++ record { name = name.now; from = from; room = room; came = Some came } ∷ []) }
        ensures err { OnErr result (self.new.told.items ≡ self.old.told.items) }
    {
        let mut kept = Vec::new(self.alloc);
        kept.extend_from_slice(name.as_bytes())?;
        self.told.push(RecordedRead {
            name: kept,
            from,
            room,
            came,
        })?;
        Ok(())
    }

    /// Notes a call that failed.
    fn fail(&mut self, kind: CallKind, name: &str) -> Failed
        requires { length name.now ≤ NAME_LIMIT }
        ensures files { self.new.files ≡ self.old.files }
        ensures told { self.new.told.items ≡ self.old.told.items }
        ensures rose { Rose self.old.faults self.new.faults }
        ensures failed { self.new.last_failed ≡ Some (record { kind = kind; name = name.now }) }
    {
        self.last_failed = Some(NamedCall::new(kind, name));
        self.faults.rise()
    }
}

impl<F: Files> Files for RecordedFiles<F> {
    ghost use Rattle.std.specs.Prelude.{Some, map};
    ghost use Rattle.cmm_outside.specs.RecordedFiles.{call_of};

    ghost contents = { λ f. F.contents f.files };

    ghost faults = { λ f. f.faults };

    ghost last_failed = { λ f. f.last_failed };

    ghost reads = { λ f. Some (map call_of f.told.items) };

    fn read_at(&mut self, name: &str, from: u64, buffer: &mut [u8]) -> Result<usize, Failed> {
        if buffer.is_empty() {
            return Ok(0);
        }
        let Ok(came) = self.files.read_at(name, from, buffer) else {
            return Err(self.fail(CallKind::Read, name));
        };
        match self.tell(name, from, buffer.len(), came) {
            Ok(()) => Ok(came),
            Err(AllocError) => Err(self.fail(CallKind::Read, name)),
        }
    }

    fn create(&mut self, name: &str) -> Result<(), Failed> {
        match self.files.create(name) {
            Ok(()) => Ok(()),
            Err(Failed) => Err(self.fail(CallKind::Create, name)),
        }
    }

    fn append(&mut self, name: &str, bytes: &[u8]) -> Result<usize, Failed> {
        match self.files.append(name, bytes) {
            Ok(count) => Ok(count),
            Err(Failed) => Err(self.fail(CallKind::Append, name)),
        }
    }
}
