//! Standard input, a standard output and the file system. None tells what it holds for good: no clause can
//! say what lies outside the process. Where the reader or writer below one tells its bytes, as a slice or a
//! cursor does, the clauses of `read` and `write` say what becomes of these.

ghost use Rattle.std.specs.Prelude.{◌≡◌, ◌<◌, ◌≤◌, None, Ok, Some, length, IfOk, OnErr, OnOk};
ghost use Rattle.std.specs.Io.KnownBytes.{ReadConsumes, WriteAppends};
ghost use Rattle.cmm_outside.specs.Faults.{Rose};

use crate::fault_count::FaultCount;
use crate::named_call::NamedCall;
use crate::storage::NAME_LIMIT;
use crate::{CallKind, Failed, Files, Sink, Source};
use std::fs::{self, OpenOptions};
use std::io::{self, ErrorKind, Read, Seek, SeekFrom, Write};

/// A source over a reader, as standard input. Each call is one read, and what is not asked for stays in
/// the reader.
#[derive(Drop)]
pub struct StdSource<R> {
    reader: R,
    faults: FaultCount,
}

impl<R: Read> StdSource<R> {
    ghost use Rattle.cmm_outside.specs.Standard.{reader_of};

    /// A source that has not failed.
    pub fn new(reader: R) -> Self
        ensures no_fault { ⟦<StdSource<R> as Source>⟧.faults result ≡ 0 }
        ensures reader { reader_of result ≡ reader }
    {
        StdSource {
            reader,
            faults: FaultCount::new(),
        }
    }
}

impl<R: Read> Source for StdSource<R> {
    ghost use Rattle.cmm_outside.specs.Standard.{reader_of};

    ghost left = { λ _. None };

    ghost faults = { λ s. s.faults };

    fn read(&mut self, buffer: &mut [u8]) -> Result<usize, Failed>
        ensures bound { IfOk result (λ n. n ≤ length buffer.old) }

        // Of bytes that the reader tells, it gives the next, loses none, and answers 0 only at their end.
        ensures read { ReadConsumes (R.remaining (reader_of self.old)) (R.remaining (reader_of self.new)) result buffer.new }

        ensures no_fault { OnOk result (self.new.faults ≡ self.old.faults) }
        ensures fault { OnErr result (Rose self.old.faults self.new.faults) }

        // An empty buffer does nothing.
        ensures nothing { length buffer.old ≡ 0 → (result ≡ Ok 0) × (self.new ≡ self.old) }
    {
        if buffer.is_empty() {
            return Ok(0);
        }
        match self.reader.read(buffer) {
            Ok(count) => Ok(count),
            Err(_) => Err(self.faults.rise()),
        }
    }
}

/// A sink over a writer, as standard output or standard error. Each call is one write, so nothing that a
/// stream without a buffer has taken is lost at exit.
#[derive(Drop)]
pub struct StdSink<W> {
    writer: W,
    faults: FaultCount,
}

impl<W: Write> StdSink<W> {
    ghost use Rattle.cmm_outside.specs.Standard.{writer_of};

    /// A sink that has not failed.
    pub fn new(writer: W) -> Self
        ensures no_fault { ⟦<StdSink<W> as Sink>⟧.faults result ≡ 0 }
        ensures writer { writer_of result ≡ writer }
    {
        StdSink {
            writer,
            faults: FaultCount::new(),
        }
    }
}

impl<W: Write> Sink for StdSink<W> {
    ghost use Rattle.cmm_outside.specs.Standard.{writer_of};

    ghost taken = { λ _. None };

    ghost faults = { λ s. s.faults };

    fn write(&mut self, bytes: &[u8]) -> Result<usize, Failed>
        ensures bound { IfOk result (λ n. n ≤ length bytes.now) }
        ensures progress { IfOk result (λ n. 0 < length bytes.now → 0 < n) }

        // Where the writer tells its bytes, they are as many more as it answers.
        ensures taken { WriteAppends (W.contents (writer_of self.old)) (W.contents (writer_of self.new)) result bytes.now }

        ensures no_fault { OnOk result (self.new.faults ≡ self.old.faults) }
        ensures fault { OnErr result (Rose self.old.faults self.new.faults) }

        // An empty piece does nothing.
        ensures nothing { length bytes.now ≡ 0 → (result ≡ Ok 0) × (self.new ≡ self.old) }
    {
        if bytes.is_empty() {
            return Ok(0);
        }
        match self.writer.write(bytes) {
            Ok(count) if count > 0 => Ok(count),
            _ => Err(self.faults.rise()),
        }
    }
}

/// A file that cannot be read at an offset, as a pipe. It stays open, and is read once, in order.
#[derive(Drop)]
struct Stream<F> {
    opened: NamedCall,
    file: F,

    /// How many bytes it has given.
    position: u64,
}

impl<F: Read> Stream<F> {
    /// Whether the bytes of this file from this offset on are those that it gives next.
    fn gives(&self, name: &str, from: u64) -> bool {
        self.position == from && self.opened.is_of(name)
    }

    fn read(&mut self, buffer: &mut [u8]) -> io::Result<usize>
        ensures { IfOk result (λ n. n ≤ length buffer.old) }
    {
        let count = self.file.read(buffer)?;
        self.position = self.position.saturating_add(count as u64);
        Ok(count)
    }
}

/// The files of a file system. Each call opens its file anew, but where that cannot be read at an offset:
/// then it stays open as long as reads go on where the last one ended.
#[derive(Drop)]
pub struct StdFiles<R: fs::Files> {
    system: R,
    stream: Option<Stream<R::File>>,
    faults: FaultCount,
    last_failed: Option<NamedCall>,
}

impl<R: fs::Files> StdFiles<R> {
    /// Files of which no call has failed.
    pub fn new(system: R) -> Self
        ensures no_fault { ⟦<StdFiles<R> as Files>⟧.faults result ≡ 0 }
        ensures no_failed_call { ⟦<StdFiles<R> as Files>⟧.last_failed result ≡ None }
    {
        StdFiles {
            system,
            stream: None,
            faults: FaultCount::new(),
            last_failed: None,
        }
    }

    /// One read of a file, from an offset on. Of a file that has no offsets, the first is at its front.
    fn try_read_at(&mut self, name: &str, from: u64, buffer: &mut [u8]) -> io::Result<usize>
        requires { length name.now ≤ NAME_LIMIT }
        ensures bound { IfOk result (λ n. n ≤ length buffer.old) }
        ensures same { (self.new.faults ≡ self.old.faults) × (self.new.last_failed ≡ self.old.last_failed) }
    {
        match &mut self.stream {
            Some(stream) if stream.gives(name, from) => return stream.read(buffer),
            _ => {}
        }
        let mut file = fs::open(&self.system, name)?;
        match file.seek(SeekFrom::Start(from)) {
            Ok(_) => file.read(buffer),
            Err(error) if from == 0 && error.kind() == ErrorKind::NotSeekable => {
                let opened = NamedCall::new(CallKind::Read, name);
                let position = 0;
                self.stream
                    .insert(Stream {
                        opened,
                        file,
                        position,
                    })
                    .read(buffer)
            }
            Err(error) => Err(error),
        }
    }

    /// One write at a file's end.
    fn try_append(&self, name: &str, bytes: &[u8]) -> io::Result<usize>
        ensures { IfOk result (λ n. n ≤ length bytes.now) }
    {
        OpenOptions::new()
            .append(true)
            .create(true)
            .open(&self.system, name)?
            .write(bytes)
    }

    /// Counts and keeps a call that has failed, and gives its answer.
    fn fail(&mut self, kind: CallKind, name: &str) -> Failed
        requires { length name.now ≤ NAME_LIMIT }
        ensures fault { Rose (⟦<StdFiles<R> as Files>⟧.faults self.old) (⟦<StdFiles<R> as Files>⟧.faults self.new) }
        ensures failed_call { ⟦<StdFiles<R> as Files>⟧.last_failed self.new ≡ Some (record { kind = kind; name = name.now }) }
    {
        self.last_failed = Some(NamedCall::new(kind, name));
        self.faults.rise()
    }
}

impl<R: fs::Files> Files for StdFiles<R> {
    ghost contents = { λ _. None };

    ghost faults = { λ f. f.faults };

    ghost last_failed = { λ f. f.last_failed };

    fn read_at(&mut self, name: &str, from: u64, buffer: &mut [u8]) -> Result<usize, Failed> {
        if buffer.is_empty() {
            return Ok(0);
        }
        match self.try_read_at(name, from, buffer) {
            Ok(count) => Ok(count),
            Err(_) => Err(self.fail(CallKind::Read, name)),
        }
    }

    fn create(&mut self, name: &str) -> Result<(), Failed> {
        match fs::create(&self.system, name) {
            Ok(_) => Ok(()),
            Err(_) => Err(self.fail(CallKind::Create, name)),
        }
    }

    fn append(&mut self, name: &str, bytes: &[u8]) -> Result<usize, Failed> {
        if bytes.is_empty() {
            return Ok(0);
        }
        match self.try_append(name, bytes) {
            Ok(count) if count > 0 => Ok(count),
            _ => Err(self.fail(CallKind::Append, name)),
        }
    }
}
