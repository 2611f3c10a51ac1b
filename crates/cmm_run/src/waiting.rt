//! Output that waits to be written.
ghost use Rattle.std.specs.Prelude.{◌≡◌, ◌<◌, ◌++◌, [], ◌∷◌, length, IfOk, OnErr, OnOk};
ghost use Rattle.cmm_outside.specs.Faults.{Rose};
ghost use Rattle.cmm_outside.specs.Output.{AppendsFront, WritesAll};
ghost use Rattle.cmm_run.specs.inside.Waits.{Closes, Moves};

use crate::outcome::Outcome;
use cmm_outside::{Failed, Sink, write_all};
use std::alloc::{AllocError, Global};
use std::marker::Model;

/// How many bytes wait at most.
pub const ROOM: usize = 4096;

/// Bytes that a program has put and that are not written yet. They are written together, before anything else is read or written and
/// before the run ends, so that a reader sees the same order. Contracts see these bytes.
pub struct Waiting {
    bytes: Vec<u8>,
}

/// In one place, so that whoever lets one go has one call to prove.
impl Drop for Waiting {
    fn drop(self) {
        let Self { bytes: _ } = self;
    }
}

impl Model for Waiting {
    ghost use Rattle.std.specs.Prelude.{ℕ, ◌≤◌, List, vec_len, vec_capacity};
    ghost use Rattle.cmm_run.specs.declared.waiting.TheConstants.{ROOM};

    ghost Value = { List ℕ };

    ghost view = { λ w. w.bytes.items };

    ghost invariant = { λ w. (vec_len w.bytes ≤ ROOM) × (ROOM ≤ vec_capacity w.bytes) };
}

impl Waiting {
    /// Nothing waits. It takes the memory for all that may.
    pub fn new(alloc: Global) -> Result<Waiting, AllocError>
        ensures { IfOk result (λ w. w ≡ []) }
    {
        Ok(Waiting {
            bytes: Vec::with_capacity(alloc, ROOM)?,
        })
    }

    /// Puts a byte behind those that wait. Where there is no room for it, these are written first.
    pub fn put<O: Sink>(&mut self, byte: u8, out: &mut O) -> Result<(), Failed>
        ensures ok { OnOk result (Moves (O.taken out.old) (O.taken out.new) (self.old ++ byte ∷ []) self.new) }
        ensures err { OnErr result (AppendsFront (O.taken out.old) (O.taken out.new) self.old) }
        ensures no_fault { OnOk result (O.faults out.new ≡ O.faults out.old) }
        ensures fault { OnErr result (Rose (O.faults out.old) (O.faults out.new)) }
    {
        if self.bytes.len() < ROOM {
            self.push(byte);
            return Ok(());
        }
        self.flush(out)?;
        self.push(byte);
        Ok(())
    }

    /// Puts a byte behind those that wait, where there is room for it.
    fn push(&mut self, byte: u8)
        requires { length self.old < ROOM }
        ensures { self.new ≡ self.old ++ byte ∷ [] }
    {
        self.bytes.push(byte).unwrap();
    }

    /// Writes all that waits. Where that fails, the sink has taken a front, and nothing waits any more.
    pub fn flush<O: Sink>(&mut self, out: &mut O) -> Result<(), Failed>
        ensures writes { WritesAll O.taken O.faults out.old out.new self.old result }
        ensures empty { self.new ≡ [] }
    {
        let result = write_all(out, &self.bytes);
        self.bytes.clear();
        result
    }

    /// Writes all that waits before the run ends with this outcome, unless that fails.
    pub fn close<O: Sink>(&mut self, outcome: Outcome, out: &mut O) -> Outcome
        ensures { Closes O.taken O.faults out.old out.new self.old outcome result }
    {
        match self.flush(out) {
            Ok(()) => outcome,
            Err(Failed) => Outcome::OutputFault,
        }
    }
}
