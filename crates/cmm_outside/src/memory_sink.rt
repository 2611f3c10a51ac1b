//! A sink over memory, which fails at listed calls and where its room is full.

ghost use Rattle.std.specs.Prelude.{◌≡◌, ◌↔◌, ◌⊎◌, ◌<◌, ◌≤◌, ◌-◌, ◌++◌, [], Some, Ok, length, take, min, is_err, IsErr, IfOk, OnOk, OnErr};
ghost use Rattle.cmm_outside.specs.Faults.{Rose};

use crate::failing_calls::FailingCalls;
use crate::{Failed, Sink};
use std::alloc::{AllocError, Global};
use std::marker::Model;

/// A sink whose listed calls fail, counted from 0, as does each call that finds its room full. A call with
/// an empty piece is not counted. Its calls take no memory.
#[derive(Drop)]
pub struct MemSink {
    bytes: Vec<u8>,
    room: usize,
    calls: FailingCalls,
}

impl Model for MemSink {
    ghost use Rattle.std.specs.Prelude.{◌≤◌, vec_len, vec_capacity};
    ghost use Rattle.cmm_outside.specs.MemorySink.{OutputState};

    ghost Value = { OutputState };

    ghost view = { λ s. record { taken = s.bytes.items; room = s.room; calls = s.calls } };

    ghost invariant = { λ s. (vec_len s.bytes ≤ s.room) × (s.room ≤ vec_capacity s.bytes) };
}

impl MemSink {
    ghost use Rattle.cmm_outside.specs.FailingCalls.{no_calls};

    /// A sink with room for `room` bytes. The list of the calls that are to fail may be in any order.
    pub fn new(alloc: Global, room: u64, failing: Vec<u64>) -> Result<Self, AllocError>
        ensures { IfOk result (λ sink. sink ≡ record { taken = []; room = room; calls = no_calls failing.items }) }
    {
        let room = room as usize;
        Ok(MemSink {
            bytes: Vec::with_capacity(alloc, room)?,
            room,
            calls: FailingCalls::new(failing),
        })
    }

    /// The bytes taken so far.
    pub fn bytes(&self) -> &[u8]
        ensures { result.now ≡ self.now.taken }
    {
        &self.bytes
    }
}

impl Sink for MemSink {
    ghost use Rattle.cmm_outside.specs.FailingCalls.{IsNextListed, after_call};
    ghost use Rattle.cmm_outside.specs.MemorySink.{IsFull};

    ghost taken = { λ s. Some s.taken };

    ghost faults = { λ s. s.calls.faults };

    fn write(&mut self, bytes: &[u8]) -> Result<usize, Failed>
        // It fails exactly at the listed calls and where the room is full.
        ensures fails { IsErr result ↔ ((0 < length bytes.now) × (IsNextListed self.old.calls ⊎ IsFull self.old)) }
        ensures counted { 0 < length bytes.now → self.new.calls ≡ after_call self.old.calls (is_err result) }

        ensures all { IfOk result (λ n. n ≡ min (length bytes.now) (self.old.room - length self.old.taken)) }
        ensures progress { IfOk result (λ n. 0 < length bytes.now → 0 < n) }
        ensures taken { IfOk result (λ n. self.new.taken ≡ self.old.taken ++ take n bytes.now) }
        ensures same_room { self.new.room ≡ self.old.room }
        ensures err { OnErr result (self.new.taken ≡ self.old.taken) }

        ensures no_fault { OnOk result (self.new.calls.faults ≡ self.old.calls.faults) }
        ensures fault { OnErr result (Rose self.old.calls.faults self.new.calls.faults) }

        // An empty piece does nothing.
        ensures nothing { length bytes.now ≡ 0 → (result ≡ Ok 0) × (self.new ≡ self.old) }
    {
        if bytes.is_empty() {
            return Ok(0);
        }
        let left = self.room - self.bytes.len();
        self.calls.make_call(left > 0)?;
        let count = bytes.len().min(left);
        self.bytes.extend_from_slice(&bytes[..count]).unwrap();
        Ok(count)
    }
}
