//! Sources over memory: one that never fails, and one that fails at listed calls.

ghost use Rattle.std.specs.Prelude.{◌≡◌, ◌↔◌, ℕ, ◌<◌, ◌≤◌, List, Some, Ok, length, min, is_err, IsOk, IsErr, IfOk, OnOk, OnErr};
ghost use Rattle.cmm_outside.specs.Faults.{Rose};
ghost use Rattle.cmm_outside.specs.Input.{Reads};

use crate::failing_calls::FailingCalls;
use crate::{Failed, Source};
use std::marker::Model;

/// A source that never fails. Clauses see it as the bytes that are left.
#[derive(Drop)]
pub struct SureSource {
    bytes: Vec<u8>,
    taken: usize,
}

impl Model for SureSource {
    ghost use Rattle.std.specs.Prelude.{ℕ, ◌≤◌, List, drop, vec_len};

    ghost Value = { List ℕ };

    ghost view = { λ s. drop s.taken s.bytes.items };

    ghost invariant = { λ s. s.taken ≤ vec_len s.bytes };
}

impl SureSource {
    /// A source of these bytes.
    pub fn new(bytes: Vec<u8>) -> Self
        ensures { result ≡ bytes.items }
    {
        SureSource { bytes, taken: 0 }
    }

    /// The bytes that are left.
    pub fn left(&self) -> &[u8]
        ensures { result.now ≡ self.now }
    {
        &self.bytes[self.taken..]
    }
}

impl Source for SureSource {
    ghost left = { λ s. Some s };

    ghost faults = { λ _. 0 };

    fn read(&mut self, buffer: &mut [u8]) -> Result<usize, Failed>
        ensures sure { IsOk result }
        ensures all { IfOk result (λ n. n ≡ min (length buffer.old) (length self.old)) }
        ensures read { IfOk result (λ n. Reads (Some self.old) (Some self.new) (length buffer.old) buffer.new n) }

        // An empty buffer does nothing.
        ensures nothing { length buffer.old ≡ 0 → (result ≡ Ok 0) × (self.new ≡ self.old) }
    {
        let left = &self.bytes[self.taken..];
        let count = buffer.len().min(left.len());
        buffer[..count].copy_from_slice(&left[..count]);
        self.taken += count;
        Ok(count)
    }
}

/// A source whose listed calls fail, counted from 0. A call with an empty buffer is not counted.
#[derive(Drop)]
pub struct MemSource {
    bytes: SureSource,
    calls: FailingCalls,
}

impl Model for MemSource {
    ghost use Rattle.cmm_outside.specs.MemorySource.{InputState};

    ghost Value = { InputState };

    ghost view = { λ s. record { left = s.bytes; calls = s.calls } };
}

impl MemSource {
    ghost use Rattle.cmm_outside.specs.FailingCalls.{no_calls};

    /// A source of these bytes. The list of the calls that are to fail may be in any order.
    pub fn new(bytes: Vec<u8>, failing: Vec<u64>) -> Self
        ensures { result ≡ record { left = bytes.items; calls = no_calls failing.items } }
    {
        MemSource {
            bytes: SureSource::new(bytes),
            calls: FailingCalls::new(failing),
        }
    }

    /// The bytes that are left.
    pub fn left(&self) -> &[u8]
        ensures { result.now ≡ self.now.left }
    {
        self.bytes.left()
    }
}

impl Source for MemSource {
    ghost use Rattle.cmm_outside.specs.FailingCalls.{IsNextListed, after_call};

    ghost left = { λ s. Some s.left };

    ghost faults = { λ s. s.calls.faults };

    fn read(&mut self, buffer: &mut [u8]) -> Result<usize, Failed>
        // It fails exactly at the listed calls.
        ensures fails { IsErr result ↔ ((0 < length buffer.old) × IsNextListed self.old.calls) }
        ensures counted { 0 < length buffer.old → self.new.calls ≡ after_call self.old.calls (is_err result) }

        ensures all { IfOk result (λ n. n ≡ min (length buffer.old) (length self.old.left)) }
        ensures read { IfOk result (λ n. Reads (Some self.old.left) (Some self.new.left) (length buffer.old) buffer.new n) }
        ensures err { OnErr result (self.new.left ≡ self.old.left) }

        ensures no_fault { OnOk result (self.new.calls.faults ≡ self.old.calls.faults) }
        ensures fault { OnErr result (Rose self.old.calls.faults self.new.calls.faults) }

        // An empty buffer does nothing.
        ensures nothing { length buffer.old ≡ 0 → (result ≡ Ok 0) × (self.new ≡ self.old) }
    {
        if buffer.is_empty() {
            return Ok(0);
        }
        self.calls.make_call(true)?;
        self.bytes.read(buffer)
    }
}
