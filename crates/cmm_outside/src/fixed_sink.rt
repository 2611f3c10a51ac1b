//! A sink over bytes that its maker lends, which fails only where they are all taken.

ghost use Rattle.std.specs.Prelude.{◌≡◌, ◌↔◌, ◌<◌, ◌≤◌, [], Some, Ok, length, take, min, IsErr, IfOk, OnOk, OnErr};
ghost use Rattle.cmm_outside.specs.Faults.{Rose, next_count};
ghost use Rattle.cmm_outside.specs.Output.{Appends};

use crate::fault_count::FaultCount;
use crate::{Failed, Sink};

/// A sink over a slice. It takes no memory.
#[derive(Drop)]
pub struct FixedSink<'a> {
    room: &'a mut [u8],
    taken: usize,
    faults: FaultCount,
    ghost within: { taken ≤ length room.now },
}

impl<'a> FixedSink<'a> {
    ghost use Rattle.cmm_outside.specs.FixedRoom.{bytes_of, left_in, room_of};

    /// A sink that has taken nothing yet, with room for as many bytes as the slice has.
    pub fn new(room: &'a mut [u8]) -> Self
        ensures taken { bytes_of result ≡ [] }
        ensures room { room_of result ≡ room.old }
        ensures left { left_in result ≡ length room.old }
        ensures no_fault { ⟦<FixedSink<'a> as Sink>⟧.faults result ≡ 0 }
        ensures same_reference { result.room.ghost_name ≡ room.entry.ghost_name }
    {
        FixedSink {
            room,
            taken: 0,
            faults: FaultCount::new(),
        }
    }

    /// How many bytes were taken. They stand at the front of the room.
    pub fn taken(&self) -> usize
        ensures count { result ≡ length (bytes_of self.now) }
        ensures front { take result (room_of self.now) ≡ bytes_of self.now }
    {
        self.taken
    }

    /// The bytes taken so far.
    pub fn bytes(&self) -> &[u8]
        ensures { result.now ≡ bytes_of self.now }
    {
        &self.room[..self.taken]
    }
}

impl Sink for FixedSink<'_> {
    ghost use Rattle.cmm_outside.specs.FixedRoom.{bytes_of, left_in, room_of};

    ghost taken = { λ s. Some (bytes_of s) };

    ghost faults = { λ s. s.faults };

    fn write(&mut self, bytes: &[u8]) -> Result<usize, Failed>
        // It fails exactly where the room is full.
        ensures fails { IsErr result ↔ ((0 < length bytes.now) × (left_in self.old ≡ 0)) }

        ensures all { IfOk result (λ n. n ≡ min (length bytes.now) (left_in self.old)) }
        ensures bound { IfOk result (λ n. n ≤ length bytes.now) }
        ensures progress { IfOk result (λ n. 0 < length bytes.now → 0 < n) }
        ensures taken { IfOk result (λ n. Appends (Some (bytes_of self.old)) (Some (bytes_of self.new)) (take n bytes.now)) }
        ensures err { OnErr result (Some (bytes_of self.new) ≡ Some (bytes_of self.old)) }
        ensures same_room { length (room_of self.new) ≡ length (room_of self.old) }
        ensures same_reference { self.new.room.ghost_name ≡ self.old.room.ghost_name }

        ensures no_fault { OnOk result (self.new.faults ≡ self.old.faults) }
        ensures counted { OnErr result (self.new.faults ≡ next_count self.old.faults) }
        ensures fault { OnErr result (Rose self.old.faults self.new.faults) }

        // An empty piece does nothing.
        ensures nothing { length bytes.now ≡ 0 → (result ≡ Ok 0) × (self.new ≡ self.old) }
    {
        if bytes.is_empty() {
            return Ok(0);
        }
        let left = self.room.len() - self.taken;
        if left == 0 {
            return Err(self.faults.rise());
        }
        let count = bytes.len().min(left);
        self.room[self.taken..self.taken + count].copy_from_slice(&bytes[..count]);
        self.taken += count;
        Ok(count)
    }
}
