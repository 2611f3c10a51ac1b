//! What files in memory keep of one name.

ghost use Rattle.std.specs.Prelude.{◌≡◌, ◌≤◌, ◌++◌, [], Some, None, length, take, drop, min, max, IfOk, OnOk, OnErr};
ghost use Rattle.std.specs.Option.{option_copied};
ghost use Rattle.std.specs.Str.{bytes_eq};

use crate::CallKind;
use std::alloc::{AllocError, Global};
use std::marker::Model;

/// A name, room for a file of that name, and the file, where there is one.
#[derive(Drop)]
pub struct Place {
    name: String,
    room: usize,
    bytes: Vec<u8>,
    is_file: bool,
}

impl Model for Place {
    ghost use Rattle.std.specs.Prelude.{◌≡◌, ◌≤◌, Some, None, false, string_bytes, vec_len, vec_capacity, if◌then◌else◌};
    ghost use Rattle.cmm_outside.specs.MemoryFiles as memory;

    ghost Value = { memory.Place };

    ghost view = { λ p. record {
      name = string_bytes p.name;
      room = p.room;
      file = if p.is_file then Some p.bytes.items else None;
    } };

    ghost invariant = { λ p.
        (p.room ≤ vec_capacity p.bytes) × (vec_len p.bytes ≤ p.room) × (p.is_file ≡ false → vec_len p.bytes ≡ 0) };
}

impl Place {
    ghost use Rattle.cmm_outside.specs.MemoryFiles.{holding, room_left, serves};
    ghost use Rattle.cmm_outside.specs.Storage.{bytes_of};

    /// Room for `room` bytes, and no file.
    pub fn new(alloc: Global, name: &str, room: usize) -> Result<Self, AllocError>
        ensures { IfOk result (λ place. place ≡ record { name = name.now; room = room; file = None }) }
    {
        Ok(Place {
            name: String::from_str(alloc, name)?,
            room,
            bytes: Vec::with_capacity(alloc, room)?,
            is_file: false,
        })
    }

    /// A file of these bytes, and just their room.
    pub fn holding(alloc: Global, name: &str, bytes: &[u8]) -> Result<Self, AllocError>
        ensures { IfOk result (λ place. place ≡ holding name.now bytes.now) }
    {
        let mut place = Place::new(alloc, name, bytes.len())?;
        place.append(bytes);
        Ok(place)
    }

    /// Whether this is the place of that name.
    pub fn is_named(&self, name: &str) -> bool
        ensures { result ≡ bytes_eq self.now.name name.now }
    {
        self.name.as_str() == name
    }

    /// The bytes of the file, where there is one.
    pub fn file(&self) -> Option<&[u8]>
        ensures { option_copied result ≡ self.now.file }
    {
        if self.is_file {
            Some(&self.bytes)
        } else {
            None
        }
    }

    /// Whether a call of this kind can be done here.
    pub fn serves(&self, kind: CallKind) -> bool
        ensures { result ≡ serves kind (Some self.now) }
    {
        match kind {
            CallKind::Read => self.is_file,
            CallKind::Create => true,
            CallKind::Append => self.left() > 0,
        }
    }

    /// For how many more bytes there is room.
    pub fn left(&self) -> usize
        ensures { result ≡ room_left self.now }
    {
        self.room - self.bytes.len()
    }

    /// Reads bytes of the file from the offset `from` on into the front of `buffer`, and answers how many.
    pub fn read_at(&self, from: u64, buffer: &mut [u8]) -> usize
        ensures count { result ≡ min (length buffer.old) (length (drop from (bytes_of self.now.file))) }
        ensures bytes { take result buffer.new ≡ take result (drop from (bytes_of self.now.file)) }
    {
        let from = from.min(self.bytes.len() as u64) as usize;
        let left = &self.bytes[from..];
        let count = buffer.len().min(left.len());
        buffer[..count].copy_from_slice(&left[..count]);
        count
    }

    /// Takes memory for a file of `room` bytes.
    pub fn grow(&mut self, room: usize) -> Result<(), AllocError>
        ensures ok { OnOk result (self.new ≡ record self.old { room = max self.old.room room }) }
        ensures err { OnErr result (self.new ≡ self.old) }
    {
        if room > self.room {
            self.bytes.reserve_exact(room - self.bytes.len())?;
            self.room = room;
        }
        Ok(())
    }

    /// Makes the file empty.
    pub fn create(&mut self)
        ensures { self.new ≡ record self.old { file = Some [] } }
    {
        self.bytes.clear();
        self.is_file = true;
    }

    /// Writes bytes at the file's end, and makes the file where there is none.
    pub fn append(&mut self, bytes: &[u8])
        requires { length bytes.now ≤ room_left self.old }
        ensures { self.new ≡ record self.old { file = Some (bytes_of self.old.file ++ bytes.now) } }
    {
        self.bytes.extend_from_slice(bytes).unwrap();
        self.is_file = true;
    }
}
