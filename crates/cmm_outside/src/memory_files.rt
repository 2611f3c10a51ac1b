//! Files in memory, whose calls fail at listed numbers and where a name has no room.

ghost use Rattle.std.specs.Prelude.{◌≡◌, ◌↔◌, ◌⊎◌, ◌<◌, ◌≤◌, ◌-◌, ◌++◌, [], List, ℕ, Some, None, Ok, true, length, take, drop, min, max, is_err, is_some, unwrap_or, IsErr, IfOk, IfSome, OnOk, OnErr, if◌then◌else◌};
ghost use Rattle.std.specs.Option.{option_copied};
ghost use Rattle.cmm_outside.specs.Faults.{Rose};
ghost use Rattle.cmm_outside.specs.Storage.{ReadsAt, Writes, bytes_of};

use crate::failing_calls::FailingCalls;
use crate::named_call::NamedCall;
use crate::place::Place;
use crate::storage::NAME_LIMIT;
use crate::{CallKind, Failed, Files};
use std::alloc::{AllocError, Global};
use std::marker::Model;

/// Files in memory. Their calls take none: a file grows within the room that was made for its name.
///
/// The listed calls fail, counted from 0, and so do a read of a file that is not there, and a write
/// for which the name has no room. A call with an empty piece or buffer is not counted.
#[derive(Drop)]
pub struct MemFiles {
    alloc: Global,
    places: Vec<Place>,
    calls: FailingCalls,
    last_failed: Option<NamedCall>,
}

impl Model for MemFiles {
    ghost use Rattle.cmm_outside.specs.MemoryFiles.{FilesState};

    ghost Value = { FilesState };

    ghost view = { λ f. record { places = f.places.items; calls = f.calls; last_failed = f.last_failed } };
}

impl MemFiles {
    ghost use Rattle.cmm_outside.specs.FailingCalls.{IsNextListed, after_call, no_calls};
    ghost use Rattle.cmm_outside.specs.MemoryFiles.{IsRefused, Puts, file_of, holding, place_of, room_of, serves};
    ghost use Rattle.cmm_outside.specs.inside.PlaceIndex.{index_of};

    /// No files, and room for none. It takes no memory.
    pub fn new(alloc: Global, failing: Vec<u64>) -> Self
        ensures { result ≡ record { places = []; calls = no_calls failing.items; last_failed = None } }
    {
        MemFiles {
            alloc,
            places: Vec::new(alloc),
            calls: FailingCalls::new(failing),
            last_failed: None,
        }
    }

    /// Makes the file hold just these bytes, and gives it just their room.
    pub fn put(&mut self, name: &str, bytes: &[u8]) -> Result<(), AllocError>
        ensures ok { OnOk result (Puts self.old.places self.new.places name.now (holding name.now bytes.now)) }
        ensures err { OnErr result (self.new ≡ self.old) }
        ensures same_calls { self.new.calls ≡ self.old.calls }
        ensures same_failed { self.new.last_failed ≡ self.old.last_failed }
    {
        let place = Place::holding(self.alloc, name, bytes)?;
        match self.position(name) {
            Some(i) => self.places[i] = place,
            None => self.places.push(place)?,
        }
        Ok(())
    }

    /// Takes memory for a file of that name of up to `room` bytes. Room that it has already it keeps.
    pub fn room(&mut self, name: &str, bytes: u64) -> Result<(), AllocError>
        ensures ok { OnOk result (Puts self.old.places self.new.places name.now (record {
          name = name.now;
          room = max (unwrap_or (room_of self.old name.now) 0) bytes;
          file = file_of self.old name.now;
        })) }
        ensures err { OnErr result (self.new ≡ self.old) }
        ensures same_calls { self.new.calls ≡ self.old.calls }
        ensures same_failed { self.new.last_failed ≡ self.old.last_failed }
    {
        let room = bytes as usize;
        match self.position(name) {
            Some(i) => self.places[i].grow(room)?,
            None => self.places.push(Place::new(self.alloc, name, room)?)?,
        }
        Ok(())
    }

    /// The bytes of a file, `None` where there is no such file.
    pub fn get(&self, name: &str) -> Option<&[u8]>
        ensures { option_copied result ≡ file_of self.now name.now }
    {
        self.places[self.position(name)?].file()
    }

    /// The index of a name's place.
    fn position(&self, name: &str) -> Option<usize>
        ensures { result ≡ index_of self.now.places name.now }
    {
        self.places.iter().position(|place| place.is_named(name))
    }

    /// The index of a name's place, where a call of this kind can be done there.
    fn find(&self, kind: CallKind, name: &str) -> Option<usize>
        ensures possible { is_some result ≡ serves kind (place_of self.now.places name.now) }
        ensures place { IfSome result (λ i. index_of self.now.places name.now ≡ Some i) }
    {
        let i = self.position(name)?;
        if self.places[i].serves(kind) {
            Some(i)
        } else {
            None
        }
    }

    /// Counts a call, and gives the index of the place that it is to work on.
    fn begin(&mut self, kind: CallKind, name: &str) -> Result<usize, Failed>
        requires { length name.now ≤ NAME_LIMIT }
        ensures fails { IsErr result ↔ (IsNextListed self.old.calls ⊎ IsRefused self.old kind name.now) }
        ensures served { OnOk result (serves kind (place_of self.old.places name.now) ≡ true) }
        ensures place { IfOk result (λ i. index_of self.new.places name.now ≡ Some i) }
        ensures counted { self.new.calls ≡ after_call self.old.calls (is_err result) }
        ensures fault { OnErr result (Rose self.old.calls.faults self.new.calls.faults) }
        ensures failed_call { self.new.last_failed ≡ (if is_err result then Some (record { kind = kind; name = name.now }) else self.old.last_failed) }
        ensures same { self.new.places ≡ self.old.places }
    {
        let place = self.find(kind, name);
        match (self.calls.make_call(place.is_some()), place) {
            (Ok(()), Some(i)) => Ok(i),
            _ => {
                self.last_failed = Some(NamedCall::new(kind, name));
                Err(Failed)
            }
        }
    }
}

impl Files for MemFiles {
    ghost use Rattle.cmm_outside.specs.FailingCalls.{IsNextListed, after_call};
    ghost use Rattle.cmm_outside.specs.MemoryFiles.{IsRefused, file_of, room_left_of, room_of};
    ghost use Rattle.cmm_outside.specs.Storage.{ReadsAt, Writes, bytes_of};

    ghost contents = { λ f. Some (file_of f) };

    ghost faults = { λ f. f.calls.faults };

    ghost last_failed = { λ f. f.last_failed };

    fn read_at(&mut self, name: &str, from: u64, buffer: &mut [u8]) -> Result<usize, Failed>
        requires { length name.now ≤ NAME_LIMIT }

        // It fails exactly at the listed calls and where there is no such file.
        ensures fails { IsErr result ↔ ((0 < length buffer.old) × (IsNextListed self.old.calls ⊎ IsRefused self.old CallKind.Read name.now)) }
        ensures counted { 0 < length buffer.old → self.new.calls ≡ after_call self.old.calls (is_err result) }

        ensures all { IfOk result (λ n. n ≡ min (length buffer.old) (length (drop from (bytes_of (file_of self.old name.now))))) }
        ensures read { IfOk result (λ n. ReadsAt (Some (file_of self.old)) name.now from (length buffer.old) buffer.new n) }
        ensures same { self.new.places ≡ self.old.places }

        ensures no_fault { OnOk result (self.new.calls.faults ≡ self.old.calls.faults) }
        ensures no_failed_call { OnOk result (self.new.last_failed ≡ self.old.last_failed) }
        ensures fault { OnErr result (Rose self.old.calls.faults self.new.calls.faults) }
        ensures failed_call { OnErr result (self.new.last_failed ≡ Some (record { kind = CallKind.Read; name = name.now })) }

        // An empty piece or buffer does nothing.
        ensures nothing { length buffer.old ≡ 0 → (result ≡ Ok 0) × (self.new ≡ self.old) }
    {
        if buffer.is_empty() {
            return Ok(0);
        }
        let i = self.begin(CallKind::Read, name)?;
        Ok(self.places[i].read_at(from, buffer))
    }

    fn create(&mut self, name: &str) -> Result<(), Failed>
        requires { length name.now ≤ NAME_LIMIT }

        // It fails exactly at the listed calls and where the name has no room.
        ensures fails { IsErr result ↔ (IsNextListed self.old.calls ⊎ IsRefused self.old CallKind.Create name.now) }
        ensures counted { self.new.calls ≡ after_call self.old.calls (is_err result) }

        ensures created { OnOk result (Writes (Some (file_of self.old)) (Some (file_of self.new)) name.now (λ _. [])) }
        ensures same_rooms { (other : List ℕ) → room_of self.new other ≡ room_of self.old other }
        ensures err { OnErr result (self.new.places ≡ self.old.places) }

        ensures no_fault { OnOk result (self.new.calls.faults ≡ self.old.calls.faults) }
        ensures no_failed_call { OnOk result (self.new.last_failed ≡ self.old.last_failed) }
        ensures fault { OnErr result (Rose self.old.calls.faults self.new.calls.faults) }
        ensures failed_call { OnErr result (self.new.last_failed ≡ Some (record { kind = CallKind.Create; name = name.now })) }
    {
        let i = self.begin(CallKind::Create, name)?;
        self.places[i].create();
        Ok(())
    }

    fn append(&mut self, name: &str, bytes: &[u8]) -> Result<usize, Failed>
        requires { length name.now ≤ NAME_LIMIT }

        // It fails exactly at the listed calls and where the name has no room left.
        ensures fails { IsErr result ↔ ((0 < length bytes.now) × (IsNextListed self.old.calls ⊎ IsRefused self.old CallKind.Append name.now)) }
        ensures counted { 0 < length bytes.now → self.new.calls ≡ after_call self.old.calls (is_err result) }

        ensures all { IfOk result (λ n. n ≡ min (length bytes.now) (room_left_of self.old name.now)) }
        ensures progress { IfOk result (λ n. 0 < length bytes.now → 0 < n) }
        ensures appended { IfOk result (λ n. 0 < n →
            Writes (Some (file_of self.old)) (Some (file_of self.new)) name.now (λ file. bytes_of file ++ take n bytes.now)) }
        ensures same_rooms { (other : List ℕ) → room_of self.new other ≡ room_of self.old other }
        ensures err { OnErr result (self.new.places ≡ self.old.places) }

        ensures no_fault { OnOk result (self.new.calls.faults ≡ self.old.calls.faults) }
        ensures no_failed_call { OnOk result (self.new.last_failed ≡ self.old.last_failed) }
        ensures fault { OnErr result (Rose self.old.calls.faults self.new.calls.faults) }
        ensures failed_call { OnErr result (self.new.last_failed ≡ Some (record { kind = CallKind.Append; name = name.now })) }

        // An empty piece or buffer does nothing.
        ensures nothing { length bytes.now ≡ 0 → (result ≡ Ok 0) × (self.new ≡ self.old) }
    {
        if bytes.is_empty() {
            return Ok(0);
        }
        let i = self.begin(CallKind::Append, name)?;
        let place = &mut self.places[i];
        let count = bytes.len().min(place.left());
        place.append(&bytes[..count]);
        Ok(count)
    }
}
