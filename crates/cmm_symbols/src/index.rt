//! What names have in a table, by their bytes.

ghost use Rattle.std.specs.Prelude.{◌≡◌, List, ℕ, bytes_eq, None, not, IfOk, OnOk};
ghost use Rattle.cmm_static_semantics.specs.Senses.{is_there};
ghost use Rattle.cmm_symbols.specs.Indexed.{indexed, or_else};

use indexmap::IndexMap;
use std::alloc::{AllocError, Global};

/// Something for each of some names, what it was first given. Names stand in the units that they are of.
#[derive(Drop)]
pub struct Index<'a, E> {
    pub table: IndexMap<&'a [u8], E>,
}

impl<'a, E: Copy + Drop> Index<'a, E> {
    /// No names.
    pub fn new(alloc: Global) -> Index<'a, E>
        ensures { (x : List ℕ) → indexed result x ≡ None }
    {
        Index {
            table: IndexMap::new(alloc),
        }
    }

    /// What a name was given, if anything.
    pub fn get(&self, name: &[u8]) -> Option<E>
        ensures { result ≡ indexed self.now name.now }
    {
        match self.table.get(name) {
            Some(found) => Some(*found),
            None => None,
        }
    }

    /// Gives a name something, if it has nothing. The answer is whether it had nothing.
    pub fn add(&mut self, name: &'a [u8], next: E) -> Result<bool, AllocError>
        ensures new { IfOk result (λ new. new ≡ not (is_there (indexed self.old name.now))) }
        ensures names { OnOk result ((x : List ℕ) → indexed self.new x ≡ or_else (indexed self.old x) (bytes_eq x name.now) next) }
    {
        if self.get(name).is_some() {
            return Ok(false);
        }
        self.table.insert(name, next)?;
        Ok(true)
    }
}
