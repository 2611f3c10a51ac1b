//! Names where they are declared, found by their bytes: the first declaration of a name counts.

ghost use Rattle.std.specs.Prelude.{◌≡◌, List, ℕ, [], map, IfOk, OnOk};
ghost use Rattle.cmm_static_semantics.specs.Declarations.{found, again};
ghost use Rattle.cmm_static_semantics.specs.Spots.{first_of};
ghost use Rattle.cmm_symbols.specs.Indexed.{indexed};
ghost use Rattle.cmm_symbols.specs.Numbering.{numbering};
ghost use Rattle.cmm_symbols.specs.Shown.{named};

use crate::index::Index;
use cmm_ast::Ident;
use cmm_items::Items;
use cmm_rules::Rule;
use cmm_static_semantics::{Spot, unless};
use cmm_words::Name;
use std::alloc::{AllocError, Global};

/// A name where it is declared, and as what.
#[derive(Clone, Copy)]
pub struct Named<'a, E> {
    pub name: &'a Ident,
    pub what: E,
}

/// Declarations in textual order, of which the first of each name is found, by its number.
pub struct Table<'a, E> {
    pub declared: Items<Named<'a, E>>,
    pub index: Index<'a, usize>,
    ghost tied: { (x : List ℕ) → indexed index x ≡ found x (numbering (map named declared)) },
}

/// In one place, so that whoever lets one go has one call to prove.
impl<E: Drop> Drop for Table<'_, E> {
    fn drop(self) {
        let Self {
            declared: _,
            index: _,
        } = self;
    }
}

impl<'a, E: Copy + Drop> Table<'a, E> {
    /// These declarations. Each name that is declared again is noted: rule 20.
    pub fn of(
        alloc: Global,
        declared: Items<Named<'a, E>>,
        best: &mut Option<Spot>,
    ) -> Result<Table<'a, E>, AllocError>
        ensures declared { IfOk result (λ table. table.declared ≡ declared.entry) }
        ensures again { OnOk result (best.new ≡ first_of best.old (again [] (map named declared.entry))) }
    {
        let mut index = Index::new(alloc);
        for (number, named) in declared.as_slice().iter().enumerate() {
            let new = index.add(named.name.name.as_bytes(), number)?;
            unless(best, new, Rule::DeclaredTwice, named.name.token);
        }
        Ok(Table { declared, index })
    }

    /// The number of what a name is first declared as, counted from 0.
    pub fn number(&self, name: &Name) -> Option<usize>
        ensures { result ≡ found name.now (numbering (map named self.now.declared)) }
    {
        self.index.get(name.as_bytes())
    }

    /// What a name is first declared as.
    pub fn find(&self, name: &Name) -> Option<E>
        ensures { result ≡ found name.now (map named self.now.declared) }
    {
        match self.number(name) {
            Some(number) => Some(self.declared.as_slice()[number].what),
            None => None,
        }
    }
}
