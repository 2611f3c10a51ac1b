//! What depends on itself.

ghost use Rattle.std.specs.Prelude.{◌≡◌, ◌<◌, List, Some, map, length, IfOk};
ghost use Rattle.cmm_static_semantics.specs.Declarations.{Declared, Entry as UnitEntry};
ghost use Rattle.cmm_static_semantics.specs.Scopes.{depends_on_itself};
ghost use Rattle.cmm_symbols.specs.Shown.{shown};
ghost use Rattle.cmm_symbols.specs.Numbering.{numbering, number_in};
ghost use Rattle.cmm_unit_scope.specs.Numbers.{entry_at};
ghost use Rattle.cmm_unit_scope.specs.Depending.{graph_of};
ghost use Rattle.cmm_unit_scope.specs.Dependent.{AreDependencies};

use crate::dependency_graph::graph_of;
use cmm_digraph::on_cycles;
use cmm_items::Items;
use cmm_symbols::{Entry, Table};
use std::alloc::{AllocError, Global};

/// Which declarations of a unit name which.
pub struct Dependencies {
    pub(crate) graph: Items<Items<usize>>,
    pub(crate) cyclic: Vec<bool>,
}

/// In one place, so that whoever lets one go has one call to prove.
impl Drop for Dependencies {
    fn drop(self) {
        let Self {
            graph: _,
            cyclic: _,
        } = self;
    }
}

impl Dependencies {
    /// For each declaration those that it names, by their numbers.
    pub fn graph(&self) -> &[Items<usize>]
        ensures { (ds : List (Declared UnitEntry)) → AreDependencies ds self.now → result.now ≡ graph_of ds }
    {
        self.graph.as_slice()
    }

    /// Whether the declaration with a number, the first of its name, depends on itself.
    pub fn on_itself(&self, number: usize) -> bool
        requires { (ds : List (Declared UnitEntry)) × AreDependencies ds self.now × (number < length ds) }
        ensures { (ds : List (Declared UnitEntry)) (d : Declared UnitEntry) → AreDependencies ds self.now → number_in (numbering ds) d.name.name ≡ Some number →
            entry_at ds number ≡ Some d.as_what → result ≡ depends_on_itself ds d }
    {
        self.cyclic[number]
    }
}

/// Which declarations of a unit name which.
pub fn dependencies_of<'a>(
    alloc: Global,
    table: &Table<'a, Entry<'a>>,
) -> Result<Dependencies, AllocError>
    ensures { IfOk result (AreDependencies (map shown table.now.declared)) }
{
    let graph = graph_of(alloc, table)?;
    let cyclic = on_cycles(alloc, graph.as_slice())?;
    Ok(Dependencies { graph, cyclic })
}
