//! Which declaration names which as its type.

ghost use Rattle.std.specs.Prelude.{◌≡◌, map, IfOk};
ghost use Rattle.cmm_static_semantics.specs.Mentions.{listed};
ghost use Rattle.cmm_symbols.specs.Numbering.{numbering};
ghost use Rattle.cmm_symbols.specs.Shown.{shown, entry_shown};
ghost use Rattle.cmm_unit_scope.specs.inside.Numbers.{entry_number, type_graph};

use crate::number::entry_number;
use cmm_items::Items;
use cmm_symbols::{Entry, Table};
use std::alloc::{AllocError, Global};

fn mentions_of<'a>(
    alloc: Global,
    table: &Table<'a, Entry<'a>>,
    entry: Entry<'a>,
) -> Result<Items<usize>, AllocError>
    ensures { IfOk result (λ mentions. mentions ≡ listed (entry_number (numbering (map shown table.now.declared)) (entry_shown entry.entry))) }
{
    let mut mentions = Items::new(alloc);
    match entry_number(table, entry) {
        Some(number) => mentions.push(number)?,
        None => {}
    }
    Ok(mentions)
}

/// For each declaration the one that it names as its type, if it does.
pub(crate) fn graph_of<'a>(
    alloc: Global,
    table: &Table<'a, Entry<'a>>,
) -> Result<Items<Items<usize>>, AllocError>
    ensures { IfOk result (λ graph. graph ≡ type_graph (numbering (map shown table.now.declared)) (map shown table.now.declared)) }
{
    let mut graph = Items::new(alloc);
    for named in table.declared.as_slice() {
        graph.push(mentions_of(alloc, table, named.what)?)?;
    }
    Ok(graph)
}
