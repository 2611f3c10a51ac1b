//! What the declarations of a unit name.

ghost use Rattle.std.specs.Prelude.{◌≡◌, ◌++◌, Some, map, IfOk, OnOk};
ghost use Rattle.cmm_static_semantics.specs.Declarations.{Typedef};
ghost use Rattle.cmm_symbols.specs.Numbering.{numbering};
ghost use Rattle.cmm_symbols.specs.Shown.{shown, entry_shown};
ghost use Rattle.cmm_unit_scope.specs.Depending.{mentioned_by, graph_of};

use crate::mentioned::add_expr;
use crate::number::type_number;
use cmm_ast::TypeName;
use cmm_items::Items;
use cmm_symbols::{Entry, Table};
use std::alloc::{AllocError, Global};

/// Adds the number of the declaration that a typedef names.
fn add_type<'a>(
    table: &Table<'a, Entry<'a>>,
    t: &TypeName,
    to: &mut Items<usize>,
) -> Result<(), AllocError>
    ensures { OnOk result (to.new ≡ to.old ++ mentioned_by (numbering (map shown table.now.declared)) (Some (Typedef t.now))) }
{
    match type_number(table, t) {
        Some(number) => Ok(to.push(number)?),
        None => Ok(()),
    }
}

/// Adds the numbers of the declarations that a declaration names.
fn add_entry<'a>(
    table: &Table<'a, Entry<'a>>,
    entry: Entry<'a>,
    to: &mut Items<usize>,
) -> Result<(), AllocError>
    ensures { OnOk result (to.new ≡ to.old ++ mentioned_by (numbering (map shown table.now.declared)) (Some (entry_shown entry.entry))) }
{
    match entry {
        Entry::Typedef(t) => {
            add_type(table, t, to)?;
            Ok(())
        }
        Entry::Const(_, value) => {
            add_expr(table, value, to)?;
            Ok(())
        }
        Entry::Register(_) => Ok(()),
        Entry::Import(_) => Ok(()),
        Entry::DataLabel(_) => Ok(()),
        Entry::Procedure(_, _) => Ok(()),
    }
}

/// For each declaration those that it names, by their numbers.
pub(crate) fn graph_of<'a>(
    alloc: Global,
    table: &Table<'a, Entry<'a>>,
) -> Result<Items<Items<usize>>, AllocError>
    ensures { IfOk result (λ graph. graph ≡ graph_of (map shown table.now.declared)) }
{
    let mut graph = Items::new(alloc);
    for named in table.declared.as_slice() {
        let mut mentions = Items::new(alloc);
        add_entry(table, named.what, &mut mentions)?;
        graph.push(mentions)?;
    }
    Ok(graph)
}
