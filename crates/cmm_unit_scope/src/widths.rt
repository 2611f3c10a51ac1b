//! The widths of typedefs.

ghost use Rattle.std.specs.Prelude.{◌≡◌, ℕ, None, map, replicate, length, IfOk};
ghost use Rattle.cmm_symbols.specs.Numbering.{numbering};
ghost use Rattle.cmm_symbols.specs.Shown.{shown, entry_shown};
ghost use Rattle.cmm_unit_scope.specs.inside.Numbers.{width_at, type_by, entry_by};
ghost use Rattle.cmm_unit_scope.specs.inside.Widths.{AreWidths, AreSettled};

use crate::typedef_graph::graph_of;
use cmm_ast::{TypeForm, TypeName};
use cmm_digraph::peel;
use cmm_items::Items;
use cmm_linkage::number_of;
use cmm_symbols::{Entry, Table};
use cmm_words::Width;
use std::alloc::{AllocError, Global};

/// No widths, for `count` declarations.
fn no_widths(alloc: Global, count: usize) -> Result<Items<Option<Width>>, AllocError>
    ensures { IfOk result (λ widths. widths ≡ replicate count None) }
{
    let mut widths = Items::new(alloc);
    for _ in 0..count {
        widths.push(None)?;
    }
    Ok(widths)
}

/// The width of a declaration, if it has one.
pub(crate) fn width_at(widths: &Items<Option<Width>>, number: usize) -> Option<Width>
    ensures { result ≡ width_at widths.now number }
{
    match widths.get(number) {
        Some(width) => *width,
        None => None,
    }
}

fn type_by<'a>(
    widths: &Items<Option<Width>>,
    table: &Table<'a, Entry<'a>>,
    t: &TypeName,
) -> Option<Width>
    ensures { result ≡ type_by (width_at widths.now) (numbering (map shown table.now.declared)) t.now }
{
    match &t.form {
        TypeForm::Bits(width) => Some(*width),
        TypeForm::Named(name) => match number_of(table, name) {
            Some(number) => width_at(widths, number),
            None => None,
        },
    }
}

/// The width of a typedef, from those of other declarations.
fn entry_by<'a>(
    widths: &Items<Option<Width>>,
    table: &Table<'a, Entry<'a>>,
    entry: Entry<'a>,
) -> Option<Width>
    ensures { result ≡ entry_by (width_at widths.now) (numbering (map shown table.now.declared)) (entry_shown entry.entry) }
{
    match entry {
        Entry::Typedef(t) => type_by(widths, table, t),
        Entry::Const(_, _) => None,
        Entry::Register(_) => None,
        Entry::Import(_) => None,
        Entry::DataLabel(_) => None,
        Entry::Procedure(_, _) => None,
    }
}

/// The widths of declarations, of which typedefs alone have some.
pub(crate) fn widths_of<'a>(
    alloc: Global,
    table: &Table<'a, Entry<'a>>,
) -> Result<Items<Option<Width>>, AllocError>
    ensures widths { IfOk result (AreWidths (map shown table.now.declared)) }
    ensures settled { IfOk result (AreSettled (map shown table.now.declared)) }
{
    let declared = table.declared.as_slice();
    let graph = graph_of(alloc, table)?;
    let peeled = peel(alloc, graph.as_slice())?;
    let mut widths = no_widths(alloc, declared.len())?;
    for node in peeled.order.as_slice() {
        let width = entry_by(&widths, table, declared[*node].what);
        widths.set(*node, width);
    }
    Ok(widths)
}
