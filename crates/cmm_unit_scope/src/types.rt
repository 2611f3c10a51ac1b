//! What names mean as types.

ghost use Rattle.std.specs.Prelude.{◌≡◌, ℕ, List, Some, map, IfOk};
ghost use Rattle.cmm_static_semantics.specs.Judging.{if_ok};
ghost use Rattle.cmm_static_semantics.specs.Scopes.{width_in};
ghost use Rattle.cmm_static_semantics.specs.Typing.{type_width};
ghost use Rattle.cmm_ast.specs.declared.expression.TypeName.{TypeName};
ghost use Rattle.cmm_symbols.specs.Shown.{shown, entry_shown};
ghost use Rattle.cmm_unit_scope.specs.Types.{sense_at, type_sense, type_senses, senses_of};
ghost use Rattle.cmm_unit_scope.specs.inside.Numbers.{sense_by};
ghost use Rattle.cmm_unit_scope.specs.inside.Widths.{AreWidths};

use crate::widths::{width_at, widths_of};
use cmm_items::Items;
use cmm_linkage::number_of;
use cmm_static_semantics::Sense;
use cmm_symbols::{Entry, Named, Table};
use cmm_typing::Names;
use cmm_words::{Name, Width};
use std::alloc::{AllocError, Global};

/// What the names of a unit mean as types.
#[derive(Drop)]
pub struct Types<'t, 'a> {
    pub(crate) table: &'t Table<'a, Entry<'a>>,
    /// What each declaration means, by its number.
    pub(crate) senses: Items<Option<Sense>>,
}

/// What the declaration with a number means, if it is a type.
fn sense_at(senses: &Items<Option<Sense>>, number: usize) -> Option<Sense>
    ensures { result ≡ sense_at senses.now number }
{
    match senses.get(number) {
        Some(sense) => *sense,
        None => None,
    }
}

impl<'t, 'a> Names for Types<'t, 'a> {
    ghost senses = { senses_of };

    fn sense(&self, name: &Name) -> Option<Sense> {
        match number_of(self.table, name) {
            Some(number) => sense_at(&self.senses, number),
            None => None,
        }
    }
}

fn sense_by<'a>(width: Option<Width>, entry: Entry<'a>) -> Option<Sense>
    ensures { result ≡ sense_by width (entry_shown entry.entry) }
{
    match entry {
        Entry::Typedef(_) => Some(Sense::Typedef(width)),
        Entry::Const(_, _) => None,
        Entry::Register(_) => None,
        Entry::Import(_) => None,
        Entry::DataLabel(_) => None,
        Entry::Procedure(_, _) => None,
    }
}

/// What declarations mean as types.
fn sensed<'a>(
    alloc: Global,
    declared: &[Named<'a, Entry<'a>>],
    widths: &Items<Option<Width>>,
) -> Result<Items<Option<Sense>>, AllocError>
    requires { AreWidths (map shown declared.now) widths.now }
    ensures { IfOk result (λ senses. senses ≡ map (λ n. type_sense (map shown declared.now) (Some (entry_shown n.what))) declared.now) }
{
    let mut senses = Items::new(alloc);
    for (number, named) in declared.iter().enumerate() {
        senses.push(sense_by(width_at(widths, number), named.what))?;
    }
    Ok(senses)
}

/// What the names that a unit declares mean as types. The width of a type by that is the one that the declarations give it.
pub fn types_of<'t, 'a>(
    alloc: Global,
    table: &'t Table<'a, Entry<'a>>,
) -> Result<Types<'t, 'a>, AllocError>
    ensures senses { IfOk result (λ types. (name : List ℕ) → senses_of types name ≡ type_senses (map shown table.now.declared) name) }
    ensures widths { IfOk result (λ types. (t : TypeName) → if_ok (type_width (senses_of types) t) ≡ width_in (map shown table.now.declared) t) }
{
    let widths = widths_of(alloc, table)?;
    let senses = sensed(alloc, table.declared.as_slice(), &widths)?;
    Ok(Types { table, senses })
}
