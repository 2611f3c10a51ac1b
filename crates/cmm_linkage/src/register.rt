//! The registers of a unit.

ghost use Rattle.std.specs.Prelude.{◌≡◌, ◌++◌, map, flat_map, option_map, IfOk, OnOk};
ghost use Rattle.cmm_static_semantics.specs.Linking.{register_entry};
ghost use Rattle.cmm_static_semantics.specs.Mentions.{listed};
ghost use Rattle.cmm_symbols.specs.Numbering.{numbering, number_in};
ghost use Rattle.cmm_symbols.specs.Shown.{shown};
ghost use Rattle.cmm_linkage.specs.Registers.{registers_in, register_shown};
ghost use Rattle.cmm_linkage.specs.inside.Counted.{counted, is_numbered};

use crate::owned::number_of;
use cmm_ast::{Ident, TypeName};
use cmm_items::Items;
use cmm_symbols::{Entry, Named, Table};
use cmm_words::Name;
use std::alloc::{AllocError, Global};

/// A register where a unit declares it.
#[derive(Clone, Copy)]
pub struct Register<'a> {
    pub name: &'a Ident,
    pub of_type: &'a TypeName,
}

/// Whether the declaration with a number is the first of its name and the name none of the host's.
fn counts<'a>(table: &Table<'a, Entry<'a>>, number: usize, name: &Name) -> bool
    ensures { result ≡ is_numbered number (number_in (numbering (map shown table.now.declared)) name.now) }
{
    match number_of(table, name) {
        Some(first) => first == number,
        None => false,
    }
}

/// The register that is declared, if one is.
fn register_of<'a>(named: &Named<'a, Entry<'a>>) -> Option<Register<'a>>
    ensures { listed (option_map register_shown result) ≡ register_entry (shown named.now) }
{
    match named.what {
        Entry::Register(of_type) => Some(Register {
            name: named.name,
            of_type,
        }),
        Entry::Typedef(_) => None,
        Entry::Const(_, _) => None,
        Entry::Import(_) => None,
        Entry::DataLabel(_) => None,
        Entry::Procedure(_, _) => None,
    }
}

/// Adds the declaration with a number to registers, if it is one and counts.
fn add_counted<'a>(
    table: &Table<'a, Entry<'a>>,
    number: usize,
    named: &Named<'a, Entry<'a>>,
    to: &mut Items<Register<'a>>,
) -> Result<(), AllocError>
    ensures { OnOk result (map register_shown to.new ≡ map register_shown to.old ++ flat_map register_entry (counted (map shown table.now.declared) number (shown named.now))) }
{
    let Some(register) = register_of(named) else {
        return Ok(());
    };
    if counts(table, number, &named.name.name) {
        to.push(register)?;
        Ok(())
    } else {
        Ok(())
    }
}

/// The registers of a unit: names that it first declares as registers.
pub fn registers_in<'a>(
    alloc: Global,
    table: &Table<'a, Entry<'a>>,
) -> Result<Items<Register<'a>>, AllocError>
    ensures { IfOk result (λ registers. map register_shown registers ≡ registers_in (map shown table.now.declared)) }
{
    let mut registers = Items::new(alloc);
    for (number, named) in table.declared.as_slice().iter().enumerate() {
        add_counted(table, number, named, &mut registers)?;
    }
    Ok(registers)
}
