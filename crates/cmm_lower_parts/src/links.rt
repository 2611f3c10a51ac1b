//! The names under which the names of a unit are exported (C-- Language Specification 2.0, imports and exports).

ghost use Rattle.std.specs.Prelude.{◌≡◌, ◌++◌, ℕ, List, map, bytes_eq, IfOk, OnOk};
ghost use Rattle.cmm_elaboration.specs.Data.{links_of};
ghost use Rattle.cmm_lower_parts.specs.Exported.{link_if, links_at};

use cmm_ast::Export;
use cmm_items::Items;
use cmm_linkage::export_link;
use cmm_words::Name;
use indexmap::IndexMap;
use std::alloc::{AllocError, Global};

/// What a unit exports, and the names under which each name is exported, found by its bytes.
#[derive(Drop)]
pub struct Links<'a> {
    pub exports: &'a [&'a Export],
    pub table: IndexMap<&'a [u8], Items<&'a [u8]>>,
    ghost tied: { (x : List ℕ) → links_at table x ≡ links_of (map (λ e. e.now) exports.now) x },
}

/// Adds a name under which another is exported.
fn add_link<'a>(
    alloc: Global,
    name: &'a [u8],
    link: &'a [u8],
    table: &mut IndexMap<&'a [u8], Items<&'a [u8]>>,
) -> Result<(), AllocError>
    ensures { OnOk result ((x : List ℕ) → links_at table.new x ≡ links_at table.old x ++ link_if (bytes_eq name.now x) link.now) }
{
    let mut links = table.swap_remove(name).unwrap_or(Items::new(alloc));
    links.push(link)?;
    table.insert(name, links)?;
    Ok(())
}

fn copied(alloc: Global, names: &[&[u8]]) -> Result<Items<Name>, AllocError>
    ensures { IfOk result (λ copies. copies ≡ map (λ n. n.now) names.now) }
{
    let mut copies = Items::new(alloc);
    for name in names {
        let copy = Name::from_slice(alloc, name)?;
        copies.push(copy)?;
    }
    Ok(copies)
}

impl<'a> Links<'a> {
    /// The names under which a unit exports its names.
    pub fn of(alloc: Global, exports: &'a [&'a Export]) -> Result<Links<'a>, AllocError>
        ensures { IfOk result (λ links. links.exports ≡ exports.entry) }
    {
        let mut table = IndexMap::new(alloc);
        for export in exports {
            let name = export.name.name.as_bytes();
            add_link(alloc, name, export_link(export), &mut table)?;
        }
        Ok(Links { exports, table })
    }

    /// The names under which a name is exported, in textual order.
    pub fn get(&self, alloc: Global, name: &Name) -> Result<Items<Name>, AllocError>
        ensures { IfOk result (λ links. links ≡ links_of (map (λ e. e.now) self.now.exports.now) name.now) }
    {
        match self.table.get(name.as_bytes()) {
            Some(links) => copied(alloc, links.as_slice()),
            None => Ok(Items::new(alloc)),
        }
    }
}
