//! What units know of each other: it is gathered from them a unit at a time, and then the registers get their numbers.

ghost use Rattle.std.specs.Prelude.{◌≡◌, ◌<◌, ◌++◌, ◌^◌, [], ◌∷◌, List, map, length, option_map, unwrap_or, IfOk, OnOk};
ghost use Rattle.cmm_static_semantics.specs.Declarations.{NamedUnit};
ghost use Rattle.cmm_static_semantics.specs.Linking.{Program, program_of, exports_of, is_among, address_of};
ghost use Rattle.cmm_typing.specs.Fitting.{FitsSense};
ghost use Rattle.cmm_words.specs.declared.constant.Constant.TheVariants.{Code};
ghost use Rattle.cmm_symbols.specs.Shown.{shown, entry_shown};
ghost use Rattle.cmm_linkage.specs.Exports.{exported_links};
ghost use Rattle.cmm_linkage.specs.inside.Linkages.{AreLinks, exported_shown, publication};

use crate::link::export_link;
use crate::linked::Linked;
use crate::owned::entry_of;
use crate::register::registers_in;
use crate::register_names::{add_names, number_of, put_in_order};
use cmm_ast::Export;
use cmm_items::Items;
use cmm_static_semantics::Sense;
use cmm_symbols::{Entry, Index, Table, host_named};
use cmm_words::{Constant, Name};
use indexmap::IndexSet;
use std::alloc::{AllocError, Global};
use std::marker::Model;

/// Something exported: its link name, and what the name is declared as.
#[derive(Clone, Copy)]
pub(crate) struct Exported<'a> {
    pub link: &'a [u8],
    pub entry: Option<Entry<'a>>,
}

/// What is gathered of units. Registers have no numbers yet, since these go by the names of all units: `numbered` gives them.
pub struct Gathered<'a> {
    exports: Items<Exported<'a>>,
    /// The first export under each link name.
    links: Index<'a, Option<Entry<'a>>>,
    /// The names of registers, as they came.
    registers: IndexSet<&'a [u8]>,
}

/// In one place, so that whoever lets one go has one call to prove.
impl Drop for Gathered<'_> {
    fn drop(self) {
        let Self {
            exports: _,
            links: _,
            registers: _,
        } = self;
    }
}

impl<'a> Model for Gathered<'a> {
    ghost use Rattle.std.specs.Prelude.{◌<◌, ◌^◌, length, map};
    ghost use Rattle.cmm_static_semantics.specs.Linking.{Program, in_order};
    ghost use Rattle.cmm_linkage.specs.inside.Linkages.{AreLinks, exported_shown, names_shown};

    ghost Value = { Program };

    ghost view = { λ g. record { exports = map exported_shown g.exports; registers = in_order (names_shown g.registers) } };

    ghost invariant = { λ g. AreLinks g.links g.exports × (length g.registers.keys < 2 ^ 32) };
}

/// What units know of each other: what they export, and the names of their registers.
pub struct Linkage<'a> {
    exports: Items<Exported<'a>>,
    links: Index<'a, Option<Entry<'a>>>,
    /// The names of registers, by their numbers.
    registers: IndexSet<&'a [u8]>,
}

/// In one place, so that whoever lets one go has one call to prove.
impl Drop for Linkage<'_> {
    fn drop(self) {
        let Self {
            exports: _,
            links: _,
            registers: _,
        } = self;
    }
}

impl<'a> Model for Linkage<'a> {
    ghost use Rattle.std.specs.Prelude.{◌<◌, ◌^◌, length, map};
    ghost use Rattle.cmm_static_semantics.specs.Linking.{Program};
    ghost use Rattle.cmm_linkage.specs.inside.Linkages.{AreLinks, exported_shown, names_shown};

    ghost Value = { Program };

    ghost view = { λ l. record { exports = map exported_shown l.exports; registers = names_shown l.registers } };

    ghost invariant = { λ l. AreLinks l.links l.exports × (length l.registers.keys < 2 ^ 32) };
}

/// Adds something that a unit exports.
fn add_export<'a>(
    table: &Table<'a, Entry<'a>>,
    export: &'a Export,
    exports: &mut Items<Exported<'a>>,
    links: &mut Index<'a, Option<Entry<'a>>>,
) -> Result<(), AllocError>
    ensures exports { OnOk result (map exported_shown exports.new ≡ map exported_shown exports.old ++ publication (map shown table.now.declared) export.now ∷ []) }
    ensures links { OnOk result (AreLinks links.old exports.old → AreLinks links.new exports.new) }
{
    let link = export_link(export);
    let entry = entry_of(table, &export.name.name);
    exports.push(Exported { link, entry })?;
    links.add(link, entry)?;
    Ok(())
}

/// Adds what a unit exports.
fn add_exports<'a>(
    table: &Table<'a, Entry<'a>>,
    listed: &[&'a Export],
    exports: &mut Items<Exported<'a>>,
    links: &mut Index<'a, Option<Entry<'a>>>,
) -> Result<(), AllocError>
    ensures exports { OnOk result (map exported_shown exports.new ≡ map exported_shown exports.old ++ map (publication (map shown table.now.declared)) (map (λ e. e.now) listed.now)) }
    ensures links { OnOk result (AreLinks links.old exports.old → AreLinks links.new exports.new) }
{
    for export in listed {
        add_export(table, export, exports, links)?;
    }
    Ok(())
}

/// The address of what is exported: some address where nothing is, or what cannot be exported.
fn address<'a>(entry: Option<Entry<'a>>) -> Constant
    ensures value { result ≡ unwrap_or (address_of (option_map entry_shown entry.entry)) (Code 0 0) }
    ensures fits { FitsSense (Some (Sense.Value result)) }
{
    let nothing = Constant::Code { proc: 0, plus: 0 };
    let Some(entry) = entry else {
        return nothing;
    };
    match entry {
        Entry::Procedure(number, _) => Constant::Code {
            proc: number,
            plus: 0,
        },
        Entry::DataLabel(number) => Constant::Address {
            label: number,
            plus: 0,
        },
        Entry::Typedef(_) => nothing,
        Entry::Const(_, _) => nothing,
        Entry::Register(_) => nothing,
        Entry::Import(_) => nothing,
    }
}

impl<'a> Gathered<'a> {
    /// That of no units.
    pub fn none(alloc: Global) -> Gathered<'a>
        ensures { result ≡ program_of [] }
    {
        Gathered {
            exports: Items::new(alloc),
            links: Index::new(alloc),
            registers: IndexSet::new(alloc),
        }
    }

    /// That of one more unit, from what its names are declared as and what it exports. Want of memory is the answer, too, where registers
    /// would be 2^32: there is none for that many names.
    pub fn with_unit(
        self,
        alloc: Global,
        table: &Table<'a, Entry<'a>>,
        listed: &[&'a Export],
    ) -> Result<Gathered<'a>, AllocError>
        ensures { IfOk result (λ next. (us : List NamedUnit) (u : NamedUnit) → self.entry ≡ program_of us → map shown table.now.declared ≡ u.entries →
            map (λ e. e.now) listed.now ≡ exports_of u → next ≡ program_of (us ++ u ∷ [])) }
    {
        let Gathered {
            mut exports,
            mut links,
            mut registers,
        } = self;
        add_exports(table, listed, &mut exports, &mut links)?;
        let own = registers_in(alloc, table)?;
        add_names(own.as_slice(), &mut registers)?;
        Ok(Gathered {
            exports,
            links,
            registers,
        })
    }

    /// What the units know of each other, where they are all: the registers are numbered by their names, in ascending order by bytes.
    pub fn numbered(self) -> Result<Linkage<'a>, AllocError>
        ensures { IfOk result (λ linkage. linkage ≡ self.entry) }
    {
        let Gathered {
            exports,
            links,
            mut registers,
        } = self;
        put_in_order(&mut registers)?;
        Ok(Linkage {
            exports,
            links,
            registers,
        })
    }
}

impl<'a> Linkage<'a> {
    /// How many registers units share.
    pub fn register_count(&self) -> usize
        ensures { result ≡ length self.now.registers }
    {
        self.registers.len()
    }

    /// Whether something is exported under a link name.
    pub fn is_exported(&self, link: &[u8]) -> bool
        ensures { result ≡ is_among link.now (exported_links self.now) }
    {
        self.links.get(link).is_some()
    }

    /// The names of the registers, by their numbers.
    pub fn register_names(&self) -> &[&'a [u8]]
        ensures { map (λ n. n.now) result.now ≡ self.now.registers }
    {
        self.registers.as_slice()
    }
}

impl<'a> Linked for Linkage<'a> {
    ghost program = { λ program. program };

    fn imported(&self, link: &[u8]) -> Sense {
        match host_named(link) {
            Some(host) => Sense::Host(host),
            None => Sense::Value(address(self.links.get(link).unwrap_or(None))),
        }
    }

    fn register_number(&self, name: &Name) -> u32 {
        number_of(&self.registers, name.as_bytes())
    }
}
