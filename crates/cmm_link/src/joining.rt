//! The text of units whose codes are joined.

ghost use Rattle.std.specs.Prelude.{◌≡◌, ◌+◌, ◌<◌, ◌≤◌, ◌^◌, ◌++◌, length, map, sum_by, IfOk, OnOk};
ghost use Rattle.std.specs.List.{All};
ghost use Rattle.rv_table.specs.Memory.{code_base};
ghost use Rattle.rv_asm.specs.Filling.{AreApart, filled};
ghost use Rattle.cmm_unit_code.specs.Joined.{IsJoined, IsWhole, joined_code, landing_addresses, procedure_addresses, reference_value, site_addresses, symbol_value};

use cmm_items::Items;
use cmm_unit_code::{Reference, Text, UnitCode};
use rv_asm::{CodeFix, fill};
use rv_table::memory_map::{CODE_BASE, GLOBALS_OFFSET};
use std::alloc::{AllocError, Global};

/// What is named stands for a number: the offset of a global register in the region, the address of a data label, or that of a procedure, or
/// 0 where there is none.
fn reference_value(addresses: &[u64], procedures: &[u64], reference: Reference) -> u64
    ensures { result ≡ reference_value addresses.now procedures.now reference }
{
    let found = match reference {
        Reference::Register(number) => return GLOBALS_OFFSET + 8 * u64::from(number),
        Reference::Label(number) => addresses.get(number as usize),
        Reference::Procedure(number) => procedures.get(number as usize),
    };
    match found {
        Some(address) => *address,
        None => 0,
    }
}

/// What a symbol of a unit stands for that names these, or 0 where it names less.
fn symbol_value(references: &[Reference], addresses: &[u64], procedures: &[u64], symbol: u32) -> u64
    ensures { result ≡ symbol_value (reference_value addresses.now procedures.now) references.now symbol }
{
    match references.get(symbol as usize) {
        Some(reference) => reference_value(addresses, procedures, *reference),
        None => 0,
    }
}

/// Gives each fix its number, in code of a unit that names these and stands at an address.
fn fill_all(
    code: &mut Vec<u8>,
    at: u64,
    fixes: &[CodeFix],
    references: &[Reference],
    addresses: &[u64],
    procedures: &[u64],
)
    requires apart { AreApart 0 fixes.now (length code.old.items) }
    requires room { at + length code.old.items ≤ 2 ^ 30 }
    ensures filled { code.new.items ≡ filled (symbol_value (reference_value addresses.now procedures.now) references.now) at fixes.now code.old.items }
    ensures size { length code.new.items ≡ length code.old.items }
{
    for fix in fixes {
        let value = symbol_value(references, addresses, procedures, fix.symbol);
        let number = fix.number(value, at + u64::from(fix.place));
        fill(code, fix.place as usize, number);
    }
}

/// Adds the addresses of places in code that stands at an address. An error is want of memory.
fn add_addresses(found: &mut Items<u64>, at: u64, offsets: &[u64]) -> Result<(), AllocError>
    requires { All (λ offset. at + offset ≤ 2 ^ 30) offsets.now }
    ensures { OnOk result (found.new ≡ found.old ++ map (λ offset. at + offset) offsets.now) }
{
    for offset in offsets {
        found.push(at + *offset)?;
    }
    Ok(())
}

/// Adds the addresses of places of each procedure, its landings or its sites, in code that stands at an address. An error is want of memory.
fn add_address_lists(
    alloc: Global,
    found: &mut Items<Items<u64>>,
    at: u64,
    lists: &[Items<u64>],
) -> Result<(), AllocError>
    requires { All (All (λ offset. at + offset ≤ 2 ^ 30)) lists.now }
    ensures { OnOk result (found.new ≡ found.old ++ map (λ offsets. map (λ offset. at + offset) offsets) lists.now) }
{
    for offsets in lists {
        let mut moved = Items::new(alloc);
        add_addresses(&mut moved, at, offsets.as_slice())?;
        found.push(moved)?;
    }
    Ok(())
}

/// Where the procedures of units begin, whose codes stand one behind another. An error is want of memory.
fn procedure_addresses(alloc: Global, units: &[UnitCode]) -> Result<Items<u64>, AllocError>
    requires whole { All IsWhole units.now }
    requires room { code_base + sum_by (λ u. length u.code) units.now ≤ 2 ^ 30 }
    ensures { IfOk result (λ found. found ≡ procedure_addresses code_base units.now) }
{
    let mut found = Items::new(alloc);
    let mut at = CODE_BASE;
    for unit in units {
        add_addresses(&mut found, at, unit.procedures.as_slice())?;
        at += unit.code.len() as u64;
    }
    Ok(found)
}

/// Where cuts land in units whose codes stand one behind another. An error is want of memory.
fn landing_addresses(alloc: Global, units: &[UnitCode]) -> Result<Items<Items<u64>>, AllocError>
    requires whole { All IsWhole units.now }
    requires room { code_base + sum_by (λ u. length u.code) units.now ≤ 2 ^ 30 }
    ensures { IfOk result (λ found. found ≡ landing_addresses code_base units.now) }
{
    let mut found = Items::new(alloc);
    let mut at = CODE_BASE;
    for unit in units {
        add_address_lists(alloc, &mut found, at, unit.landings.as_slice())?;
        at += unit.code.len() as u64;
    }
    Ok(found)
}

/// Where control comes back to sites in units whose codes stand one behind another. An error is want of memory.
fn site_addresses(alloc: Global, units: &[UnitCode]) -> Result<Items<Items<u64>>, AllocError>
    requires whole { All IsWhole units.now }
    requires room { code_base + sum_by (λ u. length u.code) units.now ≤ 2 ^ 30 }
    ensures { IfOk result (λ found. found ≡ site_addresses code_base units.now) }
{
    let mut found = Items::new(alloc);
    let mut at = CODE_BASE;
    for unit in units {
        add_address_lists(alloc, &mut found, at, unit.sites.as_slice())?;
        at += unit.code.len() as u64;
    }
    Ok(found)
}

/// The bytes of units, one behind another, in which each fix has its number. An error is want of memory.
fn joined_code(
    alloc: Global,
    units: Items<UnitCode>,
    addresses: &[u64],
    procedures: &[u64],
) -> Result<Items<u8>, AllocError>
    requires whole { All IsWhole units }
    requires room { code_base + sum_by (λ u. length u.code) units ≤ 2 ^ 30 }
    ensures { IfOk result (λ code. code ≡ joined_code (reference_value addresses.now procedures.now) code_base units) }
{
    let mut joined = Vec::new(alloc);
    for unit in units.into_vec() {
        let UnitCode {
            code,
            references,
            fixes,
            ..
        } = unit;
        let mut code = code.into_vec();
        let at = CODE_BASE + joined.len() as u64;
        fill_all(
            &mut code,
            at,
            fixes.as_slice(),
            references.as_slice(),
            addresses,
            procedures,
        );
        joined.extend_from_slice(code.as_slice())?;
    }
    Ok(Items::from_vec(joined))
}

/// Joins the code of units to one text, one behind another, and fills in what their symbols stand for, where data labels have these addresses. `last`
/// is where, in bytes from the beginning, the call of main comes back. An error is want of memory.
pub(crate) fn join(
    alloc: Global,
    units: Items<UnitCode>,
    addresses: &[u64],
    last: u64,
) -> Result<Text, AllocError>
    requires whole { All IsWhole units }
    requires room { code_base + sum_by (λ u. length u.code) units ≤ 2 ^ 30 }
    requires last { last ≤ 2 ^ 30 }
    ensures { IfOk result (IsJoined addresses.now units last) }
{
    let procedures = procedure_addresses(alloc, units.as_slice())?;
    let landings = landing_addresses(alloc, units.as_slice())?;
    let sites = site_addresses(alloc, units.as_slice())?;
    let code = joined_code(alloc, units, addresses, procedures.as_slice())?;
    Ok(Text {
        code,
        start: CODE_BASE,
        last: CODE_BASE + last,
        procedures,
        landings,
        sites,
    })
}
