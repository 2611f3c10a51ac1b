//! Which fault is named of units, and what is known of them where none is.

ghost use Rattle.std.specs.Prelude.{◌≡◌, ◌<◌, ◌^◌, List, map, length, IfOk, IfErr};
ghost use Rattle.std.specs.List.{zip};
ghost use Rattle.cmm_static_semantics.specs.Declarations.{NamedUnit, named_units};
ghost use Rattle.cmm_static_semantics.specs.Linking.{program_of};
ghost use Rattle.cmm_static_semantics.specs.Faults.{AreAccepted, fault_at, place_of};
ghost use Rattle.cmm_check_units.specs.Faults.{IsFaultOf};
ghost use Rattle.cmm_check_units.specs.inside.Flat.{flat_unit};
ghost use Rattle.cmm_check_units.specs.inside.Found.{IsFound};
ghost use Rattle.cmm_check_units.specs.inside.Units.{AreEarlier, broken_placed, checked_unit, unit_flat};

use crate::earlier::Earlier;
use crate::fault::StaticFault;
use crate::together::fault_of_all;
use crate::unit::{first_broken, names_of};
use crate::unit_names::UnitNames;
use cmm_ast::{Place, Unit};
use cmm_checked::{Checked, CheckedUnit};
use cmm_items::Items;
use cmm_linkage::{Gathered, Linkage};
use cmm_static_semantics::{Fault, Sense, Spot};
use cmm_symbols::Numbers;
use std::alloc::{AllocError, Global};

/// Where a rule is broken: in which unit, from 0, and where in it.
#[derive(Clone, Copy)]
pub(crate) struct Broken {
    pub unit: u32,
    pub spot: Spot,
}

/// What is found of units by the rules that are tested unit by unit.
#[derive(Drop)]
pub(crate) enum Found<'a> {
    /// The first rule that they break.
    Broken(Broken),
    /// They break none: what is known of them.
    Unbroken(Earlier<'a>),
}

/// All units, laid flat.
fn names_of_all<'a>(alloc: Global, units: &'a [Unit]) -> Result<Items<UnitNames<'a>>, AllocError>
    ensures { IfOk result (λ named. map unit_flat named ≡ map flat_unit (named_units units.now)) }
{
    let mut named = Items::new(alloc);
    let mut numbers = Numbers::first();
    for unit in units {
        let names = names_of(alloc, unit, numbers)?;
        numbers = numbers.after(names.flat.things())?;
        named.push(names)?;
    }
    Ok(named)
}

/// What all units know of each other.
fn linkage_of_all<'a>(alloc: Global, units: &[UnitNames<'a>]) -> Result<Linkage<'a>, AllocError>
    ensures { IfOk result (λ linkage. (us : List NamedUnit) → map unit_flat units.now ≡ map flat_unit us → linkage ≡ program_of us) }
{
    let mut gathered = Gathered::none(alloc);
    for unit in units {
        gathered = gathered.with_unit(alloc, &unit.table, unit.exports.as_slice())?;
    }
    let linkage = gathered.numbered()?;
    Ok(linkage)
}

/// What is found of units by the rules that are tested unit by unit.
fn first_of_all<'a>(
    alloc: Global,
    units: &[UnitNames<'a>],
    linkage: &Linkage<'a>,
) -> Result<Found<'a>, AllocError>
    requires { length units.now < 2 ^ 32 }
    ensures { IfOk result (IsFound linkage.now (map unit_flat units.now)) }
{
    let mut earlier = Earlier::none(alloc);
    let mut number: u32 = 0;
    for unit in units {
        let first = first_broken(alloc, unit, linkage, &mut earlier)?;
        match first {
            Some(spot) => return Ok(Found::Broken(Broken { unit: number, spot })),
            None => number += 1,
        }
    }
    Ok(Found::Unbroken(earlier))
}

/// Where a token of a unit stands.
fn place_of(unit: &Unit, token: u32) -> Place
    ensures { result ≡ place_of unit.now token }
{
    match unit.places.get(token as usize) {
        Some(place) => *place,
        None => Place { line: 0, column: 0 },
    }
}

/// The fault that is named of what is broken in units.
fn fault_at(units: &[Unit], broken: Broken) -> Fault
    ensures { result ≡ fault_at units.now (broken_placed broken) }
{
    let place = match units.get(broken.unit as usize) {
        Some(unit) => place_of(unit, broken.spot.token),
        None => Place { line: 0, column: 0 },
    };
    Fault {
        rule: broken.spot.rule,
        unit: broken.unit,
        line: place.line,
        column: place.column,
    }
}

/// What is known of units that break no rule. Else the fault that is named of them.
fn unbroken<'a>(
    alloc: Global,
    units: &[Unit],
    named: &[UnitNames<'a>],
    linkage: &Linkage<'a>,
) -> Result<Earlier<'a>, StaticFault>
    requires size { length units.now < 2 ^ 32 }
    requires named { map unit_flat named.now ≡ map flat_unit (named_units units.now) }
    requires linkage { linkage.now ≡ program_of (named_units units.now) }
    ensures accepted { IfOk result (λ _. AreAccepted units.now) }
    ensures known { IfOk result (λ known. AreEarlier linkage.now known (map unit_flat named.now)) }
    ensures err { IfErr result (IsFaultOf units.now) }
{
    let found = first_of_all(alloc, named, linkage)?;
    match found {
        Found::Broken(broken) => Err(StaticFault::At(fault_at(units, broken))),
        Found::Unbroken(known) => match fault_of_all(named, linkage, &known.sums) {
            Some(fault) => Err(StaticFault::At(fault)),
            None => Ok(known),
        },
    }
}

/// Units that break no rule, each with what its declarations mean.
fn with_senses<'a>(
    alloc: Global,
    named: Items<UnitNames<'a>>,
    senses: Items<Items<Sense>>,
) -> Result<Items<CheckedUnit<'a>>, AllocError>
    ensures { IfOk result (λ units. units ≡ map checked_unit (zip named.entry senses)) }
{
    let mut units = Items::new(alloc);
    for (names, senses) in named.into_vec().into_iter().zip(senses.into_vec()) {
        let UnitNames {
            flat,
            exports,
            table,
            ..
        } = names;
        units.push(CheckedUnit {
            flat,
            exports,
            table,
            senses,
        })?;
    }
    Ok(units)
}

/// Units that break no static rule, 20 to 40, and what is known of them. Else the fault is the first by unit, place and rule; or, where none of the
/// others is broken, that no unit exports `main`, rule 36, or that a limit over all units is passed, rule 40, at the beginning of the first unit.
pub fn check_units<'a>(alloc: Global, units: &'a [Unit]) -> Result<Checked<'a>, StaticFault>
    requires { length units.now < 2 ^ 32 }
    ensures ok { IfOk result (λ checked. checked ≡ units.now) }
    ensures accepted { IfOk result (λ _. AreAccepted units.now) }
    ensures err { IfErr result (IsFaultOf units.now) }
{
    let named = names_of_all(alloc, units)?;
    let linkage = linkage_of_all(alloc, named.as_slice())?;
    let known = unbroken(alloc, units, named.as_slice(), &linkage)?;
    let Earlier {
        senses,
        registers,
        ..
    } = known;
    let checked = with_senses(alloc, named, senses)?;
    Ok(Checked::new(checked, linkage, registers))
}
