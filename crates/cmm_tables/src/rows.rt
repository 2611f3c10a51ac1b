//! The rows of a procedure's sites.

ghost use Rattle.std.specs.Prelude.{◌≡◌, [], map, slice_get, slice_index_or, Some, IfOk};
ghost use Rattle.std.specs.List.{range_with_len};
ghost use Rattle.cmm_bitset.specs.Sets.{has};
ghost use Rattle.cmm_program.specs.Orders.{target_width};
ghost use Rattle.cmm_tables.specs.Premises.{AreExactSets, AreShort, HasShortSites};
ghost use Rattle.cmm_tables.specs.SiteRows.{continuation_number, local_place, place_while, unplaced_site, unplaced_sites};

use crate::unplaced::UnplacedSite;
use cmm_bitset::BitSet;
use cmm_chain::Location;
use cmm_image::{ContinuationNumber, VariablePlace};
use cmm_items::Items;
use cmm_program::{Proc, Site, Target};
use cmm_words::Width;
use std::alloc::{AllocError, Global};

/// Where a variable with this place is kept while its activation waits, if it is live.
fn place_while(live: bool, place: Location) -> VariablePlace
    ensures { result ≡ place_while live place }
{
    if !live {
        return VariablePlace::Dead;
    }
    match place {
        Location::Slot(offset) => VariablePlace::Slot(offset),
        Location::Saved(register) => VariablePlace::Register(register),
        Location::Temp(_) => VariablePlace::Dead,
    }
}

/// The place of a local by its number; for one that has none, a register that lasts over no call.
fn local_place(places: &[Location], number: u32) -> Location
    ensures { result ≡ local_place places.now number }
{
    match places.get(number as usize) {
        Some(place) => *place,
        None => Location::Temp(12),
    }
}

/// Whether the set of a site has a variable; none has where there is no set.
fn is_live(live: &[BitSet], site: usize, number: u32) -> bool
    ensures { result ≡ has (slice_index_or live.now site []) number }
{
    match live.get(site) {
        Some(set) => number < set.size() && set.has(number),
        None => false,
    }
}

/// Where each of `count` variables is kept while its activation waits at a site.
fn variable_places(
    alloc: Global,
    count: u32,
    places: &[Location],
    live: &[BitSet],
    site: usize,
) -> Result<Items<VariablePlace>, AllocError>
    ensures { IfOk result (λ rows. rows ≡ map (λ v. place_while (has (slice_index_or live.now site []) v) (local_place places.now v)) (range_with_len 0 count)) }
{
    let mut rows = Items::new(alloc);
    for number in 0..count {
        rows.push(place_while(is_live(live, site, number), local_place(places, number)))?;
    }
    Ok(rows)
}

/// The numbers of continuations.
fn continuation_numbers(
    alloc: Global,
    continuations: &[u32],
) -> Result<Items<ContinuationNumber>, AllocError>
    requires { AreShort continuations.now }
    ensures { IfOk result (λ numbers. numbers ≡ map continuation_number continuations.now) }
{
    let mut numbers = Items::new(alloc);
    for k in continuations {
        numbers.push(ContinuationNumber(*k as u16))?;
    }
    Ok(numbers)
}

/// The width of what takes a result.
fn target_width(target: &Target) -> Width
    ensures { result ≡ target_width target.now }
{
    match *target {
        Target::Variable(_, width) => width,
        Target::Register(_, width) => width,
    }
}

/// The widths of what takes results.
fn widths(alloc: Global, results: &[Target]) -> Result<Items<Width>, AllocError>
    ensures { IfOk result (λ widths. widths ≡ map target_width results.now) }
{
    let mut widths = Items::new(alloc);
    for target in results {
        widths.push(target_width(target))?;
    }
    Ok(widths)
}

/// The row of a site, by its number and that of its procedure.
fn site_row(
    alloc: Global,
    procedure: u32,
    p: &Proc,
    number: usize,
    site: &Site,
    places: &[Location],
    live: &[BitSet],
) -> Result<UnplacedSite, AllocError>
    requires short { HasShortSites p.now }
    requires live { AreExactSets p.now live.now }
    requires site { slice_get p.now.sites number ≡ Some site.now }
    ensures { IfOk result (λ row. row ≡ unplaced_site p.now (local_place places.now) procedure number site.now) }
{
    Ok(UnplacedSite {
        procedure,
        number: number as u32,
        never_returns: site.never,
        aborts: site.aborts,
        yield_values: site.yield_values,
        results: widths(alloc, site.results.as_slice())?,
        returns: continuation_numbers(alloc, site.returns.as_slice())?,
        unwinds: continuation_numbers(alloc, site.unwinds.as_slice())?,
        cuts: continuation_numbers(alloc, site.cuts.as_slice())?,
        variables: variable_places(alloc, p.vars.len() as u32, places, live, number)?,
        spans: Items::from_slice(alloc, site.spans.as_slice())?,
    })
}

/// The rows of all sites of a procedure, by its number, in the order of theirs. Its locals have these places, and the sets, one a site, have just the variables that
/// are live there. An error is want of memory.
pub fn site_rows(
    alloc: Global,
    procedure: u32,
    p: &Proc,
    places: &[Location],
    live: &[BitSet],
) -> Result<Items<UnplacedSite>, AllocError>
    requires short { HasShortSites p.now }
    requires live { AreExactSets p.now live.now }
    ensures { IfOk result (λ rows. rows ≡ unplaced_sites p.now (local_place places.now) procedure) }
{
    let mut rows = Items::new(alloc);
    for (number, site) in p.sites.as_slice().iter().enumerate() {
        rows.push(site_row(alloc, procedure, p, number, site, places, live)?)?;
    }
    Ok(rows)
}
