//! The rows of sites.

ghost use Rattle.std.specs.Prelude.{◌≡◌, ◌<◌, ◌≤◌, ◌^◌, ◌++◌, length, map, slice_index, IsTrue, IfOk, OnOk};
ghost use Rattle.std.specs.List.{All, IsDistinct, zip};
ghost use Rattle.std.specs.List.Sorted.{IsPermutation};
ghost use Rattle.cmm_program.specs.Limits.{procedure_limit};
ghost use Rattle.cmm_tables.specs.Premises.{HasShortSites};
ghost use Rattle.cmm_tables.specs.SiteRows.{placed_site, span_row, unwind_row};
ghost use Rattle.cmm_link.specs.Linked.{AreSitesOf, KnowLive};
ghost use Rattle.cmm_link.specs.Rows.{site_rows};
ghost use Rattle.cmm_link.specs.inside.Ascending.{same_address};
ghost use Rattle.cmm_link.specs.inside.Named.{HasSmallSpans, IsSmallSpan};
ghost use Rattle.cmm_link.specs.inside.Values.{value_at};
ghost use Rattle.cmm_unit_code.specs.Texts.{ascend_above};

use crate::filling::address_of;
use cmm_allocate::ProcedurePlaces;
use cmm_image::{ContinuationNumber, SiteRow, SpanRow, UnwindRow};
use cmm_items::Items;
use cmm_program::Proc;
use cmm_tables::UnplacedSite;
use cmm_unit_code::Text;
use cmm_words::Constant;
use std::alloc::{AllocError, Global};

/// Sorts rows by their return addresses, of which no two are the same, so that each is above the one before. An error is want of memory.
fn sort_by_address(rows: &mut Vec<SiteRow>) -> Result<(), AllocError>
    requires apart { IsDistinct same_address rows.old.items }
    requires some { All (λ row. 0 < row.return_address) rows.old.items }
    ensures same { IsPermutation rows.old.items rows.new.items }
    ensures ascending { OnOk result (IsTrue (ascend_above 0 (map (λ row. row.return_address) rows.new.items))) }
{
    rows.sort_by(|a, b| a.return_address.cmp(&b.return_address))?;
    Ok(())
}

/// The number that a constant comes to, where the code of procedures and data labels have these addresses.
fn value_at(constant: Constant, codes: &[u64], labels: &[u64]) -> u64
    ensures { result ≡ value_at codes.now labels.now constant }
{
    match constant {
        Constant::Number(number, _) => number,
        Constant::Code { proc, plus } => address_of(codes, proc).wrapping_add(plus),
        Constant::Address { label, plus } => address_of(labels, label).wrapping_add(plus),
    }
}

/// The unwind exits of a site, in a procedure whose continuations have these landings.
fn unwind_rows(
    alloc: Global,
    continuations: &[ContinuationNumber],
    landings: &[u64],
) -> Result<Items<UnwindRow>, AllocError>
    ensures { IfOk result (λ rows. rows ≡ map (unwind_row (λ k. slice_index landings.now k)) continuations.now) }
{
    let mut rows = Items::new(alloc);
    for continuation in continuations {
        rows.push(UnwindRow {
            continuation: *continuation,
            landing: address_of(landings, u32::from(continuation.0)),
        })?;
    }
    Ok(rows)
}

/// The spans round a site, with the numbers that their values come to.
fn span_rows(
    alloc: Global,
    spans: &[(u64, Constant)],
    codes: &[u64],
    labels: &[u64],
) -> Result<Items<SpanRow>, AllocError>
    ensures rows { IfOk result (λ rows. rows ≡ map (span_row (value_at codes.now labels.now)) spans.now) }
    ensures small { IfOk result (λ rows. All IsSmallSpan rows) }
{
    let mut rows = Items::new(alloc);
    for (token, constant) in spans {
        rows.push(SpanRow {
            token: *token,
            value: value_at(*constant, codes, labels),
        })?;
    }
    Ok(rows)
}

/// The row of a site to which control comes back at an address.
fn placed(
    alloc: Global,
    site: UnplacedSite,
    address: u64,
    landings: &[u64],
    codes: &[u64],
    labels: &[u64],
) -> Result<SiteRow, AllocError>
    ensures row { IfOk result (λ row. row ≡ placed_site (λ k. slice_index landings.now k) (value_at codes.now labels.now) address site) }
    ensures small { IfOk result HasSmallSpans }
{
    let unwinds = unwind_rows(alloc, site.unwinds.as_slice(), landings)?;
    let spans = span_rows(alloc, site.spans.as_slice(), codes, labels)?;
    Ok(SiteRow {
        return_address: address,
        procedure: site.procedure,
        number: site.number,
        never_returns: site.never_returns,
        aborts: site.aborts,
        yield_values: site.yield_values,
        results: site.results,
        returns: site.returns,
        unwinds,
        cuts: site.cuts,
        variables: site.variables,
        spans,
    })
}

/// Adds the rows of a procedure's sites, to which control comes back at these addresses. An error is want of memory.
fn add_sites(
    alloc: Global,
    rows: &mut Vec<SiteRow>,
    sites: Items<UnplacedSite>,
    addresses: &[u64],
    landings: &[u64],
    text: &Text,
    labels: &[u64],
) -> Result<(), AllocError>
    ensures rows { OnOk result (rows.new.items ≡ rows.old.items ++ map (λ of. placed_site (λ k. slice_index landings.now k) (value_at text.now.procedures labels.now) of.1 of.0) (zip sites addresses.now)) }
    ensures small { OnOk result (All HasSmallSpans rows.old.items → All HasSmallSpans rows.new.items) }
{
    let codes = text.procedures.as_slice();
    for (site, address) in sites.into_vec().into_iter().zip(addresses) {
        rows.push(placed(alloc, site, *address, landings, codes, labels)?)?;
    }
    Ok(())
}

/// The rows of the sites of all procedures, one procedure after another.
fn all_sites(
    alloc: Global,
    procs: &[Proc],
    places: &[ProcedurePlaces],
    text: &Text,
    labels: &[u64],
) -> Result<Vec<SiteRow>, AllocError>
    requires short { All HasShortSites procs.now }
    requires count { length procs.now ≤ procedure_limit }
    requires live { KnowLive procs.now places.now }
    requires landings { length text.now.landings ≡ length procs.now }
    requires sites { length text.now.sites ≡ length procs.now }
    ensures rows { IfOk result (λ rows. rows.items ≡ site_rows (value_at text.now.procedures labels.now) procs.now places.now text.now.landings text.now.sites) }
    ensures small { IfOk result (λ rows. All HasSmallSpans rows.items) }
{
    let landings = text.landings.as_slice();
    let addresses = text.sites.as_slice();
    let mut rows = Vec::new(alloc);
    for (number, p) in procs.iter().enumerate() {
        let k = &places[number];
        let sites = cmm_tables::site_rows(
            alloc,
            number as u32,
            p,
            k.locals.as_slice(),
            k.live.sites.as_slice(),
        )?;
        add_sites(
            alloc,
            &mut rows,
            sites,
            addresses[number].as_slice(),
            landings[number].as_slice(),
            text,
            labels,
        )?;
    }
    Ok(rows)
}

/// The rows of the sites of all procedures with these places, in ascending order of the addresses at which control comes back to them in a text. Data labels have
/// these addresses. An error is want of memory.
pub(crate) fn site_rows(
    alloc: Global,
    procs: &[Proc],
    places: &[ProcedurePlaces],
    text: &Text,
    labels: &[u64],
) -> Result<Items<SiteRow>, AllocError>
    requires short { All HasShortSites procs.now }
    requires count { length procs.now ≤ procedure_limit }
    requires live { KnowLive procs.now places.now }
    requires landings { length text.now.landings ≡ length procs.now }
    requires sites { length text.now.sites ≡ length procs.now }
    requires apart { IsDistinct same_address (site_rows (value_at text.now.procedures labels.now) procs.now places.now text.now.landings text.now.sites) }
    requires some { All (λ row. 0 < row.return_address) (site_rows (value_at text.now.procedures labels.now) procs.now places.now text.now.landings text.now.sites) }
    ensures rows { IfOk result (AreSitesOf (site_rows (value_at text.now.procedures labels.now) procs.now places.now text.now.landings text.now.sites)) }
    ensures small { IfOk result (λ rows. All HasSmallSpans rows) }
{
    let mut rows = all_sites(alloc, procs, places, text, labels)?;
    sort_by_address(&mut rows)?;
    Ok(Items::from_vec(rows))
}
