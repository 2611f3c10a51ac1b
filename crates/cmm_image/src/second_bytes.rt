//! The bytes of the tables of version 2: the record of each procedure, with its sites.

ghost use Rattle.std.specs.Prelude.{◌≡◌, ◌≤◌, ◌++◌, [], length, replicate, IfOk, OnOk};
ghost use Rattle.cmm_image.specs.SecondFormat.{mask_number as mask_of, places_among as places_at, second_tables};
ghost use Rattle.cmm_image.specs.inside.SecondSpellings.{AreOwned, front_bytes, live_bytes, live_site_bytes, live_sites_bytes, placed_bytes, read_all, record_bytes, record_with};

use crate::live::add_places;
use crate::row_bytes::{flag, put_exits, put_procedure_head, put_site_head};
use crate::rows::{ProcRow, SiteRow, VariablePlace, VariableRow};
use cmm_format::{
    Write, put_count16, put_count32, put_rows8, put_rows16, put_u8, put_u32, put_u64,
};
use cmm_items::Items;
use std::alloc::{AllocError, Global};

/// The records of procedures, each with those of the sites that are its own.
pub(crate) fn put_second_tables(
    out: &mut Vec<u8>,
    procedures: &[ProcRow],
    sites: &[SiteRow],
) -> Result<(), AllocError>
    ensures { OnOk result (out.new.items ≡ out.old.items ++ (second_tables 0 0 0).spelled (procedures.now, sites.now)) }
{
    let owned = owned_sites(*out.allocator(), procedures.len(), sites)?;
    for (procedure, own) in procedures.iter().zip(owned.as_slice()) {
        put_record(out, procedure, own.as_slice())?;
    }
    Ok(())
}

/// For each of so many procedures, its sites in their order.
fn owned_sites<'a>(
    alloc: Global,
    procedures: usize,
    sites: &'a [SiteRow],
) -> Result<Vec<Items<&'a SiteRow>>, AllocError>
    ensures { IfOk result (λ owned. AreOwned procedures owned.items sites.now) }
{
    let mut owned = no_sites(alloc, procedures)?;
    for site in sites {
        let procedure = site.procedure as usize;
        if procedure < owned.len() {
            owned[procedure].push(site)?;
        }
    }
    Ok(owned)
}

/// No sites for each of so many procedures.
fn no_sites<'a>(alloc: Global, procedures: usize) -> Result<Vec<Items<&'a SiteRow>>, AllocError>
    ensures { IfOk result (λ owned. owned.items ≡ replicate procedures []) }
{
    let mut owned = Vec::new(alloc);
    for _ in 0..procedures {
        owned.push(Items::new(alloc))?;
    }
    Ok(owned)
}

/// The record of a procedure, which has these sites.
fn put_record(out: &mut Vec<u8>, procedure: &ProcRow, sites: &[&SiteRow]) -> Result<(), AllocError>
    ensures { OnOk result (out.new.items ≡ out.old.items ++ record_bytes (record_with procedure.now (read_all sites.now))) }
{
    let variables = procedure.variables.len();
    let places = places_among(*out.allocator(), variables, sites)?;
    put_front(out, procedure, places.as_slice())?;
    put_live_sites(out, variables, sites)?;
    put_u8(out, 0)
}

/// The place of each of so many variables: that at the first of these sites where it is live.
fn places_among(
    alloc: Global,
    variables: usize,
    sites: &[&SiteRow],
) -> Result<Vec<VariablePlace>, AllocError>
    ensures { IfOk result (λ places. places.items ≡ places_at variables (read_all sites.now)) }
{
    let mut places = vec![in alloc; VariablePlace::Dead; variables]?;
    for site in sites {
        add_places(&mut places, site.variables.as_slice())?;
    }
    Ok(places)
}

/// The fields of a procedure's record up to its sites.
fn put_front(
    out: &mut Vec<u8>,
    procedure: &ProcRow,
    places: &[VariablePlace],
) -> Result<(), AllocError>
    requires { length procedure.now.variables ≤ length places.now }
    ensures { OnOk result (out.new.items ≡ out.old.items ++ front_bytes procedure.now places.now) }
{
    put_procedure_head(out, procedure)?;
    put_rows8(out, procedure.saved.as_slice())?;
    put_placed(out, procedure.variables.as_slice(), places)?;
    put_rows16(out, procedure.stack_labels.as_slice())?;
    put_rows16(out, procedure.continuations.as_slice())
}

/// Variables with their places, behind their count.
fn put_placed(
    out: &mut Vec<u8>,
    rows: &[VariableRow],
    places: &[VariablePlace],
) -> Result<(), AllocError>
    requires { length rows.now ≤ length places.now }
    ensures { OnOk result (out.new.items ≡ out.old.items ++ placed_bytes rows.now places.now) }
{
    put_count16(out, rows.len())?;
    for (row, place) in rows.iter().zip(places) {
        row.write(out)?;
        place.write(out)?;
    }
    Ok(())
}

/// The sites of a procedure that has so many variables, behind their count.
fn put_live_sites(out: &mut Vec<u8>, variables: usize, sites: &[&SiteRow]) -> Result<(), AllocError>
    ensures { OnOk result (out.new.items ≡ out.old.items ++ live_sites_bytes variables (read_all sites.now)) }
{
    put_count32(out, sites.len())?;
    for site in sites {
        put_live_site(out, variables, site)?;
    }
    Ok(())
}

/// A site of a procedure that has so many variables.
fn put_live_site(out: &mut Vec<u8>, variables: usize, site: &SiteRow) -> Result<(), AllocError>
    ensures { OnOk result (out.new.items ≡ out.old.items ++ live_site_bytes variables site.now) }
{
    put_u64(out, site.return_address)?;
    put_site_head(out, site)?;
    put_exits(out, site)?;
    put_live(out, variables, site.variables.as_slice())?;
    put_rows16(out, site.spans.as_slice())
}

/// Which of so many variables are live at a site that gives them these places, a byte for each eight variables begun.
fn put_live(out: &mut Vec<u8>, variables: usize, places: &[VariablePlace]) -> Result<(), AllocError>
    ensures { OnOk result (out.new.items ≡ out.old.items ++ live_bytes variables places.now) }
{
    let mut rest = places;
    for _ in 0..variables.div_ceil(8) {
        let (group, others) = rest.split_at(rest.len().min(8));
        put_u8(out, mask_number(group))?;
        rest = others;
    }
    Ok(())
}

/// The bits of up to eight variables that have these places, the first the lowest.
#[tactic(auto, using(crate::proofs::SecondByteLaws::bits_small))]
fn mask_number(places: &[VariablePlace]) -> u8
    requires { length places.now ≤ 8 }
    ensures { result ≡ mask_of places.now }
{
    match places {
        [] => 0,
        [first, others @ ..] => flag(first.is_live()) + 2 * mask_number(others),
    }
}
