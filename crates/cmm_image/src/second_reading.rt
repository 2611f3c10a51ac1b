//! The tables of version 2 as they are read: the record of each procedure, with its sites.

ghost use Rattle.std.specs.Prelude.{◌≡◌, ◌∷◌, ◌++◌, [], length, map, flat_map, IfOk, OnOk};
ghost use Rattle.cmm_format.specs.Formats.{rows_behind_at};
ghost use Rattle.cmm_format.specs.Reading.{Reads};
ghost use Rattle.cmm_image.specs.SecondFormat.{in_order, is_total, last_code as code_of_last, procedure_record, record_end, second_tables as tables_second, tables_of as tables_in};
ghost use Rattle.cmm_image.specs.inside.Reading.{ReadsFront};
ghost use Rattle.cmm_image.specs.inside.Records.{AreNew, AreRecords, Distinct};

use crate::bounds::{Bounds, can_have_sites};
use crate::live::{are_among, places_among};
use crate::live_site::{SitesOf, live_sites};
use crate::procedure_record::{ProcedureRecord, placed_procedure, rows_and_places};
use crate::rows::{ProcRow, SiteRow, VariablePlace};
use cmm_format::{Reader, Unread, require};
use cmm_items::Items;
use cmm_rules::Rule;
use indexmap::IndexSet;
use std::alloc::{AllocError, Global};

/// What the records of procedures are read by.
#[derive(Clone, Copy)]
pub(crate) struct Totals {
    pub(crate) bounds: Bounds,
    /// How many procedures there are.
    pub(crate) procedures: u32,
    /// How many sites they have.
    pub(crate) sites: u32,
}

/// The records that have been read.
#[derive(Drop)]
struct Records {
    records: Vec<ProcedureRecord>,
    /// The return addresses of their sites.
    addresses: IndexSet<u64>,
}

impl Records {
    /// Adds the next record. An error is want of memory.
    #[tactic(auto, using(crate::proofs::RecordLaws::next_new, crate::proofs::RecordLaws::next_addresses))]
    fn add(&mut self, next: ProcedureRecord) -> Result<(), AllocError>
        requires kept { AreRecords self.old }
        requires apart { Distinct (flat_map (λ r. r.sites) (self.old.records.items ++ next ∷ [])) }
        ensures kept { OnOk result (AreRecords self.new) }
        ensures records { OnOk result (self.new.records.items ≡ self.old.records.items ++ next ∷ []) }
    {
        add_addresses(&mut self.addresses, next.sites.as_slice())?;
        self.records.push(next)?;
        Ok(())
    }

    /// Whether these sites of the next procedure are the last that there are, if it is the last procedure.
    fn are_all(&self, totals: &Totals, sites: &[SiteRow]) -> bool
        requires { AreRecords self.now }
        ensures { result ≡ is_total totals.now.procedures totals.now.sites self.now.records.items sites.now }
    {
        let is_last = self.records.len() + 1 == totals.procedures as usize;
        let left = (totals.sites as usize).checked_sub(sites.len());
        !is_last || left == Some(self.addresses.len())
    }
}

/// Adds the return addresses of sites, none of which is there.
fn add_addresses(to: &mut IndexSet<u64>, sites: &[SiteRow]) -> Result<(), AllocError>
    requires { AreNew to.old.keys sites.now }
    ensures { OnOk result (to.new.keys ≡ to.old.keys ++ map (λ s. s.return_address) sites.now) }
{
    for site in sites {
        to.insert_full(site.return_address)?;
    }
    Ok(())
}

/// The tables of version 2: the records of so many procedures, which have so many sites.
pub(crate) fn second_tables(
    reader: &mut Reader<'_>,
    totals: &Totals,
) -> Result<(Items<ProcRow>, Items<SiteRow>), Unread>
    ensures { Reads result ((tables_second totals.now.bounds.code_length totals.now.procedures totals.now.sites).at reader.old.rest.now) reader.new.rest.now }
{
    let (records, rest) = read_records(reader.alloc, reader.rest, totals)?;
    reader.rest = rest;
    Ok(tables_of(reader.alloc, records.into_vec())?)
}

/// The records of all procedures, no two of whose sites have one return address, and the bytes behind them.
fn read_records<'a>(
    alloc: Global,
    bytes: &'a [u8],
    totals: &Totals,
) -> Result<(Items<ProcedureRecord>, &'a [u8]), Unread>
    ensures records { ReadsFront result (rows_behind_at (λ before. (procedure_record totals.now.bounds.code_length totals.now.procedures totals.now.sites before).at) totals.now.procedures [] bytes.now) }
    ensures apart { IfOk result (λ read. Distinct (flat_map (λ r. r.sites) read.0)) }
{
    let mut reader = Reader { alloc, rest: bytes };
    let mut read = Records {
        records: Vec::new(alloc),
        addresses: IndexSet::new(alloc),
    };
    for number in 0..totals.procedures {
        let next = read_record(&mut reader, totals, &read, number)?;
        read.add(next)?;
    }
    let Records { records, .. } = read;
    Ok((Items::from_vec(records), reader.rest))
}

/// The record of the next procedure, which has this number.
fn read_record(
    reader: &mut Reader<'_>,
    totals: &Totals,
    earlier: &Records,
    number: u32,
) -> Result<ProcedureRecord, Unread>
    requires kept { AreRecords earlier.now }
    requires number { number ≡ length earlier.now.records.items }
    ensures { Reads result ((procedure_record totals.now.bounds.code_length totals.now.procedures totals.now.sites earlier.now.records.items).at reader.old.rest.now) reader.new.rest.now }
{
    let fields = placed_procedure(
        reader,
        &totals.bounds,
        last_code(earlier.records.as_slice()),
    )?;
    let (variables, places) = rows_and_places(reader.alloc, fields.variables)?;
    let of = SitesOf {
        bounds: Bounds {
            continuations: fields.continuations.len(),
            ..totals.bounds
        },
        procedure: number,
        earlier: &earlier.addresses,
        places: places.as_slice(),
    };
    let sites = live_sites(reader, &of, can_have_sites(fields.frame, fields.return_at))?;
    read_end(reader, totals, earlier, places.as_slice(), sites.as_slice())?;
    Ok(ProcedureRecord {
        row: ProcRow {
            code: fields.code,
            name: fields.name,
            frame: fields.frame,
            return_at: fields.return_at,
            saved: fields.saved,
            variables,
            stack_labels: fields.stack_labels,
            continuations: fields.continuations,
        },
        places,
        sites,
    })
}

/// The address of the code of the last of these procedures, if there is one.
#[tactic(auto, using(crate::proofs::RecordLaws::last_of_records))]
fn last_code(records: &[ProcedureRecord]) -> Option<u64>
    ensures { result ≡ code_of_last records.now }
{
    match records.last() {
        None => None,
        Some(record) => Some(record.row.code),
    }
}

/// The byte at the end of a procedure whose variables have these places, and which has these sites.
fn read_end(
    reader: &mut Reader<'_>,
    totals: &Totals,
    earlier: &Records,
    places: &[VariablePlace],
    sites: &[SiteRow],
) -> Result<u8, Unread>
    requires { AreRecords earlier.now }
    ensures { Reads result ((record_end totals.now.procedures totals.now.sites earlier.now.records.items places.now sites.now).at reader.old.rest.now) reader.new.rest.now }
{
    let field = reader.left();
    let end = reader.u8(Rule::ImageIsCut)?;
    require(end == 0, Rule::BadImageField, field)?;
    let found = places_among(reader.alloc, places.len(), sites)?;
    require(are_among(places, &found), Rule::BadImageField, field)?;
    require(earlier.are_all(totals, sites), Rule::BadImageField, field)?;
    Ok(end)
}

/// The procedures of records, and their sites in the order of their return addresses, no two of which are the same.
fn tables_of(
    alloc: Global,
    records: Vec<ProcedureRecord>,
) -> Result<(Items<ProcRow>, Items<SiteRow>), AllocError>
    requires { Distinct (flat_map (λ r. r.sites) records.items) }
    ensures { IfOk result (λ tables. tables ≡ tables_in records.items) }
{
    let mut rows = Vec::new(alloc);
    let mut sites = Vec::new(alloc);
    for next in records {
        let ProcedureRecord {
            row,
            sites: own,
            ..
        } = next;
        rows.push(row)?;
        sites.append(&mut own.into_vec())?;
    }
    sort_by_address(&mut sites)?;
    Ok((Items::from_vec(rows), Items::from_vec(sites)))
}

/// Puts sites in the order of their return addresses, no two of which are the same. An error is want of memory.
fn sort_by_address(sites: &mut Vec<SiteRow>) -> Result<(), AllocError>
    requires { Distinct sites.old.items }
    ensures { OnOk result (sites.new.items ≡ in_order sites.old.items) }
{
    sites.sort_by(|a, b| a.return_address.cmp(&b.return_address))?;
    Ok(())
}
