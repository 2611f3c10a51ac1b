//! The records of sites in version 2, which stand in those of procedures.

ghost use Rattle.std.specs.Prelude.{◌≡◌, ◌==◌, ◌||◌, ◌∷◌, [], IsTrue, IfOk, not, option_copied};
ghost use Rattle.std.specs.List.{list_any};
ghost use Rattle.std.specs.Option.{option_map};
ghost use Rattle.cmm_format.specs.Formats.{counted_at, ◌when◌};
ghost use Rattle.cmm_format.specs.Reading.{Reads, Sees};
ghost use Rattle.cmm_image.specs.ImageFormat.{above, formed, in_code, is_in_code, lists_with, u32, u64};
ghost use Rattle.cmm_image.specs.SecondFormat.{is_unlike as is_unlike_all, live_places as places_format, live_site};
ghost use Rattle.cmm_image.specs.inside.Wholes.{lists_seen};

use crate::bounds::Bounds;
use crate::live::live_places;
use crate::rows::{SiteRow, VariablePlace};
use crate::site::{SiteTail, exit_flags, is_return_above, results, returns, yield_values};
use cmm_format::{Read, Reader, Unread, read_rows, read_rows16, require};
use cmm_items::Items;
use cmm_rules::Rule;
use indexmap::IndexSet;

/// What the records of the sites of a procedure are read by.
#[derive(Drop)]
pub(crate) struct SitesOf<'a> {
    /// With the number of the procedure's continuations.
    pub(crate) bounds: Bounds,
    /// The number of the procedure.
    pub(crate) procedure: u32,
    /// The return addresses of the sites of earlier procedures.
    pub(crate) earlier: &'a IndexSet<u64>,
    /// The places of the procedure's variables.
    pub(crate) places: &'a [VariablePlace],
}

impl<'a> Read<SitesOf<'a>> for SiteRow {
    ghost at = { λ of previous. (live_site of.bounds.code_length of.procedure of.earlier.now.keys of.places.now of.bounds.continuations previous).at };

    fn read(
        reader: &mut Reader<'_>,
        of: &SitesOf<'a>,
        previous: Option<&SiteRow>,
    ) -> Result<SiteRow, Unread> {
        let return_address = new_address(reader, of, previous)?;
        let number = reader.u32(Rule::ImageIsCut)?;
        let (never_returns, aborts) = exit_flags(reader)?;
        let yield_values = yield_values(reader)?;
        let results = results(reader, &of.bounds)?;
        let tail = live_tail(reader, of, return_address)?;
        Ok(SiteRow {
            return_address,
            procedure: of.procedure,
            number,
            never_returns,
            aborts,
            yield_values,
            results,
            returns: tail.returns,
            unwinds: tail.unwinds,
            cuts: tail.cuts,
            variables: tail.variables,
            spans: tail.spans,
        })
    }
}

/// The return address of a site, behind another site of its procedure, if there is one.
fn new_address(
    reader: &mut Reader<'_>,
    of: &SitesOf<'_>,
    previous: Option<&SiteRow>,
) -> Result<u64, Unread>
    ensures field { Reads result ((u64 when (above (option_map (λ s. s.return_address) (option_copied previous.entry)) ∷ formed (is_unlike_all of.now.earlier.now.keys) ∷ in_code of.now.bounds.code_length ∷ [])).at reader.old.rest.now) reader.new.rest.now }
    ensures code { IfOk result (λ address. IsTrue (is_in_code of.now.bounds.code_length address)) }
{
    let field = reader.left();
    let address = reader.u64(Rule::ImageIsCut)?;
    require(
        is_return_above(previous, address),
        Rule::BadImageField,
        field,
    )?;
    require(is_unlike(of.earlier, address), Rule::BadImageField, field)?;
    require(of.bounds.is_in_code(address), Rule::ImageOutOfRange, field)?;
    Ok(address)
}

/// Whether an address is none of these.
fn is_unlike(earlier: &IndexSet<u64>, address: u64) -> bool
    ensures { result ≡ is_unlike_all earlier.now.keys address }
{
    !earlier.contains(&address)
}

/// The exits of a site, the places of those variables of its procedure that are live, and its spans.
fn live_tail(
    reader: &mut Reader<'_>,
    of: &SitesOf<'_>,
    return_address: u64,
) -> Result<SiteTail, Unread>
    requires { IsTrue (is_in_code of.now.bounds.code_length return_address) }
    ensures { Sees lists_seen result ((lists_with (places_format of.now.places.now) of.now.bounds.code_length of.now.bounds.continuations return_address).at reader.old.rest.now) reader.new.rest.now }
{
    let returns = returns(reader, &of.bounds, return_address)?;
    let unwinds = read_rows16(reader, Rule::ImageIsCut, &of.bounds)?;
    let cuts = read_rows16(reader, Rule::ImageIsCut, &of.bounds)?;
    let variables = live_places(reader, of.places)?;
    let spans = read_rows16(reader, Rule::ImageIsCut, &of.bounds)?;
    Ok(SiteTail {
        returns,
        unwinds,
        cuts,
        variables,
        spans,
    })
}

/// The sites of a procedure, behind their count, which is 0 unless it may have sites.
pub(crate) fn live_sites(
    reader: &mut Reader<'_>,
    of: &SitesOf<'_>,
    may_have_sites: bool,
) -> Result<Items<SiteRow>, Unread>
    ensures { Reads result (counted_at (u32 when (formed (λ n. (n == 0) || may_have_sites) ∷ [])).at (λ previous. (live_site of.now.bounds.code_length of.now.procedure of.now.earlier.now.keys of.now.places.now of.now.bounds.continuations previous).at) reader.old.rest.now) reader.new.rest.now }
{
    let field = reader.left();
    let count = reader.u32(Rule::ImageIsCut)?;
    require(count == 0 || may_have_sites, Rule::BadImageField, field)?;
    read_rows(reader, of, count as usize)
}
