//! The records of sites.

ghost use Rattle.std.specs.Prelude.{◌≡◌, ◌==◌, ◌+◌, ◌*◌, ◌<◌, ◌^◌, ◌∷◌, [], nat_le, nat_lt, Some, None, option_copied, IsTrue};
ghost use Rattle.std.specs.Option.{option_map};
ghost use Rattle.cmm_rules.specs.declared.rule.Rule.TheVariants.{ImageIsCut};
ghost use Rattle.cmm_format.specs.Formats.{counted_at, optional, ◌when◌};
ghost use Rattle.cmm_image.specs.ImageFormat.{site, site_lists, site_lists_in, has_sites, procedure_at, continuation_number, exits_in_code, is_in_code, is_above, flags, u8, u32, formed, within, width};
ghost use Rattle.cmm_format.specs.Reading.{Reads, Sees};
ghost use Rattle.cmm_image.specs.inside.Wholes.{lists_seen};

use crate::bounds::{Bounds, Procedures};
use crate::procedure_parts::VALUE_COUNT_LIMIT;
use crate::rows::{ContinuationNumber, ProcRow, SiteRow, SpanRow, UnwindRow, VariablePlace};
use cmm_format::{Read, Reader, Unread, broken, read_rows, read_rows8, read_rows16, require};
use cmm_items::Items;
use cmm_rules::Rule;
use cmm_words::Width;
use rv_table::memory_map::CODE_BASE;

/// In the place of a count of values: the site is no yield.
pub(crate) const NO_YIELD: u8 = 255;

impl Read<Procedures> for SiteRow {
    ghost at = { λ procedures previous. (site procedures.bounds.code_length procedures.rows previous).at };

    fn read(
        reader: &mut Reader<'_>,
        procedures: &Procedures,
        previous: Option<&SiteRow>,
    ) -> Result<SiteRow, Unread> {
        let field = reader.left();
        let return_address = reader.u64(Rule::ImageIsCut)?;
        require(
            is_return_above(previous, return_address),
            Rule::BadImageField,
            field,
        )?;
        require(
            procedures.bounds.is_in_code(return_address),
            Rule::ImageOutOfRange,
            field,
        )?;
        let procedure = procedure_number(reader, procedures)?;
        let number = reader.u32(Rule::ImageIsCut)?;
        let (never_returns, aborts) = exit_flags(reader)?;
        let yield_values = yield_values(reader)?;
        let results = results(reader, &procedures.bounds)?;
        let tail = tail_in(reader, procedures, procedure, return_address)?;
        Ok(SiteRow {
            return_address,
            procedure,
            number,
            never_returns,
            aborts,
            yield_values,
            results,
            returns: tail.returns,
            unwinds: tail.unwinds,
            cuts: tail.cuts,
            variables: tail.variables,
            spans: tail.spans,
        })
    }
}

/// The lists at the end of a site's record.
#[derive(Drop)]
pub(crate) struct SiteTail {
    pub(crate) returns: Items<ContinuationNumber>,
    pub(crate) unwinds: Items<UnwindRow>,
    pub(crate) cuts: Items<ContinuationNumber>,
    pub(crate) variables: Items<VariablePlace>,
    pub(crate) spans: Items<SpanRow>,
}

/// The lists of a site of the procedure of a number.
fn tail_in(
    reader: &mut Reader<'_>,
    procedures: &Procedures,
    procedure: u32,
    return_address: u64,
) -> Result<SiteTail, Unread>
    requires { IsTrue (is_in_code procedures.now.bounds.code_length return_address) }
    ensures { Sees lists_seen result ((site_lists_in procedures.now.bounds.code_length (procedure_at procedures.now.rows procedure) return_address).at reader.old.rest.now) reader.new.rest.now }
{
    let bounds = procedures.of(procedure);
    tail(reader, &bounds, return_address)
}

/// The exits of a site, the places of the variables of its procedure, and its spans.
fn tail(reader: &mut Reader<'_>, bounds: &Bounds, return_address: u64) -> Result<SiteTail, Unread>
    requires { IsTrue (is_in_code bounds.now.code_length return_address) }
    ensures { Sees lists_seen result ((site_lists bounds.now.code_length bounds.now.frame bounds.now.variables bounds.now.continuations return_address).at reader.old.rest.now) reader.new.rest.now }
{
    let returns = returns(reader, bounds, return_address)?;
    let unwinds = read_rows16(reader, Rule::ImageIsCut, bounds)?;
    let cuts = read_rows16(reader, Rule::ImageIsCut, bounds)?;
    let variables = read_rows(reader, bounds, bounds.variables)?;
    let spans = read_rows16(reader, Rule::ImageIsCut, bounds)?;
    Ok(SiteTail {
        returns,
        unwinds,
        cuts,
        variables,
        spans,
    })
}

/// Whether an address is above the return address of the site before, if there is one.
pub(crate) fn is_return_above(previous: Option<&SiteRow>, address: u64) -> bool
    ensures { result ≡ is_above (option_map (λ s. s.return_address) (option_copied previous.entry)) address }
{
    match previous {
        None => true,
        Some(row) => row.return_address < address,
    }
}

/// The number of a procedure that may have sites.
fn procedure_number(reader: &mut Reader<'_>, procedures: &Procedures) -> Result<u32, Unread>
    ensures { Reads result ((u32 when (formed (has_sites procedures.now.rows) ∷ [])).at reader.old.rest.now) reader.new.rest.now }
{
    let field = reader.left();
    let number = reader.u32(Rule::ImageIsCut)?;
    require(procedures.has_sites(number), Rule::BadImageField, field)?;
    Ok(number)
}

/// Whether a site never returns, and whether it aborts.
pub(crate) fn exit_flags(reader: &mut Reader<'_>) -> Result<(bool, bool), Unread>
    ensures { Reads result (flags.at reader.old.rest.now) reader.new.rest.now }
{
    let field = reader.left();
    let flags = reader.u8(Rule::ImageIsCut)?;
    require(flags < 4, Rule::BadImageField, field)?;
    Ok((flags % 2 == 1, 2 <= flags))
}

/// How many values a site yields, if it is a yield.
pub(crate) fn yield_values(reader: &mut Reader<'_>) -> Result<Option<u8>, Unread>
    ensures { Reads result ((optional ImageIsCut 1 255 (formed (λ n. nat_le n 64) ∷ [])).at reader.old.rest.now) reader.new.rest.now }
{
    let field = reader.left();
    let count = reader.u8(Rule::ImageIsCut)?;
    if count == NO_YIELD {
        return Ok(None);
    }
    require(count <= VALUE_COUNT_LIMIT, Rule::BadImageField, field)?;
    Ok(Some(count))
}

/// The widths of a site's results.
pub(crate) fn results(reader: &mut Reader<'_>, bounds: &Bounds) -> Result<Items<Width>, Unread>
    ensures { Reads result (counted_at (u8 when (formed (λ n. nat_le n 64) ∷ [])).at (λ previous. width.at) reader.old.rest.now) reader.new.rest.now }
{
    let field = reader.left();
    let count = reader.u8(Rule::ImageIsCut)?;
    require(count <= VALUE_COUNT_LIMIT, Rule::BadImageField, field)?;
    read_rows(reader, bounds, usize::from(count))
}

/// The alternate exits of a site, behind whose jumps the normal return stands.
pub(crate) fn returns(
    reader: &mut Reader<'_>,
    bounds: &Bounds,
    return_address: u64,
) -> Result<Items<ContinuationNumber>, Unread>
    requires { IsTrue (is_in_code bounds.now.code_length return_address) }
    ensures { Reads result (counted_at (u8 when (formed (λ n. nat_le n 64) ∷ within (exits_in_code bounds.now.code_length return_address) ∷ [])).at (λ previous. (continuation_number bounds.now.continuations previous).at) reader.old.rest.now) reader.new.rest.now }
{
    let field = reader.left();
    let count = reader.u8(Rule::ImageIsCut)?;
    require(count <= VALUE_COUNT_LIMIT, Rule::BadImageField, field)?;
    require(
        is_return_in_code(bounds, return_address, count),
        Rule::ImageOutOfRange,
        field,
    )?;
    read_rows(reader, bounds, usize::from(count))
}

/// Whether the normal return, behind `count` alternate exits, lies in the code.
fn is_return_in_code(bounds: &Bounds, return_address: u64, count: u8) -> bool
    requires { IsTrue (is_in_code bounds.now.code_length return_address) }
    ensures { result ≡ exits_in_code bounds.now.code_length return_address count }
{
    return_address - CODE_BASE + 4 * u64::from(count) < bounds.code_length
}
