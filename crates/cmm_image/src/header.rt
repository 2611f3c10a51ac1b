//! The header of an image.

ghost use Rattle.std.specs.Prelude.{◌≡◌, ◌∷◌, []};
ghost use Rattle.cmm_image.specs.ImageFormat.{header, counts, in_code, is_code_length as is_length_of_code, is_procedure_count as is_count_of_procedures, is_version as is_any_version, u64};
ghost use Rattle.cmm_format.specs.Formats.{◌when◌};
ghost use Rattle.cmm_format.specs.Reading.{Reads, Sees};
ghost use Rattle.cmm_image.specs.inside.Wholes.{counts_seen};

use crate::bounds::is_code_address;
use cmm_format::{Reader, Unread, require};
use cmm_rules::Rule;
use rv_table::memory_map::{CODE_LENGTH_LIMIT, DATA_LENGTH_LIMIT, GLOBAL_COUNT_LIMIT};

/// The first four bytes of an image, "CMMI", as a number.
pub(crate) const MAGIC: u32 = 0x494d_4d43;

/// The version whose tables are those of all procedures and then those of all sites.
const FIRST_VERSION: u32 = 1;

/// The version in which the sites of a procedure stand in its record, and the place of each of its variables once. A `build` writes it.
pub const SECOND_VERSION: u32 = 2;

/// The most procedures.
const PROCEDURE_COUNT_LIMIT: u32 = 65_535;

/// The header: the lengths, addresses and counts of what follows.
#[derive(Clone, Copy)]
pub(crate) struct Header {
    /// The version of the format.
    pub(crate) version: u32,
    /// In bytes.
    pub(crate) code_length: u64,
    /// In bytes.
    pub(crate) data_length: u64,
    /// The address at which a run begins.
    pub(crate) start: u64,
    /// The return address of main's call.
    pub(crate) last: u64,
    pub(crate) procedures: u32,
    pub(crate) sites: u32,
    pub(crate) labels: u32,
    pub(crate) globals: u32,
    /// Which procedure is main.
    pub(crate) main: u32,
}

/// The counts of the records, and which procedure is main.
#[derive(Clone, Copy)]
pub(crate) struct RowCounts {
    pub(crate) procedures: u32,
    pub(crate) sites: u32,
    pub(crate) labels: u32,
    pub(crate) globals: u32,
    pub(crate) main: u32,
}

/// Takes the header from the front of the bytes.
pub(crate) fn read_header(reader: &mut Reader<'_>) -> Result<Header, Unread>
    ensures { Reads result (header.at reader.old.rest.now) reader.new.rest.now }
{
    let field = reader.left();
    let magic = reader.u32(Rule::ImageIsCut)?;
    require(magic == MAGIC, Rule::NotAnImage, field)?;
    let field = reader.left();
    let version = reader.u32(Rule::ImageIsCut)?;
    require(is_version(version), Rule::OtherImageVersion, field)?;
    let field = reader.left();
    let code_length = reader.u64(Rule::ImageIsCut)?;
    require(is_code_length(code_length), Rule::ImageOutOfRange, field)?;
    let field = reader.left();
    let data_length = reader.u64(Rule::ImageIsCut)?;
    require(
        data_length <= DATA_LENGTH_LIMIT,
        Rule::ImageOutOfRange,
        field,
    )?;
    let start = code_address(reader, code_length)?;
    let last = code_address(reader, code_length)?;
    let counts = row_counts(reader)?;
    Ok(Header {
        version,
        code_length,
        data_length,
        start,
        last,
        procedures: counts.procedures,
        sites: counts.sites,
        labels: counts.labels,
        globals: counts.globals,
        main: counts.main,
    })
}

/// Whether this is a version of the format.
fn is_version(version: u32) -> bool
    ensures { result ≡ is_any_version version }
{
    version == FIRST_VERSION || version == SECOND_VERSION
}

/// Whether code may have this length, in bytes.
fn is_code_length(length: u64) -> bool
    ensures { result ≡ is_length_of_code length }
{
    4 <= length && length <= CODE_LENGTH_LIMIT && length % 4 == 0
}

/// An address in code of this length, in bytes.
fn code_address(reader: &mut Reader<'_>, length: u64) -> Result<u64, Unread>
    ensures { Reads result ((u64 when (in_code length ∷ [])).at reader.old.rest.now) reader.new.rest.now }
{
    let field = reader.left();
    let address = reader.u64(Rule::ImageIsCut)?;
    require(
        is_code_address(length, address),
        Rule::ImageOutOfRange,
        field,
    )?;
    Ok(address)
}

/// The counts of records at the header's end.
fn row_counts(reader: &mut Reader<'_>) -> Result<RowCounts, Unread>
    ensures { Sees counts_seen result (counts.at reader.old.rest.now) reader.new.rest.now }
{
    let field = reader.left();
    let procedures = reader.u32(Rule::ImageIsCut)?;
    require(is_procedure_count(procedures), Rule::BadImageField, field)?;
    let sites = reader.u32(Rule::ImageIsCut)?;
    let labels = reader.u32(Rule::ImageIsCut)?;
    let field = reader.left();
    let globals = reader.u32(Rule::ImageIsCut)?;
    require(
        u64::from(globals) <= GLOBAL_COUNT_LIMIT,
        Rule::BadImageField,
        field,
    )?;
    let field = reader.left();
    let main = reader.u32(Rule::ImageIsCut)?;
    require(main < procedures, Rule::BadImageField, field)?;
    let field = reader.left();
    let reserved = reader.u32(Rule::ImageIsCut)?;
    require(reserved == 0, Rule::BadImageField, field)?;
    Ok(RowCounts {
        procedures,
        sites,
        labels,
        globals,
        main,
    })
}

/// Whether an image may have this number of procedures.
fn is_procedure_count(count: u32) -> bool
    ensures { result ≡ is_count_of_procedures count }
{
    1 <= count && count <= PROCEDURE_COUNT_LIMIT
}
