//! The headers and the padding of a file, as they are read.

ghost use Rattle.std.specs.Prelude.{◌≡◌, ◌==◌, ◌∷◌, [], true, IfOk};
ghost use Rattle.std.specs.List.{list_all};
ghost use Rattle.cmm_format.specs.Formats.{◌when◌};
ghost use Rattle.cmm_format.specs.Reading.{Reads};
ghost use Rattle.cmm_image.specs.ImageFormat.{is_in_code};
ghost use Rattle.cmm_elf.specs.ElfFormat.{allowed, elf_header, fixed as fixed_field, front, header_end, in_code, is_length_of, placement, program_header as header_of_segment, u64, zeros as zero_bytes};

use crate::kind::{ALIGNMENT, SegmentKind};
use cmm_format::{Reader, Unread, require};
use cmm_rules::Rule;
use rv_table::memory_map::CODE_BASE;

/// The first 16 bytes: the magic, a file of 64 bits with the low byte first, version 1, and no system that it is for.
pub(crate) const IDENTIFICATION: [u8; 16] = [
    0x7f, 0x45, 0x4c, 0x46, 2, 1, 1, 0, 0, 0, 0, 0, 0, 0, 0, 0,
];

/// The type of an executable file.
pub(crate) const EXECUTABLE: u16 = 2;

/// The number of the machine.
pub(crate) const RISC_V: u16 = 243;

/// The version of ELF.
pub(crate) const VERSION: u32 = 1;

/// The offset of the program headers, which follow the ELF header.
pub(crate) const PROGRAM_HEADERS: u64 = 64;

/// The size of the ELF header, in bytes.
pub(crate) const HEADER_SIZE: u16 = 64;

/// The size of a program header, in bytes.
pub(crate) const PROGRAM_HEADER_SIZE: u16 = 56;

/// How many program headers there are.
pub(crate) const PROGRAM_HEADER_COUNT: u16 = 2;

/// The type of a segment that is loaded.
pub(crate) const LOADED: u32 = 1;

/// Takes the ELF header, whose entry is in code of this length, in bytes.
pub(crate) fn read_elf_header(reader: &mut Reader<'_>, code_length: u64) -> Result<u64, Unread>
    ensures { Reads result ((elf_header code_length).at reader.old.rest.now) reader.new.rest.now }
{
    read_front(reader)?;
    let entry = read_entry(reader, code_length)?;
    read_header_end(reader)?;
    Ok(entry)
}

/// Takes the program header of a segment at this offset, and gives its length.
#[tactic(auto, unfolding(cmm_format::specs::Formats::number_bytes))]
pub(crate) fn read_program_header(
    reader: &mut Reader<'_>,
    kind: SegmentKind,
    offset: u64,
) -> Result<u64, Unread>
    ensures field { Reads result ((header_of_segment kind offset).at reader.old.rest.now) reader.new.rest.now }
    ensures length { IfOk result (λ length. is_length_of kind length ≡ true) }
{
    read_placement(reader, kind, offset)?;
    let length = read_length(reader, kind)?;
    fixed(reader, Rule::BadElfField, &length.to_le_bytes())?;
    fixed(reader, Rule::BadElfField, &ALIGNMENT.to_le_bytes())?;
    Ok(length)
}

/// Takes bytes that are 0.
#[tactic(auto, unfolding(crate::specs::ElfFormat::zeros_at))]
pub(crate) fn zeros(reader: &mut Reader<'_>, count: usize) -> Result<(), Unread>
    ensures { Reads result ((zero_bytes count).at reader.old.rest.now) reader.new.rest.now }
{
    let field = reader.left();
    let bytes = reader.take(Rule::ElfFileIsCut, count)?;
    require(are_zero(bytes), Rule::BytesOutsideSegments, field)?;
    Ok(())
}

/// A field that has this value.
#[tactic(auto, unfolding(crate::specs::ElfFormat::fixed_at))]
fn fixed(reader: &mut Reader<'_>, rule: Rule, value: &[u8]) -> Result<(), Unread>
    ensures { Reads result ((fixed_field rule value.now).at reader.old.rest.now) reader.new.rest.now }
{
    let field = reader.left();
    let bytes = reader.take(Rule::ElfFileIsCut, value.len())?;
    require(bytes == value, rule, field)?;
    Ok(())
}

/// Whether each byte is 0.
fn are_zero(bytes: &[u8]) -> bool
    ensures { result ≡ list_all (λ byte. byte == 0) bytes.now }
{
    bytes.iter().all(|byte| *byte == 0)
}

/// What an executable file of RISC-V begins with.
#[tactic(auto, unfolding(cmm_format::specs::Formats::number_bytes, crate::specs::ElfFormat::identification))]
fn read_front(reader: &mut Reader<'_>) -> Result<(), Unread>
    ensures { Reads result (front.at reader.old.rest.now) reader.new.rest.now }
{
    fixed(reader, Rule::NotAnElfFile, &IDENTIFICATION)?;
    fixed(reader, Rule::NotAnElfFile, &EXECUTABLE.to_le_bytes())?;
    fixed(reader, Rule::NotAnElfFile, &RISC_V.to_le_bytes())?;
    fixed(reader, Rule::NotAnElfFile, &VERSION.to_le_bytes())?;
    Ok(())
}

/// The address at which a run begins.
fn read_entry(reader: &mut Reader<'_>, code_length: u64) -> Result<u64, Unread>
    ensures { Reads result ((u64 when (in_code code_length ∷ [])).at reader.old.rest.now) reader.new.rest.now }
{
    let field = reader.left();
    let entry = reader.u64(Rule::ElfFileIsCut)?;
    require(
        is_code_address(code_length, entry),
        Rule::BadElfField,
        field,
    )?;
    Ok(entry)
}

/// Whether this is the address of an instruction in code of this length, in bytes.
fn is_code_address(length: u64, address: u64) -> bool
    ensures { result ≡ is_in_code length address }
{
    CODE_BASE <= address && address - CODE_BASE < length && address % 4 == 0
}

/// What follows the entry: where the program headers are, and how many; there are no section headers.
#[tactic(auto, unfolding(cmm_format::specs::Formats::number_bytes))]
fn read_header_end(reader: &mut Reader<'_>) -> Result<(), Unread>
    ensures { Reads result (header_end.at reader.old.rest.now) reader.new.rest.now }
{
    fixed(reader, Rule::BadElfField, &PROGRAM_HEADERS.to_le_bytes())?;
    fixed(reader, Rule::BadElfField, &0u64.to_le_bytes())?;
    fixed(reader, Rule::BadElfField, &0u32.to_le_bytes())?;
    fixed(reader, Rule::BadElfField, &HEADER_SIZE.to_le_bytes())?;
    fixed(
        reader,
        Rule::BadElfField,
        &PROGRAM_HEADER_SIZE.to_le_bytes(),
    )?;
    fixed(
        reader,
        Rule::BadElfField,
        &PROGRAM_HEADER_COUNT.to_le_bytes(),
    )?;
    fixed(reader, Rule::BadElfField, &0u16.to_le_bytes())?;
    fixed(reader, Rule::BadElfField, &0u16.to_le_bytes())?;
    fixed(reader, Rule::BadElfField, &0u16.to_le_bytes())?;
    Ok(())
}

/// That a segment is loaded, what may be done with it, and where it is in the file and in memory.
#[tactic(auto, unfolding(cmm_format::specs::Formats::number_bytes))]
fn read_placement(reader: &mut Reader<'_>, kind: SegmentKind, offset: u64) -> Result<(), Unread>
    ensures { Reads result ((placement kind offset).at reader.old.rest.now) reader.new.rest.now }
{
    fixed(reader, Rule::BadElfField, &LOADED.to_le_bytes())?;
    fixed(reader, Rule::BadElfField, &kind.flags().to_le_bytes())?;
    fixed(reader, Rule::BadElfField, &offset.to_le_bytes())?;
    fixed(reader, Rule::BadElfField, &kind.address().to_le_bytes())?;
    fixed(reader, Rule::BadElfField, &kind.address().to_le_bytes())?;
    Ok(())
}

/// The length of a segment in the file.
fn read_length(reader: &mut Reader<'_>, kind: SegmentKind) -> Result<u64, Unread>
    ensures field { Reads result ((u64 when (allowed (is_length_of kind) ∷ [])).at reader.old.rest.now) reader.new.rest.now }
    ensures length { IfOk result (λ length. is_length_of kind length ≡ true) }
{
    let field = reader.left();
    let length = reader.u64(Rule::ElfFileIsCut)?;
    require(kind.may_have(length), Rule::BadElfField, field)?;
    Ok(length)
}
