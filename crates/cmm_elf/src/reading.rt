//! `read_elf`: from the bytes of an ELF file to its segments.

ghost use Rattle.std.specs.Prelude.{◌≡◌, ℕ, IfOk, IfErr};
ghost use Rattle.cmm_rules.specs.declared.rule.Rule.{Rule};
ghost use Rattle.cmm_format.specs.Reading.{Gives, Reads};
ghost use Rattle.cmm_format.specs.Wholes.{whole_in};
ghost use Rattle.cmm_elf.specs.ElfFormat.{code_length_in, elf};
ghost use Rattle.cmm_elf.specs.ElfFiles.{ElfFaultAt, IsElfRead, IsFirstFault, IsRefusal, SpellsElf, elf_ends, elf_in};
ghost use Rattle.cmm_elf.specs.inside.Faults.{fault_of};
ghost use Rattle.cmm_elf.specs.declared.segments.Segments.{Segments};

use crate::fault::ElfFault;
use crate::fields::{read_elf_header, read_program_header, zeros};
use crate::kind::{CODE_OFFSET, HEADER_PADDING, SegmentKind, data_offset};
use crate::segments::Segments;
use byteorder::{ByteOrder, LittleEndian};
use cmm_format::{Reader, Unread, broken};
use cmm_rules::Rule;
use rv_table::memory_map::CODE_LENGTH_LIMIT;
use std::alloc::Global;

/// The most bytes that an ELF file may have, which that of an image never passes.
pub const ELF_LIMIT: usize = 536_879_104;

/// The offset of the length of the code.
const CODE_LENGTH_OFFSET: usize = 96;

/// Where the length of the code ends.
const CODE_LENGTH_END: usize = 104;

/// The segments and the entry of the ELF file that these bytes are. Of bytes that are none the first field that breaks a rule is named: 111 where
/// the bytes end inside it, 110 for another value in the first 24 bytes, 112 for another value behind them, 113 for padding that is not 0 and for
/// bytes behind the data. More bytes than `ELF_LIMIT` are refused before all else, by 114. The entry must lie in the code, whose length stands
/// behind it: where that is cut or is none that code may have, the entry must lie where code may be.
pub fn read_elf(alloc: Global, bytes: &[u8]) -> Result<Segments, ElfFault>
    // What is read is spelled so.
    ensures ok { IfOk result (SpellsElf bytes.now) }
    // What is spelled so is read, unless memory runs out.
    ensures only { (s : Segments) → SpellsElf bytes.now s → IsElfRead s result }
    // A fault is the first of the bytes.
    ensures err { IfErr result (ElfFaultAt bytes.now) }
    // Bytes with a fault are refused for it, unless memory runs out.
    ensures refused { (rule : Rule) (offset : ℕ) → IsFirstFault bytes.now rule offset → IsRefusal rule offset result }
{
    match segments_of(alloc, bytes) {
        Ok(segments) => Ok(segments),
        Err(why) => Err(fault(bytes.len(), why)),
    }
}

/// Why there is no file in bytes of this count.
fn fault(length: usize, why: Unread) -> ElfFault
    ensures { result ≡ fault_of length why }
{
    match why {
        Unread::Breaks(broken) => ElfFault::At {
            rule: broken.rule,
            offset: length.saturating_sub(broken.left) as u64,
        },
        Unread::Memory => ElfFault::Memory,
    }
}

/// The segments of the file that all of the bytes are.
fn segments_of(alloc: Global, bytes: &[u8]) -> Result<Segments, Unread>
    ensures { Gives result (elf_in bytes.now) }
{
    segments_judged(alloc, bytes, code_length(bytes))
}

/// The segments of the file that all of the bytes are, whose entry is in code of this length.
#[tactic(auto, unfolding(cmm_format::specs::Wholes::whole_in))]
fn segments_judged(alloc: Global, bytes: &[u8], code_length: u64) -> Result<Segments, Unread>
    ensures { Gives result (whole_in (elf code_length) elf_ends bytes.now) }
{
    if bytes.len() > ELF_LIMIT {
        return Err(broken(Rule::ElfFileTooLong, bytes.len() - ELF_LIMIT));
    }
    let mut reader = Reader { alloc, rest: bytes };
    let segments = front_segments(&mut reader, code_length)?;
    if !reader.rest.is_empty() {
        return Err(broken(Rule::BytesOutsideSegments, reader.left()));
    }
    Ok(segments)
}

/// The length of the code by which the entry is judged: that of the first program header, where it is there and code may have it, and the
/// greatest that code may have where not.
#[tactic(auto, unfolding(crate::specs::ElfFormat::code_length_in))]
fn code_length(bytes: &[u8]) -> u64
    ensures { result ≡ code_length_in bytes.now }
{
    if bytes.len() < CODE_LENGTH_END {
        return CODE_LENGTH_LIMIT;
    }
    let length = LittleEndian::read_u64(&bytes[CODE_LENGTH_OFFSET..]);
    if SegmentKind::Code.may_have(length) {
        length
    } else {
        CODE_LENGTH_LIMIT
    }
}

/// Takes a file from the front of the bytes, whose entry is in code of this length.
#[tactic(auto, using(crate::proofs::LengthLaws::kind_length_few, crate::proofs::LengthLaws::data_follows))]
fn front_segments(reader: &mut Reader<'_>, code_length: u64) -> Result<Segments, Unread>
    ensures { Reads result ((elf code_length).at reader.old.rest.now) reader.new.rest.now }
{
    let entry = read_elf_header(reader, code_length)?;
    let length = read_program_header(reader, SegmentKind::Code, CODE_OFFSET)?;
    let data = data_offset(length);
    let data_length = read_program_header(reader, SegmentKind::Data, data)?;
    zeros(reader, HEADER_PADDING)?;
    let code = reader.bytes(Rule::ElfFileIsCut, length as usize)?;
    zeros(reader, (data - (CODE_OFFSET + length)) as usize)?;
    let initial = reader.bytes(Rule::ElfFileIsCut, data_length as usize)?;
    Ok(Segments {
        code,
        initial,
        entry,
    })
}
