//! `write_elf`: the bytes of an ELF file.

ghost use Rattle.std.specs.Prelude.{◌≡◌, ◌+◌, ◌-◌, ◌≤◌, ◌++◌, IfOk, OnOk, length, replicate};
ghost use Rattle.cmm_elf.specs.declared.kind.SegmentKind.TheVariants.{Data};
ghost use Rattle.cmm_elf.specs.ElfFormat.{data_offset as offset_of_data};
ghost use Rattle.cmm_elf.specs.ElfFiles.{SpellsElf, segments_of};
ghost use Rattle.cmm_elf.specs.inside.Spellings.{body_bytes, elf_bytes, elf_header_bytes, front_bytes, header_end_bytes, placement_bytes, program_header_bytes, sizes_bytes};

use crate::fields::{
    EXECUTABLE, HEADER_SIZE, IDENTIFICATION, LOADED, PROGRAM_HEADER_COUNT, PROGRAM_HEADER_SIZE,
    PROGRAM_HEADERS, RISC_V, VERSION,
};
use crate::kind::{ALIGNMENT, CODE_OFFSET, HEADER_PADDING, SegmentKind, data_offset};
use cmm_format::{put_u16, put_u32, put_u64};
use cmm_image::{Image, ImageParts};
use rv_table::memory_map::CODE_LENGTH_LIMIT;
use std::alloc::{AllocError, Global};

/// The bytes that spell the ELF file of an image: its code, its data and its start.
#[tactic(auto, using(crate::proofs::WritingLaws::image_code_few))]
pub fn write_elf(alloc: Global, image: &Image) -> Result<Vec<u8>, AllocError>
    ensures { IfOk result (λ bytes. SpellsElf bytes.items (segments_of image.now)) }
{
    let mut out = Vec::new(alloc);
    put_elf(alloc, &mut out, image.parts())?;
    Ok(out)
}

/// All fields, in their order.
fn put_elf(alloc: Global, out: &mut Vec<u8>, parts: &ImageParts) -> Result<(), AllocError>
    requires { length parts.now.code ≤ CODE_LENGTH_LIMIT }
    ensures { OnOk result (out.new.items ≡ out.old.items ++ elf_bytes parts.now.code parts.now.initial parts.now.start) }
{
    put_fields(
        alloc,
        out,
        parts.code.as_slice(),
        parts.initial.as_slice(),
        parts.start,
    )
}

/// The fields of a file with this code, data and entry.
fn put_fields(
    alloc: Global,
    out: &mut Vec<u8>,
    code: &[u8],
    initial: &[u8],
    entry: u64,
) -> Result<(), AllocError>
    requires { length code.now ≤ CODE_LENGTH_LIMIT }
    ensures { OnOk result (out.new.items ≡ out.old.items ++ elf_bytes code.now initial.now entry) }
{
    put_elf_header(out, entry)?;
    put_program_header(out, SegmentKind::Code, CODE_OFFSET, code.len() as u64)?;
    put_data_header(out, code.len() as u64, initial.len() as u64)?;
    put_body(alloc, out, code, initial)
}

/// The code and the data, each behind its padding.
fn put_body(alloc: Global, out: &mut Vec<u8>, code: &[u8], initial: &[u8]) -> Result<(), AllocError>
    requires { length code.now ≤ CODE_LENGTH_LIMIT }
    ensures { OnOk result (out.new.items ≡ out.old.items ++ body_bytes code.now initial.now) }
{
    put_zeros(alloc, out, HEADER_PADDING)?;
    out.extend_from_slice(code)?;
    put_padding(alloc, out, code.len() as u64)?;
    out.extend_from_slice(initial)
}

/// What stands between code of this length, in bytes, and the data.
#[tactic(auto, using(crate::proofs::LengthLaws::data_follows))]
fn put_padding(alloc: Global, out: &mut Vec<u8>, code_length: u64) -> Result<(), AllocError>
    requires { code_length ≤ CODE_LENGTH_LIMIT }
    ensures { OnOk result (out.new.items ≡ out.old.items ++ replicate (offset_of_data code_length - (4096 + code_length)) 0) }
{
    let padding = data_offset(code_length) - (CODE_OFFSET + code_length);
    put_zeros(alloc, out, padding as usize)
}

/// Bytes that are 0.
fn put_zeros(alloc: Global, out: &mut Vec<u8>, count: usize) -> Result<(), AllocError>
    ensures { OnOk result (out.new.items ≡ out.old.items ++ replicate count 0) }
{
    let zeros = vec![in alloc; 0; count]?;
    out.extend_from_slice(&zeros)
}

/// The ELF header, with this entry.
fn put_elf_header(out: &mut Vec<u8>, entry: u64) -> Result<(), AllocError>
    ensures { OnOk result (out.new.items ≡ out.old.items ++ elf_header_bytes entry) }
{
    put_front(out)?;
    put_u64(out, entry)?;
    put_header_end(out)
}

/// What an executable file of RISC-V begins with.
#[tactic(auto, unfolding(crate::specs::ElfFormat::identification))]
fn put_front(out: &mut Vec<u8>) -> Result<(), AllocError>
    ensures { OnOk result (out.new.items ≡ out.old.items ++ front_bytes) }
{
    out.extend_from_slice(&IDENTIFICATION)?;
    put_u16(out, EXECUTABLE)?;
    put_u16(out, RISC_V)?;
    put_u32(out, VERSION)
}

/// What follows the entry.
fn put_header_end(out: &mut Vec<u8>) -> Result<(), AllocError>
    ensures { OnOk result (out.new.items ≡ out.old.items ++ header_end_bytes) }
{
    put_u64(out, PROGRAM_HEADERS)?;
    put_u64(out, 0)?;
    put_u32(out, 0)?;
    put_sizes(out)
}

/// The sizes and the counts of headers.
fn put_sizes(out: &mut Vec<u8>) -> Result<(), AllocError>
    ensures { OnOk result (out.new.items ≡ out.old.items ++ sizes_bytes) }
{
    put_u16(out, HEADER_SIZE)?;
    put_u16(out, PROGRAM_HEADER_SIZE)?;
    put_u16(out, PROGRAM_HEADER_COUNT)?;
    put_u16(out, 0)?;
    put_u16(out, 0)?;
    put_u16(out, 0)
}

/// The program header of a segment of this length at this offset, in bytes.
fn put_program_header(
    out: &mut Vec<u8>,
    kind: SegmentKind,
    offset: u64,
    length: u64,
) -> Result<(), AllocError>
    ensures { OnOk result (out.new.items ≡ out.old.items ++ program_header_bytes kind offset length) }
{
    put_placement(out, kind, offset)?;
    put_u64(out, length)?;
    put_u64(out, length)?;
    put_u64(out, ALIGNMENT)
}

/// The program header of data of this length, in bytes, behind code of the other.
fn put_data_header(out: &mut Vec<u8>, code_length: u64, length: u64) -> Result<(), AllocError>
    requires { code_length ≤ CODE_LENGTH_LIMIT }
    ensures { OnOk result (out.new.items ≡ out.old.items ++ program_header_bytes Data (offset_of_data code_length) length) }
{
    put_program_header(out, SegmentKind::Data, data_offset(code_length), length)
}

/// That a segment is loaded, what may be done with it, and where it is in the file and in memory.
fn put_placement(out: &mut Vec<u8>, kind: SegmentKind, offset: u64) -> Result<(), AllocError>
    ensures { OnOk result (out.new.items ≡ out.old.items ++ placement_bytes kind offset) }
{
    put_u32(out, LOADED)?;
    put_u32(out, kind.flags())?;
    put_u64(out, offset)?;
    put_u64(out, kind.address())?;
    put_u64(out, kind.address())
}
