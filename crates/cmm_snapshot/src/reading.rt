//! `read_snapshot`: from the bytes of a snapshot to registers and a memory.

ghost use Rattle.std.specs.Prelude.{◌≡◌, ℕ, ◌∷◌, [], ◌≤◌, None, drop, slice_index, IfOk, IfErr};
ghost use Rattle.cmm_rules.specs.declared.rule.Rule.TheVariants.{SnapshotIsCut};
ghost use Rattle.cmm_rules.specs.declared.rule.Rule.{Rule};
ghost use Rattle.cmm_format.specs.Formats.{block, rows_at, ◌when◌};
ghost use Rattle.cmm_format.specs.Reading.{GivesSeen, Reads, Sees};
ghost use Rattle.cmm_image.specs.WholeImage.{header_bytes};
ghost use Rattle.cmm_image.specs.declared.parts.ImageParts.{ImageParts};
ghost use Rattle.cmm_snapshot.specs.SnapshotFormat.{Snapshot, allowed, is_front, is_header_of, is_stack_size as is_size_of_stack, numbered_count, registers, snapshot, taken_of, u32, u64};
ghost use Rattle.cmm_snapshot.specs.Snapshots.{IsFirstFault, IsRefusal, IsSnapshotRead, SnapshotFaultAt, SpellsSnapshot, snapshot_in};
ghost use Rattle.cmm_snapshot.specs.inside.Takings.{fault_of};

use crate::fault::SnapshotFault;
use crate::halted::Halted;
use cmm_format::{Reader, Unread, broken, require};
use cmm_image::{Image, write_header};
use cmm_rules::Rule;
use rv_memory::Memory;
use rv_table::Regs;
use rv_table::memory_map::{BELOW_STACK, STACK_SIZE_LIMIT};
use std::alloc::Global;

/// The most bytes that a snapshot may have.
pub const SNAPSHOT_LIMIT: usize = 536_870_912;

/// The first four bytes of a snapshot, "CMMS", as a number.
pub(crate) const MAGIC: u32 = 0x534d_4d43;

/// The version of the format.
pub(crate) const VERSION: u32 = 1;

/// The size of an image's header, in bytes.
const HEADER_SIZE: usize = 64;

/// The stopped program whose snapshot these bytes are, of a run of this image. Of bytes that are none the first field that breaks a rule is
/// named: 70 where the bytes end inside it, 75 for the first four bytes and the version, 71 for the header of another image, 72 for a size of
/// the stack that is no multiple of 16 or above `STACK_SIZE_LIMIT` and for a register 0 that is not 0, 74 for bytes behind the region. More
/// bytes than `SNAPSHOT_LIMIT` are refused before all else, by 73.
pub fn read_snapshot(alloc: Global, image: &Image, bytes: &[u8]) -> Result<Halted, SnapshotFault>
    // What is read is spelled so.
    ensures ok { IfOk result (λ h. SpellsSnapshot image.now bytes.now (taken_of h.regs h.memory)) }
    // Its code is the image's, and what stands for register 0 is 0.
    ensures code { IfOk result (λ h. h.memory.code_bytes ≡ image.now.code) }
    ensures zero { IfOk result (λ h. slice_index h.regs.x 0 ≡ 0) }
    // What is spelled so is read, unless memory runs out.
    ensures only { (s : Snapshot) → SpellsSnapshot image.now bytes.now s → IsSnapshotRead s result }
    // A fault is the first of the bytes.
    ensures err { IfErr result (SnapshotFaultAt image.now bytes.now) }
    // Bytes with a fault are refused for it, unless memory runs out.
    ensures refused { (rule : Rule) (offset : ℕ) → IsFirstFault image.now bytes.now rule offset → IsRefusal rule offset result }
{
    match halted_of(alloc, image, bytes) {
        Ok(halted) => Ok(halted),
        Err(why) => Err(fault(bytes.len(), why)),
    }
}

/// Why there is no snapshot in bytes of this count.
fn fault(length: usize, why: Unread) -> SnapshotFault
    ensures { result ≡ fault_of length why }
{
    match why {
        Unread::Breaks(broken) => SnapshotFault::At {
            rule: broken.rule,
            offset: length.saturating_sub(broken.left) as u64,
        },
        Unread::Memory => SnapshotFault::Memory,
    }
}

/// The stopped program whose snapshot all of the bytes are.
#[tactic(auto, unfolding(cmm_format::specs::Wholes::whole_in))]
fn halted_of(alloc: Global, image: &Image, bytes: &[u8]) -> Result<Halted, Unread>
    ensures taken { GivesSeen (λ h. taken_of h.regs h.memory) result (snapshot_in image.now bytes.now) }
    ensures code { IfOk result (λ h. h.memory.code_bytes ≡ image.now.code) }
    ensures zero { IfOk result (λ h. slice_index h.regs.x 0 ≡ 0) }
{
    if bytes.len() > SNAPSHOT_LIMIT {
        return Err(broken(Rule::SnapshotTooLong, bytes.len() - SNAPSHOT_LIMIT));
    }
    let header = write_header(alloc, image)?;
    let mut reader = Reader { alloc, rest: bytes };
    let halted = front_halted(&mut reader, image, &header)?;
    if !reader.rest.is_empty() {
        return Err(broken(Rule::BytesAfterSnapshot, reader.left()));
    }
    Ok(halted)
}

/// Takes a snapshot of a run of the image, whose header is given, from the front of the bytes.
fn front_halted(reader: &mut Reader<'_>, image: &Image, header: &[u8]) -> Result<Halted, Unread>
    requires { header.now ≡ header_bytes image.now }
    ensures taken { Sees (λ h. taken_of h.regs h.memory) result ((snapshot image.now).at reader.old.rest.now) reader.new.rest.now }
    ensures code { IfOk result (λ h. h.memory.code_bytes ≡ image.now.code) }
    ensures zero { IfOk result (λ h. slice_index h.regs.x 0 ≡ 0) }
{
    front(reader, MAGIC)?;
    front(reader, VERSION)?;
    same_header(reader, header)?;
    let stack = stack_size(reader)?;
    let regs = registers(reader)?;
    let parts = image.parts();
    let initial = reader.take(Rule::SnapshotIsCut, parts.initial.len())?;
    let region = reader.take(Rule::SnapshotIsCut, (BELOW_STACK + stack) as usize)?;
    let memory = Memory::restored(reader.alloc, parts.code.as_slice(), initial, region)?;
    Ok(Halted::new(regs, memory))
}

/// One of the first two fields, which has this value.
fn front(reader: &mut Reader<'_>, value: u32) -> Result<u32, Unread>
    ensures { Reads result ((u32 when (is_front value ∷ [])).at reader.old.rest.now) reader.new.rest.now }
{
    let field = reader.left();
    let number = reader.u32(Rule::SnapshotIsCut)?;
    require(number == value, Rule::NotASnapshot, field)?;
    Ok(number)
}

/// The header of the image that was run, which is this one.
fn same_header<'a>(reader: &mut Reader<'a>, header: &[u8]) -> Result<&'a [u8], Unread>
    ensures { (i : ImageParts) → header.now ≡ header_bytes i → Sees (λ bytes. bytes.now) result ((block SnapshotIsCut 64 when (is_header_of i ∷ [])).at reader.old.rest.now) reader.new.rest.now }
{
    let field = reader.left();
    let bytes = reader.take(Rule::SnapshotIsCut, HEADER_SIZE)?;
    require(bytes == header, Rule::OtherImageHeader, field)?;
    Ok(bytes)
}

/// The size of the stack, in bytes.
fn stack_size(reader: &mut Reader<'_>) -> Result<u64, Unread>
    ensures field { Reads result ((u64 when (allowed is_size_of_stack ∷ [])).at reader.old.rest.now) reader.new.rest.now }
    ensures limit { IfOk result (λ size. size ≤ STACK_SIZE_LIMIT) }
{
    let field = reader.left();
    let size = reader.u64(Rule::SnapshotIsCut)?;
    require(
        size % 16 == 0 && size <= STACK_SIZE_LIMIT,
        Rule::BadSnapshotField,
        field,
    )?;
    Ok(size)
}

/// The registers, of which register 0 is 0, and the pc.
fn registers(reader: &mut Reader<'_>) -> Result<Regs, Unread>
    ensures fields { Sees (λ r. (drop 1 r.x, r.pc)) result (registers.at reader.old.rest.now) reader.new.rest.now }
    ensures zero { IfOk result (λ r. slice_index r.x 0 ≡ 0) }
{
    let field = reader.left();
    let zero_register = reader.u64(Rule::SnapshotIsCut)?;
    require(zero_register == 0, Rule::BadSnapshotField, field)?;
    let x = numbered(reader)?;
    let pc = reader.u64(Rule::SnapshotIsCut)?;
    Ok(Regs { x, pc })
}

/// Registers 1 to 31, behind a register 0 that is 0.
fn numbered(reader: &mut Reader<'_>) -> Result<[u64; 32], Unread>
    ensures fields { Sees (λ x. drop 1 x) result (rows_at (λ previous. u64.at) numbered_count None reader.old.rest.now) reader.new.rest.now }
    ensures zero { IfOk result (λ x. slice_index x 0 ≡ 0) }
{
    let mut x = [0; 32];
    for register in 1..32 {
        x[register] = reader.u64(Rule::SnapshotIsCut)?;
    }
    Ok(x)
}
