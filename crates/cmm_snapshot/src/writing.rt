//! `write_snapshot`: the bytes of a snapshot.

ghost use Rattle.std.specs.Prelude.{◌≡◌, ◌++◌, ◌%◌, drop, length, IfOk, OnOk};
ghost use Rattle.rv_memory.specs.Regions.{Fits};
ghost use Rattle.cmm_format.specs.Formats.{AreBytes};
ghost use Rattle.cmm_snapshot.specs.SnapshotFormat.{registers, taken_of};
ghost use Rattle.cmm_snapshot.specs.Snapshots.{SpellsSnapshot};
ghost use Rattle.cmm_snapshot.specs.inside.Takings.{front_bytes, memory_bytes, numbered_bytes};

use crate::reading::{MAGIC, VERSION};
use cmm_format::{put_u32, put_u64};
use cmm_image::{Image, write_header};
use rv_memory::Memory;
use rv_table::Regs;
use std::alloc::{AllocError, Global};

/// The bytes that spell the snapshot of a run of an image that stopped with these registers and this memory. Register 0 is written as 0.
pub fn write_snapshot(
    alloc: Global,
    image: &Image,
    regs: &Regs,
    memory: &Memory,
) -> Result<Vec<u8>, AllocError>
    // The memory is of the image's run.
    requires initial { length memory.now.data_bytes ≡ length image.now.initial }
    requires stack { memory.now.stack_size % 16 ≡ 0 }
    ensures { IfOk result (λ bytes. SpellsSnapshot image.now bytes.items (taken_of regs.now memory.now)) }
{
    let header = write_header(alloc, image)?;
    let mut out = Vec::new(alloc);
    put_snapshot(&mut out, &header, regs, memory)?;
    Ok(out)
}

/// All fields, in their order, behind nothing.
fn put_snapshot(
    out: &mut Vec<u8>,
    header: &[u8],
    regs: &Regs,
    memory: &Memory,
) -> Result<(), AllocError>
    ensures bytes { OnOk result (out.new.items ≡ out.old.items ++ (front_bytes header.now memory.now.stack_size ++ (registers.spelled (drop 1 regs.now.x, regs.now.pc) ++ memory_bytes memory.now))) }
    ensures fits { OnOk result (AreBytes out.new.items) }
    ensures held { OnOk result (registers.Holds (drop 1 regs.now.x, regs.now.pc)) }
    ensures kept { OnOk result (Fits memory.now) }
{
    put_front(out, header, memory)?;
    put_registers(out, &regs.x, regs.pc)?;
    put_memory(out, memory)
}

/// What stands before the registers: magic, version, the image's header, and the size of the stack.
fn put_front(out: &mut Vec<u8>, header: &[u8], memory: &Memory) -> Result<(), AllocError>
    ensures { OnOk result (out.new.items ≡ out.old.items ++ front_bytes header.now memory.now.stack_size) }
{
    put_u32(out, MAGIC)?;
    put_u32(out, VERSION)?;
    out.extend_from_slice(header)?;
    put_u64(out, memory.top() - memory.base())
}

/// Register 0 as 0, the registers behind the first of the array, and the pc.
fn put_registers(out: &mut Vec<u8>, x: &[u64], pc: u64) -> Result<(), AllocError>
    requires { length x.now ≡ 32 }
    ensures bytes { OnOk result (out.new.items ≡ out.old.items ++ registers.spelled (drop 1 x.now, pc)) }
    ensures held { OnOk result (registers.Holds (drop 1 x.now, pc)) }
{
    put_u64(out, 0)?;
    put_words(out, &x[1..])?;
    put_u64(out, pc)
}

/// Numbers of eight bytes, one after another.
fn put_words(out: &mut Vec<u8>, words: &[u64]) -> Result<(), AllocError>
    ensures { OnOk result (out.new.items ≡ out.old.items ++ numbered_bytes words.now) }
{
    for word in words {
        put_u64(out, *word)?;
    }
    Ok(())
}

/// The data, and the region.
fn put_memory(out: &mut Vec<u8>, memory: &Memory) -> Result<(), AllocError>
    ensures bytes { OnOk result (out.new.items ≡ out.old.items ++ memory_bytes memory.now) }
    ensures kept { Fits memory.now }
{
    let region = memory.region_bytes();
    out.extend_from_slice(memory.data())?;
    out.extend_from_slice(region)
}
