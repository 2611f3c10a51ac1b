//! Words of memory, at addresses that are multiples of their size or of less: in several accesses then.

ghost use Rattle.std.specs.Prelude.{◌≡◌, ◌≢◌, ◌==◌, ◌+◌, ◌-◌, ◌*◌, ◌<◌, ◌≤◌, OnOk};
ghost use Rattle.cmm_words.specs.Widths.{bytes};
ghost use Rattle.rv_table.specs.Table.{IsValid};
ghost use Rattle.cmm_effects.specs.Changes.{Writes};
ghost use Rattle.cmm_effects.specs.Pieces.{Adds, Leads};
ghost use Rattle.cmm_select.specs.Cells.{Loads};
ghost use Rattle.cmm_select.specs.Memory.{IsCellBy, access_of as widest, access_of_half, access_of_word, accesses};
ghost use Rattle.cmm_select.specs.inside.Gathering.{CanAccess, Gathers, Joins, Scatters, shift_down as shifted_down, shift_up as shifted_up};

use crate::cell::{load_part, store_part};
use cmm_abi::registers::{FIRST_SCRATCH, HELPER, SECOND_SCRATCH};
use cmm_words::Width;
use rv_asm::Asm;
use rv_table::Instr;
use std::alloc::AllocError;

/// The widest accesses of a word at an address that is a multiple of `aligned` bytes.
fn access_of(width: Width, aligned: u32) -> Width
    ensures { result ≡ widest width aligned }
{
    match width {
        Width::W8 => Width::W8,
        Width::W16 => half(aligned),
        Width::W32 => word(aligned),
        Width::W64 => {
            if aligned % 8 == 0 {
                Width::W64
            } else {
                word(aligned)
            }
        }
    }
}

/// The widest access of at most four bytes at such an address.
fn word(aligned: u32) -> Width
    ensures { result ≡ access_of_word aligned }
{
    if aligned % 4 == 0 {
        Width::W32
    } else {
        half(aligned)
    }
}

/// The widest access of at most two bytes at such an address.
fn half(aligned: u32) -> Width
    ensures { result ≡ access_of_half aligned }
{
    if aligned % 2 == 0 {
        Width::W16
    } else {
        Width::W8
    }
}

/// Whether one access suffices for a word at such an address.
pub(crate) fn is_whole(width: Width, aligned: u32) -> bool
    ensures { result ≡ (accesses width aligned == 1) }
{
    width.bytes() / access_of(width, aligned).bytes() == 1
}

/// Gives register 5 the word of a width at the address in it, which is a multiple of `aligned` bytes, by several accesses.
pub(crate) fn load_word(asm: &mut Asm, width: Width, aligned: u32) -> Result<(), AllocError>
    requires { accesses width aligned ≢ 1 }
    ensures loads { OnOk result (Adds (3 * accesses width aligned - 2) asm.old.parts asm.new.parts (Leads (3 * accesses width aligned - 2) (λ m s. IsCellBy (widest width aligned) width (s.registers FIRST_SCRATCH) m) (Loads width))) }
    ensures labels { asm.new.labels ≡ asm.old.labels }
{
    let access = access_of(width, aligned);
    let count = (width.bytes() / access.bytes()) as u32;
    gather(asm, access, access.bytes() as u32, count - 1)?;
    join(asm, access, 0, FIRST_SCRATCH)
}

/// Stores the low bytes of register 7, as many as a width has, at the address in register 5, which is a multiple of `aligned` bytes.
pub(crate) fn store_word(asm: &mut Asm, width: Width, aligned: u32) -> Result<(), AllocError>
    ensures stores { OnOk result (Adds (2 * accesses width aligned - 1) asm.old.parts asm.new.parts (Leads (2 * accesses width aligned - 1) (λ m s. IsCellBy (widest width aligned) width (s.registers FIRST_SCRATCH) m) (λ s t. Writes (s.registers FIRST_SCRATCH) (bytes width) (s.registers SECOND_SCRATCH) s t))) }
    ensures labels { asm.new.labels ≡ asm.old.labels }
{
    let access = access_of(width, aligned);
    scatter(asm, access, 0, (width.bytes() / access.bytes()) as u32)
}

/// Gives register 7 a count of words of the width of an access, from an offset on, the lowest first.
fn gather(asm: &mut Asm, access: Width, offset: u32, count: u32) -> Result<(), AllocError>
    requires some { 0 < count }
    requires within { offset + count * bytes access ≤ 8 }
    ensures gathers { OnOk result (Adds (3 * count - 2) asm.old.parts asm.new.parts (Leads (3 * count - 2) (CanAccess access offset count) (Gathers access offset count))) }
    ensures labels { asm.new.labels ≡ asm.old.labels }
{
    if count == 1 {
        asm.emit(load_part(access, SECOND_SCRATCH, FIRST_SCRATCH, offset))?;
        return Ok(());
    }
    gather(asm, access, offset + access.bytes() as u32, count - 1)?;
    join(asm, access, offset, SECOND_SCRATCH)?;
    Ok(())
}

/// Gives register `rd` what register 7 has above, and below it the word of the width of an access at an offset.
fn join(asm: &mut Asm, access: Width, offset: u32, rd: u8) -> Result<(), AllocError>
    requires low { FIRST_SCRATCH ≤ rd }
    requires high { rd ≤ SECOND_SCRATCH }
    requires access { bytes access < 8 }
    requires near { offset < 2048 }
    ensures joins { OnOk result (Adds 3 asm.old.parts asm.new.parts (Leads 3 (CanAccess access offset 1) (Joins access offset rd))) }
    ensures labels { asm.new.labels ≡ asm.old.labels }
{
    asm.emit(shift_up(access))?;
    asm.emit(load_part(access, HELPER, FIRST_SCRATCH, offset))?;
    asm.emit(Instr::Add {
        rd,
        rs1: SECOND_SCRATCH,
        rs2: HELPER,
    })
}

/// Stores register 7 as a count of words of the width of an access, from an offset on, the lowest first.
fn scatter(asm: &mut Asm, access: Width, offset: u32, count: u32) -> Result<(), AllocError>
    requires some { 0 < count }
    requires within { offset + count * bytes access ≤ 8 }
    ensures scatters { OnOk result (Adds (2 * count - 1) asm.old.parts asm.new.parts (Leads (2 * count - 1) (CanAccess access offset count) (Scatters access offset count))) }
    ensures labels { asm.new.labels ≡ asm.old.labels }
{
    asm.emit(store_part(access, FIRST_SCRATCH, SECOND_SCRATCH, offset))?;
    if count == 1 {
        return Ok(());
    }
    asm.emit(shift_down(access))?;
    scatter(asm, access, offset + access.bytes() as u32, count - 1)?;
    Ok(())
}

/// The instruction that makes room in register 7 for a word of a width below what is there.
fn shift_up(width: Width) -> Instr
    ensures is { result ≡ shifted_up width }
    ensures valid { IsValid result }
{
    let (rd, rs1) = (SECOND_SCRATCH, SECOND_SCRATCH);
    match width {
        Width::W8 => Instr::Slli { rd, rs1, imm: 8 },
        Width::W16 => Instr::Slli { rd, rs1, imm: 16 },
        Width::W32 => Instr::Slli { rd, rs1, imm: 32 },
        Width::W64 => Instr::Slli { rd, rs1, imm: 0 },
    }
}

/// The instruction that drops the lowest word of a width from register 7.
fn shift_down(width: Width) -> Instr
    ensures is { result ≡ shifted_down width }
    ensures valid { IsValid result }
{
    let (rd, rs1) = (SECOND_SCRATCH, SECOND_SCRATCH);
    match width {
        Width::W8 => Instr::Srli { rd, rs1, imm: 8 },
        Width::W16 => Instr::Srli { rd, rs1, imm: 16 },
        Width::W32 => Instr::Srli { rd, rs1, imm: 32 },
        Width::W64 => Instr::Srli { rd, rs1, imm: 0 },
    }
}
