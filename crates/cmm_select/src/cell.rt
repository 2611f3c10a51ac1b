//! Words of memory are loaded and stored.

ghost use Rattle.std.specs.Prelude.{◌≡◌, ◌<◌, OnOk};
ghost use Rattle.cmm_words.specs.Widths.{bytes};
ghost use Rattle.rv_table.specs.Table.{IsValid};
ghost use Rattle.cmm_effects.specs.Changes.{Writes};
ghost use Rattle.cmm_effects.specs.Pieces.{Adds, Leads};
ghost use Rattle.cmm_select.specs.Cells.{IsCell, IsLoaded};
ghost use Rattle.cmm_select.specs.inside.Accesses.{load_part as part_loaded, store_part as part_stored};
ghost use Rattle.cmm_select.specs.inside.InPlace.{IsTarget, Makes};

use cmm_words::Width;
use rv_asm::Asm;
use rv_table::Instr;
use std::alloc::AllocError;

/// Gives register `rd` the word of a width at the address in register `base`. An error is want of memory, and nothing is changed.
pub(crate) fn load_cell(asm: &mut Asm, width: Width, rd: u8, base: u8) -> Result<(), AllocError>
    requires register { IsTarget rd }
    requires base { base < 32 }
    ensures loads { OnOk result (Adds 1 asm.old.parts asm.new.parts (Leads 1 (λ m s. IsCell width m (s.registers base)) (λ s t. Makes rd (IsLoaded width s.memory (s.registers base)) s t))) }
    ensures labels { asm.new.labels ≡ asm.old.labels }
{
    asm.emit(load_part(width, rd, base, 0))
}

/// Stores the low bytes of register `from`, as many as a width has, at the address in register `base`. An error is want of memory, and nothing
/// is changed.
pub(crate) fn store_cell(asm: &mut Asm, width: Width, base: u8, from: u8) -> Result<(), AllocError>
    requires base { base < 32 }
    requires register { from < 32 }
    ensures stores { OnOk result (Adds 1 asm.old.parts asm.new.parts (Leads 1 (λ m s. IsCell width m (s.registers base)) (λ s t. Writes (s.registers base) (bytes width) (s.registers from) s t))) }
    ensures labels { asm.new.labels ≡ asm.old.labels }
{
    asm.emit(store_part(width, base, from, 0))
}

/// The instruction that loads a word of a width with zeros above it, at an offset from the address in register `base`.
pub(crate) fn load_part(width: Width, rd: u8, base: u8, offset: u32) -> Instr
    requires register { rd < 32 }
    requires base { base < 32 }
    requires offset { offset < 2048 }
    ensures is { result ≡ part_loaded width rd base offset }
    ensures valid { IsValid result }
{
    let (rs1, imm) = (base, offset as i32);
    match width {
        Width::W8 => Instr::Lbu { rd, rs1, imm },
        Width::W16 => Instr::Lhu { rd, rs1, imm },
        Width::W32 => Instr::Lwu { rd, rs1, imm },
        Width::W64 => Instr::Ld { rd, rs1, imm },
    }
}

/// The instruction that stores the low bytes of register `from` there.
pub(crate) fn store_part(width: Width, base: u8, from: u8, offset: u32) -> Instr
    requires base { base < 32 }
    requires register { from < 32 }
    requires offset { offset < 2048 }
    ensures is { result ≡ part_stored width base from offset }
    ensures valid { IsValid result }
{
    let (rs1, rs2, imm) = (base, from, offset as i32);
    match width {
        Width::W8 => Instr::Sb { rs1, rs2, imm },
        Width::W16 => Instr::Sh { rs1, rs2, imm },
        Width::W32 => Instr::Sw { rs1, rs2, imm },
        Width::W64 => Instr::Sd { rs1, rs2, imm },
    }
}
