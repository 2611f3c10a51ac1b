//! What an instruction asks for.
ghost use Rattle.std.specs.Prelude.{◌≡◌, ◌*◌, ◌/◌};
ghost use Rattle.rv_table.specs.Bounds.{HasASize, WritesARegister};
ghost use Rattle.rv_table.specs.Registers.{registers_of};
ghost use Rattle.rv_table.specs.Row.{row};
ghost use Rattle.rv_table.specs.Table.{IsValid};
ghost use Rattle.rv_table.specs.Words.{modulo, sum};

use crate::arithmetic::*;
use crate::instruction::Instr;
use crate::registers::Regs;

/// What an instruction asks for, given registers and pc: all that is done to registers, pc and memory follows from it.
#[derive(Clone, Copy)]
pub enum Effect {
    /// Register `rd` gets `value`, and control goes on after the instruction.
    Set {
        rd: u8,
        value: u64,
    },
    /// Register `rd` gets `link`, and control goes to `target`.
    Jump {
        rd: u8,
        link: u64,
        target: u64,
    },
    /// Control goes to `target` if the branch is taken, and on after the instruction otherwise.
    Branch {
        taken: bool,
        target: u64,
    },
    /// Register `rd` gets the `size` bytes at `address`, sign-extended if `signed` and zero-extended otherwise.
    Load {
        rd: u8,
        address: u64,
        size: u8,
        signed: bool,
    },
    /// The low `size` bytes of `value` are written at `address`.
    Store {
        address: u64,
        size: u8,
        value: u64,
    },
    /// ECALL: the program asks something of what lies outside.
    Ask,
    /// EBREAK.
    Break,
}

/// What the instruction asks for at these registers and this pc.
pub fn effect_of(i: Instr, r: &Regs) -> Effect
    requires { IsValid i }
    ensures row { result ≡ row (registers_of r.now) r.now.pc i }
    ensures register { WritesARegister result }
    ensures size { HasASize result }
{
    row(i, r)
}

/// The row of the instruction, a line each.
fn row(i: Instr, r: &Regs) -> Effect
    requires { IsValid i }
    ensures { result ≡ row (registers_of r.now) r.now.pc i }
{
    match i {
        Instr::Lui { rd, imm } => set(rd, upper_immediate(imm)),
        Instr::Auipc { rd, imm } => set(rd, r.pc.wrapping_add(upper_immediate(imm))),
        Instr::Jal { rd, imm } => jump(rd, r.pc, r.pc.wrapping_add(immediate(imm))),
        Instr::Jalr { rd, rs1, imm } => jump(rd, r.pc, register_target(r.read(rs1), imm)),
        Instr::Beq { rs1, rs2, imm } => branch(r.read(rs1) == r.read(rs2), r.pc, imm),
        Instr::Bne { rs1, rs2, imm } => branch(r.read(rs1) != r.read(rs2), r.pc, imm),
        Instr::Blt { rs1, rs2, imm } => branch(is_less(r.read(rs1), r.read(rs2)), r.pc, imm),
        Instr::Bge { rs1, rs2, imm } => branch(!is_less(r.read(rs1), r.read(rs2)), r.pc, imm),
        Instr::Bltu { rs1, rs2, imm } => branch(r.read(rs1) < r.read(rs2), r.pc, imm),
        Instr::Bgeu { rs1, rs2, imm } => branch(r.read(rs1) >= r.read(rs2), r.pc, imm),
        Instr::Lb { rd, rs1, imm } => load(rd, r.read(rs1), imm, 1, true),
        Instr::Lh { rd, rs1, imm } => load(rd, r.read(rs1), imm, 2, true),
        Instr::Lw { rd, rs1, imm } => load(rd, r.read(rs1), imm, 4, true),
        Instr::Ld { rd, rs1, imm } => load(rd, r.read(rs1), imm, 8, true),
        Instr::Lbu { rd, rs1, imm } => load(rd, r.read(rs1), imm, 1, false),
        Instr::Lhu { rd, rs1, imm } => load(rd, r.read(rs1), imm, 2, false),
        Instr::Lwu { rd, rs1, imm } => load(rd, r.read(rs1), imm, 4, false),
        Instr::Sb { rs1, rs2, imm } => store(r.read(rs1), imm, 1, r.read(rs2)),
        Instr::Sh { rs1, rs2, imm } => store(r.read(rs1), imm, 2, r.read(rs2)),
        Instr::Sw { rs1, rs2, imm } => store(r.read(rs1), imm, 4, r.read(rs2)),
        Instr::Sd { rs1, rs2, imm } => store(r.read(rs1), imm, 8, r.read(rs2)),
        Instr::Addi { rd, rs1, imm } => set(rd, r.read(rs1).wrapping_add(immediate(imm))),
        Instr::Slti { rd, rs1, imm } => set(rd, is_less(r.read(rs1), immediate(imm)) as u64),
        Instr::Sltiu { rd, rs1, imm } => set(rd, (r.read(rs1) < immediate(imm)) as u64),
        Instr::Xori { rd, rs1, imm } => set(rd, r.read(rs1) ^ immediate(imm)),
        Instr::Ori { rd, rs1, imm } => set(rd, r.read(rs1) | immediate(imm)),
        Instr::Andi { rd, rs1, imm } => set(rd, r.read(rs1) & immediate(imm)),
        Instr::Slli { rd, rs1, imm } => set(rd, r.read(rs1) << immediate(imm)),
        Instr::Srli { rd, rs1, imm } => set(rd, r.read(rs1) >> immediate(imm)),
        Instr::Srai { rd, rs1, imm } => set(rd, shift_right_signed(r.read(rs1), immediate(imm))),
        Instr::Add { rd, rs1, rs2 } => set(rd, r.read(rs1).wrapping_add(r.read(rs2))),
        Instr::Sll { rd, rs1, rs2 } => set(rd, r.read(rs1) << (r.read(rs2) % 64)),
        Instr::Slt { rd, rs1, rs2 } => set(rd, is_less(r.read(rs1), r.read(rs2)) as u64),
        Instr::Sltu { rd, rs1, rs2 } => set(rd, (r.read(rs1) < r.read(rs2)) as u64),
        Instr::Xor { rd, rs1, rs2 } => set(rd, r.read(rs1) ^ r.read(rs2)),
        Instr::Srl { rd, rs1, rs2 } => set(rd, r.read(rs1) >> (r.read(rs2) % 64)),
        Instr::Or { rd, rs1, rs2 } => set(rd, r.read(rs1) | r.read(rs2)),
        Instr::And { rd, rs1, rs2 } => set(rd, r.read(rs1) & r.read(rs2)),
        Instr::Sub { rd, rs1, rs2 } => set(rd, r.read(rs1).wrapping_sub(r.read(rs2))),
        Instr::Sra { rd, rs1, rs2 } => set(rd, shift_right_signed(r.read(rs1), r.read(rs2) % 64)),
        Instr::Mul { rd, rs1, rs2 } => set(rd, r.read(rs1).wrapping_mul(r.read(rs2))),
        Instr::Mulh { rd, rs1, rs2 } => set(rd, multiply_high_signed(r.read(rs1), r.read(rs2))),
        Instr::Mulhsu { rd, rs1, rs2 } => set(
            rd,
            multiply_high_signed_unsigned(r.read(rs1), r.read(rs2)),
        ),
        Instr::Mulhu { rd, rs1, rs2 } => set(rd, multiply_high(r.read(rs1), r.read(rs2))),
        Instr::Div { rd, rs1, rs2 } => set(rd, divide_signed(r.read(rs1), r.read(rs2))),
        Instr::Divu { rd, rs1, rs2 } => set(rd, divide(r.read(rs1), r.read(rs2))),
        Instr::Rem { rd, rs1, rs2 } => set(rd, remainder_signed(r.read(rs1), r.read(rs2))),
        Instr::Remu { rd, rs1, rs2 } => set(rd, remainder(r.read(rs1), r.read(rs2))),
        Instr::Addiw { rd, rs1, imm } => set(rd, word(r.read(rs1).wrapping_add(immediate(imm)))),
        Instr::Slliw { rd, rs1, imm } => set(rd, word(r.read(rs1) << immediate(imm))),
        Instr::Srliw { rd, rs1, imm } => set(rd, word(low_word(r.read(rs1)) >> immediate(imm))),
        Instr::Sraiw { rd, rs1, imm } => set(
            rd,
            shift_word_right_signed(r.read(rs1), immediate(imm)),
        ),
        Instr::Addw { rd, rs1, rs2 } => set(rd, word(r.read(rs1).wrapping_add(r.read(rs2)))),
        Instr::Sllw { rd, rs1, rs2 } => set(rd, word(r.read(rs1) << (r.read(rs2) % 32))),
        Instr::Srlw { rd, rs1, rs2 } => set(rd, word(low_word(r.read(rs1)) >> (r.read(rs2) % 32))),
        Instr::Subw { rd, rs1, rs2 } => set(rd, word(r.read(rs1).wrapping_sub(r.read(rs2)))),
        Instr::Sraw { rd, rs1, rs2 } => set(
            rd,
            shift_word_right_signed(r.read(rs1), r.read(rs2) % 32),
        ),
        Instr::Mulw { rd, rs1, rs2 } => set(rd, word(r.read(rs1).wrapping_mul(r.read(rs2)))),
        Instr::Divw { rd, rs1, rs2 } => set(rd, divide_words_signed(r.read(rs1), r.read(rs2))),
        Instr::Divuw { rd, rs1, rs2 } => set(rd, divide_words(r.read(rs1), r.read(rs2))),
        Instr::Remw { rd, rs1, rs2 } => set(rd, remainder_words_signed(r.read(rs1), r.read(rs2))),
        Instr::Remuw { rd, rs1, rs2 } => set(rd, remainder_words(r.read(rs1), r.read(rs2))),
        Instr::Ecall => Effect::Ask,
        Instr::Ebreak => Effect::Break,
    }
}

fn set(rd: u8, value: u64) -> Effect
    ensures { result ≡ Effect.Set rd value }
{
    Effect::Set { rd, value }
}

fn jump(rd: u8, pc: u64, target: u64) -> Effect
    ensures { result ≡ Effect.Jump rd (sum pc 4) target }
{
    Effect::Jump {
        rd,
        link: pc.wrapping_add(4),
        target,
    }
}

/// Where a jump by a register goes: bit 0 is cleared.
fn register_target(base: u64, imm: i32) -> u64
    ensures { result ≡ sum base (modulo 64 imm) / 2 * 2 }
{
    base.wrapping_add(immediate(imm)) / 2 * 2
}

fn branch(taken: bool, pc: u64, imm: i32) -> Effect
    ensures { result ≡ Effect.Branch taken (sum pc (modulo 64 imm)) }
{
    Effect::Branch {
        taken,
        target: pc.wrapping_add(immediate(imm)),
    }
}

fn load(rd: u8, base: u64, imm: i32, size: u8, signed: bool) -> Effect
    ensures { result ≡ Effect.Load rd (sum base (modulo 64 imm)) size signed }
{
    Effect::Load {
        rd,
        address: base.wrapping_add(immediate(imm)),
        size,
        signed,
    }
}

fn store(base: u64, imm: i32, size: u8, value: u64) -> Effect
    ensures { result ≡ Effect.Store (sum base (modulo 64 imm)) size value }
{
    Effect::Store {
        address: base.wrapping_add(immediate(imm)),
        size,
        value,
    }
}
