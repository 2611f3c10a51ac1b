//! From an instruction to its word.
ghost use Rattle.std.specs.Prelude.{◌≡◌, ◌<◌, ◌^◌};
ghost use Rattle.rv_table.specs.Encoding.{RType, IType, Shift, WordShift, SType, BType, UType, JType, fields_of, packed, with_upper};
ghost use Rattle.rv_table.specs.Table.{IsValid, encoding_of, word_of};
ghost use Rattle.rv_table.specs.Words.{modulo};

use rv_table::{Fields, Instr};

/// The word of the instruction.
pub fn encode(i: Instr) -> u32
    requires { IsValid i }
    ensures { result ≡ word_of i }
{
    pack(fields(i))
}

/// What the instruction puts into its word's fields, one line a row.
fn fields(i: Instr) -> Fields
    requires { IsValid i }
    ensures { result ≡ fields_of (encoding_of i) }
{
    match i {
        Instr::Lui { rd, imm } => u_type(0b0110111, rd, imm),
        Instr::Auipc { rd, imm } => u_type(0b0010111, rd, imm),
        Instr::Jal { rd, imm } => j_type(0b1101111, rd, imm),
        Instr::Jalr { rd, rs1, imm } => i_type(0b1100111, 0b000, rd, rs1, imm),
        Instr::Beq { rs1, rs2, imm } => b_type(0b1100011, 0b000, rs1, rs2, imm),
        Instr::Bne { rs1, rs2, imm } => b_type(0b1100011, 0b001, rs1, rs2, imm),
        Instr::Blt { rs1, rs2, imm } => b_type(0b1100011, 0b100, rs1, rs2, imm),
        Instr::Bge { rs1, rs2, imm } => b_type(0b1100011, 0b101, rs1, rs2, imm),
        Instr::Bltu { rs1, rs2, imm } => b_type(0b1100011, 0b110, rs1, rs2, imm),
        Instr::Bgeu { rs1, rs2, imm } => b_type(0b1100011, 0b111, rs1, rs2, imm),
        Instr::Lb { rd, rs1, imm } => i_type(0b0000011, 0b000, rd, rs1, imm),
        Instr::Lh { rd, rs1, imm } => i_type(0b0000011, 0b001, rd, rs1, imm),
        Instr::Lw { rd, rs1, imm } => i_type(0b0000011, 0b010, rd, rs1, imm),
        Instr::Ld { rd, rs1, imm } => i_type(0b0000011, 0b011, rd, rs1, imm),
        Instr::Lbu { rd, rs1, imm } => i_type(0b0000011, 0b100, rd, rs1, imm),
        Instr::Lhu { rd, rs1, imm } => i_type(0b0000011, 0b101, rd, rs1, imm),
        Instr::Lwu { rd, rs1, imm } => i_type(0b0000011, 0b110, rd, rs1, imm),
        Instr::Sb { rs1, rs2, imm } => s_type(0b0100011, 0b000, rs1, rs2, imm),
        Instr::Sh { rs1, rs2, imm } => s_type(0b0100011, 0b001, rs1, rs2, imm),
        Instr::Sw { rs1, rs2, imm } => s_type(0b0100011, 0b010, rs1, rs2, imm),
        Instr::Sd { rs1, rs2, imm } => s_type(0b0100011, 0b011, rs1, rs2, imm),
        Instr::Addi { rd, rs1, imm } => i_type(0b0010011, 0b000, rd, rs1, imm),
        Instr::Slti { rd, rs1, imm } => i_type(0b0010011, 0b010, rd, rs1, imm),
        Instr::Sltiu { rd, rs1, imm } => i_type(0b0010011, 0b011, rd, rs1, imm),
        Instr::Xori { rd, rs1, imm } => i_type(0b0010011, 0b100, rd, rs1, imm),
        Instr::Ori { rd, rs1, imm } => i_type(0b0010011, 0b110, rd, rs1, imm),
        Instr::Andi { rd, rs1, imm } => i_type(0b0010011, 0b111, rd, rs1, imm),
        Instr::Slli { rd, rs1, imm } => shift(0b0010011, 0b001, 0b000000, rd, rs1, imm),
        Instr::Srli { rd, rs1, imm } => shift(0b0010011, 0b101, 0b000000, rd, rs1, imm),
        Instr::Srai { rd, rs1, imm } => shift(0b0010011, 0b101, 0b010000, rd, rs1, imm),
        Instr::Add { rd, rs1, rs2 } => r_type(0b0110011, 0b000, 0b0000000, rd, rs1, rs2),
        Instr::Sll { rd, rs1, rs2 } => r_type(0b0110011, 0b001, 0b0000000, rd, rs1, rs2),
        Instr::Slt { rd, rs1, rs2 } => r_type(0b0110011, 0b010, 0b0000000, rd, rs1, rs2),
        Instr::Sltu { rd, rs1, rs2 } => r_type(0b0110011, 0b011, 0b0000000, rd, rs1, rs2),
        Instr::Xor { rd, rs1, rs2 } => r_type(0b0110011, 0b100, 0b0000000, rd, rs1, rs2),
        Instr::Srl { rd, rs1, rs2 } => r_type(0b0110011, 0b101, 0b0000000, rd, rs1, rs2),
        Instr::Or { rd, rs1, rs2 } => r_type(0b0110011, 0b110, 0b0000000, rd, rs1, rs2),
        Instr::And { rd, rs1, rs2 } => r_type(0b0110011, 0b111, 0b0000000, rd, rs1, rs2),
        Instr::Sub { rd, rs1, rs2 } => r_type(0b0110011, 0b000, 0b0100000, rd, rs1, rs2),
        Instr::Sra { rd, rs1, rs2 } => r_type(0b0110011, 0b101, 0b0100000, rd, rs1, rs2),
        Instr::Mul { rd, rs1, rs2 } => r_type(0b0110011, 0b000, 0b0000001, rd, rs1, rs2),
        Instr::Mulh { rd, rs1, rs2 } => r_type(0b0110011, 0b001, 0b0000001, rd, rs1, rs2),
        Instr::Mulhsu { rd, rs1, rs2 } => r_type(0b0110011, 0b010, 0b0000001, rd, rs1, rs2),
        Instr::Mulhu { rd, rs1, rs2 } => r_type(0b0110011, 0b011, 0b0000001, rd, rs1, rs2),
        Instr::Div { rd, rs1, rs2 } => r_type(0b0110011, 0b100, 0b0000001, rd, rs1, rs2),
        Instr::Divu { rd, rs1, rs2 } => r_type(0b0110011, 0b101, 0b0000001, rd, rs1, rs2),
        Instr::Rem { rd, rs1, rs2 } => r_type(0b0110011, 0b110, 0b0000001, rd, rs1, rs2),
        Instr::Remu { rd, rs1, rs2 } => r_type(0b0110011, 0b111, 0b0000001, rd, rs1, rs2),
        Instr::Addiw { rd, rs1, imm } => i_type(0b0011011, 0b000, rd, rs1, imm),
        Instr::Slliw { rd, rs1, imm } => word_shift(0b0011011, 0b001, 0b0000000, rd, rs1, imm),
        Instr::Srliw { rd, rs1, imm } => word_shift(0b0011011, 0b101, 0b0000000, rd, rs1, imm),
        Instr::Sraiw { rd, rs1, imm } => word_shift(0b0011011, 0b101, 0b0100000, rd, rs1, imm),
        Instr::Addw { rd, rs1, rs2 } => r_type(0b0111011, 0b000, 0b0000000, rd, rs1, rs2),
        Instr::Sllw { rd, rs1, rs2 } => r_type(0b0111011, 0b001, 0b0000000, rd, rs1, rs2),
        Instr::Srlw { rd, rs1, rs2 } => r_type(0b0111011, 0b101, 0b0000000, rd, rs1, rs2),
        Instr::Subw { rd, rs1, rs2 } => r_type(0b0111011, 0b000, 0b0100000, rd, rs1, rs2),
        Instr::Sraw { rd, rs1, rs2 } => r_type(0b0111011, 0b101, 0b0100000, rd, rs1, rs2),
        Instr::Mulw { rd, rs1, rs2 } => r_type(0b0111011, 0b000, 0b0000001, rd, rs1, rs2),
        Instr::Divw { rd, rs1, rs2 } => r_type(0b0111011, 0b100, 0b0000001, rd, rs1, rs2),
        Instr::Divuw { rd, rs1, rs2 } => r_type(0b0111011, 0b101, 0b0000001, rd, rs1, rs2),
        Instr::Remw { rd, rs1, rs2 } => r_type(0b0111011, 0b110, 0b0000001, rd, rs1, rs2),
        Instr::Remuw { rd, rs1, rs2 } => r_type(0b0111011, 0b111, 0b0000001, rd, rs1, rs2),
        Instr::Ecall => i_type(0b1110011, 0b000, 0, 0, 0),
        Instr::Ebreak => i_type(0b1110011, 0b000, 0, 0, 1),
    }
}

fn r_type(opcode: u8, funct3: u8, funct7: u8, rd: u8, rs1: u8, rs2: u8) -> Fields
    ensures { result ≡ fields_of (RType opcode funct3 funct7 rd rs1 rs2) }
{
    Fields {
        opcode,
        rd,
        funct3,
        rs1,
        rs2,
        funct7,
    }
}

fn i_type(opcode: u8, funct3: u8, rd: u8, rs1: u8, imm: i32) -> Fields
    ensures { result ≡ fields_of (IType opcode funct3 rd rs1 imm) }
{
    let bits = imm.cast_unsigned() % 0x1000;
    Fields {
        opcode,
        rd,
        funct3,
        rs1,
        rs2: (bits % 32) as u8,
        funct7: (bits / 32) as u8,
    }
}

fn shift(opcode: u8, funct3: u8, top: u8, rd: u8, rs1: u8, amount: i32) -> Fields
    requires { top < 64 }
    ensures { result ≡ fields_of (Shift opcode funct3 top rd rs1 amount) }
{
    let bits = amount.cast_unsigned() % 64;
    Fields {
        opcode,
        rd,
        funct3,
        rs1,
        rs2: (bits % 32) as u8,
        funct7: top * 2 + (bits / 32) as u8,
    }
}

fn word_shift(opcode: u8, funct3: u8, funct7: u8, rd: u8, rs1: u8, amount: i32) -> Fields
    ensures { result ≡ fields_of (WordShift opcode funct3 funct7 rd rs1 amount) }
{
    Fields {
        opcode,
        rd,
        funct3,
        rs1,
        rs2: (amount.cast_unsigned() % 32) as u8,
        funct7,
    }
}

fn s_type(opcode: u8, funct3: u8, rs1: u8, rs2: u8, imm: i32) -> Fields
    ensures { result ≡ fields_of (SType opcode funct3 rs1 rs2 imm) }
{
    let bits = imm.cast_unsigned() % 0x1000;
    Fields {
        opcode,
        rd: (bits % 32) as u8,
        funct3,
        rs1,
        rs2,
        funct7: (bits / 32) as u8,
    }
}

/// Bit 12 of the immediate and bits 10 to 5 are in `funct7`, and bits 4 to 1 and bit 11 in `rd`.
fn b_type(opcode: u8, funct3: u8, rs1: u8, rs2: u8, imm: i32) -> Fields
    ensures { result ≡ fields_of (BType opcode funct3 rs1 rs2 imm) }
{
    let bits = imm.cast_unsigned() % 0x2000;
    let rd = (bits / 2 % 16) * 2 + bits / 0x800 % 2;
    let funct7 = bits / 0x1000 * 64 + bits / 32 % 64;
    Fields {
        opcode,
        rd: rd as u8,
        funct3,
        rs1,
        rs2,
        funct7: funct7 as u8,
    }
}

fn u_type(opcode: u8, rd: u8, imm: i32) -> Fields
    ensures { result ≡ fields_of (UType opcode rd imm) }
{
    with_upper(opcode, rd, imm.cast_unsigned() % 0x10_0000)
}

/// Bit 20 of the immediate, bits 10 to 1, bit 11 and bits 19 to 12 stand above bit 12, in that order.
fn j_type(opcode: u8, rd: u8, imm: i32) -> Fields
    ensures { result ≡ fields_of (JType opcode rd imm) }
{
    let bits = imm.cast_unsigned() % 0x20_0000;
    let order = bits / 0x10_0000 * 0x8_0000
        + bits / 2 % 0x400 * 0x200
        + bits / 0x800 % 2 * 0x100
        + bits / 0x1000 % 0x100;
    with_upper(opcode, rd, order)
}

/// The fields of a word whose bits from 12 on are `bits`.
fn with_upper(opcode: u8, rd: u8, bits: u32) -> Fields
    requires { bits < 2 ^ 20 }
    ensures { result ≡ with_upper opcode rd bits }
{
    Fields {
        opcode,
        rd,
        funct3: (bits % 8) as u8,
        rs1: (bits / 8 % 32) as u8,
        rs2: (bits / 256 % 32) as u8,
        funct7: (bits / 8192) as u8,
    }
}

/// The word of these fields.
fn pack(f: Fields) -> u32
    requires { packed f < 2 ^ 32 }
    ensures { result ≡ packed f }
{
    f.opcode as u32
        + ((f.rd as u32) << 7)
        + ((f.funct3 as u32) << 12)
        + ((f.rs1 as u32) << 15)
        + ((f.rs2 as u32) << 20)
        + ((f.funct7 as u32) << 25)
}
