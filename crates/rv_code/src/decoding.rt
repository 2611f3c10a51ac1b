//! From a word to its instruction.
ghost use Rattle.std.specs.Prelude.{◌≡◌, ◌≢◌, ◌<◌, ◌^◌, ◌↔◌, ◌+◌, ◌*◌, ◌%◌, pos, IsNone};
ghost use Rattle.rv_table.specs.declared.instruction.Instr.{Instr};
ghost use Rattle.rv_table.specs.Decoding.{instr_of, by_funct3, by_funct7, by_top, by_word, indirect_jumps, branches, loads, stores, immediate_operations, left_shifts, right_shifts, register_operations, base_operations, alternate_operations, multiplications, immediate_word_operations, left_word_shifts, right_word_shifts, register_word_operations, base_word_operations, alternate_word_operations, word_multiplications, environment_calls, i_bits, s_bits, b_bits, u_bits, j_bits, shift_bits};
ghost use Rattle.rv_table.specs.Encoding.{InRange, cut};
ghost use Rattle.rv_table.specs.Table.{IsValid, word_of};
ghost use Rattle.rv_table.specs.Words.{signed};

use rv_table::{Fields, Instr};

/// The instruction of the word; none where no row of the table has the word.
pub fn decode(word: u32) -> Option<Instr>
    ensures exact { (i : Instr) → (result ≡ Some i) ↔ (IsValid i × (word_of i ≡ word)) }
    ensures table { result ≡ instr_of word }
    ensures none { IsNone result ↔ ((i : Instr) → IsValid i → word_of i ≢ word) }
{
    read_word(word)
}

fn read_word(word: u32) -> Option<Instr>
    ensures { result ≡ instr_of word }
{
    let f = cut_word(word);
    let rd = f.rd;
    match f.opcode {
        0b0110111 => Some(Instr::Lui {
            rd,
            imm: upper_immediate(f),
        }),
        0b0010111 => Some(Instr::Auipc {
            rd,
            imm: upper_immediate(f),
        }),
        0b1101111 => Some(Instr::Jal {
            rd,
            imm: jump_offset(f),
        }),
        0b1100111 => indirect_jump(f),
        0b1100011 => branch(f),
        0b0000011 => load(f),
        0b0100011 => store(f),
        0b0010011 => immediate_operation(f),
        0b0110011 => register_operation(f),
        0b0011011 => immediate_word_operation(f),
        0b0111011 => register_word_operation(f),
        0b1110011 => environment_call(word),
        _ => None,
    }
}

fn indirect_jump(f: Fields) -> Option<Instr>
    requires { InRange f }
    ensures { result ≡ by_funct3 indirect_jumps f }
{
    let Fields { rd, rs1, .. } = f;
    let imm = immediate(f);
    match f.funct3 {
        0b000 => Some(Instr::Jalr { rd, rs1, imm }),
        _ => None,
    }
}

fn branch(f: Fields) -> Option<Instr>
    requires { InRange f }
    ensures { result ≡ by_funct3 branches f }
{
    let Fields { rs1, rs2, .. } = f;
    let imm = branch_offset(f);
    match f.funct3 {
        0b000 => Some(Instr::Beq { rs1, rs2, imm }),
        0b001 => Some(Instr::Bne { rs1, rs2, imm }),
        0b100 => Some(Instr::Blt { rs1, rs2, imm }),
        0b101 => Some(Instr::Bge { rs1, rs2, imm }),
        0b110 => Some(Instr::Bltu { rs1, rs2, imm }),
        0b111 => Some(Instr::Bgeu { rs1, rs2, imm }),
        _ => None,
    }
}

fn load(f: Fields) -> Option<Instr>
    requires { InRange f }
    ensures { result ≡ by_funct3 loads f }
{
    let Fields { rd, rs1, .. } = f;
    let imm = immediate(f);
    match f.funct3 {
        0b000 => Some(Instr::Lb { rd, rs1, imm }),
        0b001 => Some(Instr::Lh { rd, rs1, imm }),
        0b010 => Some(Instr::Lw { rd, rs1, imm }),
        0b011 => Some(Instr::Ld { rd, rs1, imm }),
        0b100 => Some(Instr::Lbu { rd, rs1, imm }),
        0b101 => Some(Instr::Lhu { rd, rs1, imm }),
        0b110 => Some(Instr::Lwu { rd, rs1, imm }),
        _ => None,
    }
}

fn store(f: Fields) -> Option<Instr>
    requires { InRange f }
    ensures { result ≡ by_funct3 stores f }
{
    let Fields { rs1, rs2, .. } = f;
    let imm = store_offset(f);
    match f.funct3 {
        0b000 => Some(Instr::Sb { rs1, rs2, imm }),
        0b001 => Some(Instr::Sh { rs1, rs2, imm }),
        0b010 => Some(Instr::Sw { rs1, rs2, imm }),
        0b011 => Some(Instr::Sd { rs1, rs2, imm }),
        _ => None,
    }
}

fn immediate_operation(f: Fields) -> Option<Instr>
    requires { InRange f }
    ensures { result ≡ by_funct3 immediate_operations f }
{
    let Fields { rd, rs1, .. } = f;
    let imm = immediate(f);
    match f.funct3 {
        0b000 => Some(Instr::Addi { rd, rs1, imm }),
        0b001 => left_shift(f),
        0b010 => Some(Instr::Slti { rd, rs1, imm }),
        0b011 => Some(Instr::Sltiu { rd, rs1, imm }),
        0b100 => Some(Instr::Xori { rd, rs1, imm }),
        0b101 => right_shift(f),
        0b110 => Some(Instr::Ori { rd, rs1, imm }),
        0b111 => Some(Instr::Andi { rd, rs1, imm }),
        _ => None,
    }
}

fn left_shift(f: Fields) -> Option<Instr>
    requires { InRange f }
    ensures { result ≡ by_top left_shifts f }
{
    let Fields { rd, rs1, .. } = f;
    let imm = amount(f);
    match f.funct7 / 2 {
        0b000000 => Some(Instr::Slli { rd, rs1, imm }),
        _ => None,
    }
}

fn right_shift(f: Fields) -> Option<Instr>
    requires { InRange f }
    ensures { result ≡ by_top right_shifts f }
{
    let Fields { rd, rs1, .. } = f;
    let imm = amount(f);
    match f.funct7 / 2 {
        0b000000 => Some(Instr::Srli { rd, rs1, imm }),
        0b010000 => Some(Instr::Srai { rd, rs1, imm }),
        _ => None,
    }
}

fn register_operation(f: Fields) -> Option<Instr>
    requires { InRange f }
    ensures { result ≡ by_funct7 register_operations f }
{
    match f.funct7 {
        0b0000000 => base_operation(f),
        0b0100000 => alternate_operation(f),
        0b0000001 => multiplication(f),
        _ => None,
    }
}

fn base_operation(f: Fields) -> Option<Instr>
    requires { InRange f }
    ensures { result ≡ by_funct3 base_operations f }
{
    let Fields { rd, rs1, rs2, .. } = f;
    match f.funct3 {
        0b000 => Some(Instr::Add { rd, rs1, rs2 }),
        0b001 => Some(Instr::Sll { rd, rs1, rs2 }),
        0b010 => Some(Instr::Slt { rd, rs1, rs2 }),
        0b011 => Some(Instr::Sltu { rd, rs1, rs2 }),
        0b100 => Some(Instr::Xor { rd, rs1, rs2 }),
        0b101 => Some(Instr::Srl { rd, rs1, rs2 }),
        0b110 => Some(Instr::Or { rd, rs1, rs2 }),
        0b111 => Some(Instr::And { rd, rs1, rs2 }),
        _ => None,
    }
}

fn alternate_operation(f: Fields) -> Option<Instr>
    requires { InRange f }
    ensures { result ≡ by_funct3 alternate_operations f }
{
    let Fields { rd, rs1, rs2, .. } = f;
    match f.funct3 {
        0b000 => Some(Instr::Sub { rd, rs1, rs2 }),
        0b101 => Some(Instr::Sra { rd, rs1, rs2 }),
        _ => None,
    }
}

fn multiplication(f: Fields) -> Option<Instr>
    requires { InRange f }
    ensures { result ≡ by_funct3 multiplications f }
{
    let Fields { rd, rs1, rs2, .. } = f;
    match f.funct3 {
        0b000 => Some(Instr::Mul { rd, rs1, rs2 }),
        0b001 => Some(Instr::Mulh { rd, rs1, rs2 }),
        0b010 => Some(Instr::Mulhsu { rd, rs1, rs2 }),
        0b011 => Some(Instr::Mulhu { rd, rs1, rs2 }),
        0b100 => Some(Instr::Div { rd, rs1, rs2 }),
        0b101 => Some(Instr::Divu { rd, rs1, rs2 }),
        0b110 => Some(Instr::Rem { rd, rs1, rs2 }),
        0b111 => Some(Instr::Remu { rd, rs1, rs2 }),
        _ => None,
    }
}

fn immediate_word_operation(f: Fields) -> Option<Instr>
    requires { InRange f }
    ensures { result ≡ by_funct3 immediate_word_operations f }
{
    let Fields { rd, rs1, .. } = f;
    let imm = immediate(f);
    match f.funct3 {
        0b000 => Some(Instr::Addiw { rd, rs1, imm }),
        0b001 => left_word_shift(f),
        0b101 => right_word_shift(f),
        _ => None,
    }
}

fn left_word_shift(f: Fields) -> Option<Instr>
    requires { InRange f }
    ensures { result ≡ by_funct7 left_word_shifts f }
{
    let Fields { rd, rs1, .. } = f;
    let imm = f.rs2 as i32;
    match f.funct7 {
        0b0000000 => Some(Instr::Slliw { rd, rs1, imm }),
        _ => None,
    }
}

fn right_word_shift(f: Fields) -> Option<Instr>
    requires { InRange f }
    ensures { result ≡ by_funct7 right_word_shifts f }
{
    let Fields { rd, rs1, .. } = f;
    let imm = f.rs2 as i32;
    match f.funct7 {
        0b0000000 => Some(Instr::Srliw { rd, rs1, imm }),
        0b0100000 => Some(Instr::Sraiw { rd, rs1, imm }),
        _ => None,
    }
}

fn register_word_operation(f: Fields) -> Option<Instr>
    requires { InRange f }
    ensures { result ≡ by_funct7 register_word_operations f }
{
    match f.funct7 {
        0b0000000 => base_word_operation(f),
        0b0100000 => alternate_word_operation(f),
        0b0000001 => word_multiplication(f),
        _ => None,
    }
}

fn base_word_operation(f: Fields) -> Option<Instr>
    requires { InRange f }
    ensures { result ≡ by_funct3 base_word_operations f }
{
    let Fields { rd, rs1, rs2, .. } = f;
    match f.funct3 {
        0b000 => Some(Instr::Addw { rd, rs1, rs2 }),
        0b001 => Some(Instr::Sllw { rd, rs1, rs2 }),
        0b101 => Some(Instr::Srlw { rd, rs1, rs2 }),
        _ => None,
    }
}

fn alternate_word_operation(f: Fields) -> Option<Instr>
    requires { InRange f }
    ensures { result ≡ by_funct3 alternate_word_operations f }
{
    let Fields { rd, rs1, rs2, .. } = f;
    match f.funct3 {
        0b000 => Some(Instr::Subw { rd, rs1, rs2 }),
        0b101 => Some(Instr::Sraw { rd, rs1, rs2 }),
        _ => None,
    }
}

fn word_multiplication(f: Fields) -> Option<Instr>
    requires { InRange f }
    ensures { result ≡ by_funct3 word_multiplications f }
{
    let Fields { rd, rs1, rs2, .. } = f;
    match f.funct3 {
        0b000 => Some(Instr::Mulw { rd, rs1, rs2 }),
        0b100 => Some(Instr::Divw { rd, rs1, rs2 }),
        0b101 => Some(Instr::Divuw { rd, rs1, rs2 }),
        0b110 => Some(Instr::Remw { rd, rs1, rs2 }),
        0b111 => Some(Instr::Remuw { rd, rs1, rs2 }),
        _ => None,
    }
}

fn environment_call(word: u32) -> Option<Instr>
    ensures { result ≡ by_word environment_calls (cut word) }
{
    match word {
        0x0000_0073 => Some(Instr::Ecall),
        0x0010_0073 => Some(Instr::Ebreak),
        _ => None,
    }
}

/// The fields of the word.
fn cut_word(word: u32) -> Fields
    ensures fields { result ≡ cut word }
    ensures in_range { InRange result }
{
    Fields {
        opcode: (word % 128) as u8,
        rd: (word / 128 % 32) as u8,
        funct3: (word / 4096 % 8) as u8,
        rs1: (word / 32_768 % 32) as u8,
        rs2: (word / 1_048_576 % 32) as u8,
        funct7: (word / 33_554_432) as u8,
    }
}

/// The immediate of the I format.
fn immediate(f: Fields) -> i32
    requires { InRange f }
    ensures { result ≡ signed 12 (i_bits f) }
{
    signed(12, f.funct7 as u32 * 32 + f.rs2 as u32)
}

/// The immediate of the S format.
fn store_offset(f: Fields) -> i32
    requires { InRange f }
    ensures { result ≡ signed 12 (s_bits f) }
{
    signed(12, f.funct7 as u32 * 32 + f.rd as u32)
}

/// The immediate of the B format.
fn branch_offset(f: Fields) -> i32
    requires { InRange f }
    ensures { result ≡ signed 13 (b_bits f) }
{
    let high = f.funct7 as u32 / 64 * 0x1000 + f.rd as u32 % 2 * 0x800;
    signed(13, high + f.funct7 as u32 % 64 * 32 + f.rd as u32 / 2 * 2)
}

/// The immediate of the U format.
fn upper_immediate(f: Fields) -> i32
    requires { InRange f }
    ensures { result ≡ pos (u_bits f) }
{
    upper_bits(f) as i32
}

/// The immediate of the J format.
fn jump_offset(f: Fields) -> i32
    requires { InRange f }
    ensures { result ≡ signed 21 (j_bits f) }
{
    let bits = upper_bits(f);
    let high = bits / 0x8_0000 * 0x10_0000 + bits % 0x100 * 0x1000;
    signed(
        21,
        high + bits / 0x100 % 2 * 0x800 + bits / 0x200 % 0x400 * 2,
    )
}

/// Bits 31 to 12 of the word.
fn upper_bits(f: Fields) -> u32
    requires { InRange f }
    ensures value { result ≡ u_bits f }
    ensures fits { result < 2 ^ 20 }
{
    f.funct7 as u32 * 0x2000 + f.rs2 as u32 * 0x100 + f.rs1 as u32 * 8 + f.funct3 as u32
}

/// The amount of a shift of 64 bits.
fn amount(f: Fields) -> i32
    ensures { result ≡ pos (shift_bits f) }
{
    (f.funct7 % 2) as i32 * 32 + f.rs2 as i32
}

/// The lowest `width` bits as a signed number.
fn signed(width: u32, bits: u32) -> i32
    requires some { 0 < width }
    requires few { width < 31 }
    requires fits { bits < 2 ^ width }
    ensures { result ≡ signed width bits }
{
    if bits < 1 << (width - 1) {
        bits as i32
    } else {
        bits as i32 - (1i32 << width)
    }
}
