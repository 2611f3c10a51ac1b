//! The instructions, one variant a row of the table.
ghost use Rattle.std.specs.Prelude.{◌↔◌, IsTrue, ◌<◌};
ghost use Rattle.rv_table.specs.Encoding.{RType, IType, Shift, WordShift, SType, BType, UType, JType, Fits, IsBetween, IsEven};
ghost use Rattle.rv_table.specs.Table.{IsValid};

/// An instruction of RV64IM with its operands (RISC-V ISA Volume I, "RV32/64G Instruction Set Listings"). `rd` is the register
/// that is written, and `rs1` and `rs2` are those that are read. `imm` is the signed number of the format, in bytes for jumps,
/// branches, loads and stores. For `Lui` and `Auipc` it is the upper 20 bits as a number from 0 to 1,048,575, and for a shift by an
/// immediate its amount.
#[derive(Clone, Copy)]
pub enum Instr {
    /// The immediate over twelve zeros.
    Lui { rd: u8, imm: i32 },
    /// The same, added to pc.
    Auipc { rd: u8, imm: i32 },
    /// A jump by `imm` bytes, with the address after it as its link.
    Jal { rd: u8, imm: i32 },
    /// A jump to `rs1` plus `imm`, with bit 0 cleared.
    Jalr { rd: u8, rs1: u8, imm: i32 },
    /// Branches by `imm` bytes: if equal.
    Beq { rs1: u8, rs2: u8, imm: i32 },
    /// If not equal.
    Bne { rs1: u8, rs2: u8, imm: i32 },
    /// If less, signed.
    Blt { rs1: u8, rs2: u8, imm: i32 },
    /// If not less, signed.
    Bge { rs1: u8, rs2: u8, imm: i32 },
    /// If less, unsigned.
    Bltu { rs1: u8, rs2: u8, imm: i32 },
    /// If not less, unsigned.
    Bgeu { rs1: u8, rs2: u8, imm: i32 },
    /// Loads at `rs1` plus `imm`: a byte, sign-extended.
    Lb { rd: u8, rs1: u8, imm: i32 },
    /// Two bytes, sign-extended.
    Lh { rd: u8, rs1: u8, imm: i32 },
    /// Four bytes, sign-extended.
    Lw { rd: u8, rs1: u8, imm: i32 },
    /// Eight bytes.
    Ld { rd: u8, rs1: u8, imm: i32 },
    /// A byte, zero-extended.
    Lbu { rd: u8, rs1: u8, imm: i32 },
    /// Two bytes, zero-extended.
    Lhu { rd: u8, rs1: u8, imm: i32 },
    /// Four bytes, zero-extended.
    Lwu { rd: u8, rs1: u8, imm: i32 },
    /// Stores at `rs1` plus `imm`: the low byte of `rs2`.
    Sb { rs1: u8, rs2: u8, imm: i32 },
    /// Its low two bytes.
    Sh { rs1: u8, rs2: u8, imm: i32 },
    /// Its low four bytes.
    Sw { rs1: u8, rs2: u8, imm: i32 },
    /// All its eight bytes.
    Sd { rs1: u8, rs2: u8, imm: i32 },
    /// Operations on `rs1` and the immediate: the sum.
    Addi { rd: u8, rs1: u8, imm: i32 },
    /// 1 if less, signed, else 0.
    Slti { rd: u8, rs1: u8, imm: i32 },
    /// 1 if less, unsigned, else 0.
    Sltiu { rd: u8, rs1: u8, imm: i32 },
    /// Exclusive or.
    Xori { rd: u8, rs1: u8, imm: i32 },
    /// Or.
    Ori { rd: u8, rs1: u8, imm: i32 },
    /// And.
    Andi { rd: u8, rs1: u8, imm: i32 },
    /// Shift to the left.
    Slli { rd: u8, rs1: u8, imm: i32 },
    /// Shift to the right.
    Srli { rd: u8, rs1: u8, imm: i32 },
    /// Shift to the right that keeps the sign.
    Srai { rd: u8, rs1: u8, imm: i32 },
    /// Operations on `rs1` and `rs2`: the sum.
    Add { rd: u8, rs1: u8, rs2: u8 },
    /// Shift to the left, by the low six bits.
    Sll { rd: u8, rs1: u8, rs2: u8 },
    /// 1 if less, signed, else 0.
    Slt { rd: u8, rs1: u8, rs2: u8 },
    /// 1 if less, unsigned, else 0.
    Sltu { rd: u8, rs1: u8, rs2: u8 },
    /// Exclusive or.
    Xor { rd: u8, rs1: u8, rs2: u8 },
    /// Shift to the right, by the low six bits.
    Srl { rd: u8, rs1: u8, rs2: u8 },
    /// Or.
    Or { rd: u8, rs1: u8, rs2: u8 },
    /// And.
    And { rd: u8, rs1: u8, rs2: u8 },
    /// The difference.
    Sub { rd: u8, rs1: u8, rs2: u8 },
    /// Shift to the right that keeps the sign, by the low six bits.
    Sra { rd: u8, rs1: u8, rs2: u8 },
    /// The product's lower half.
    Mul { rd: u8, rs1: u8, rs2: u8 },
    /// Its upper half, signed.
    Mulh { rd: u8, rs1: u8, rs2: u8 },
    /// Its upper half, `rs1` signed and `rs2` unsigned.
    Mulhsu { rd: u8, rs1: u8, rs2: u8 },
    /// Its upper half, unsigned.
    Mulhu { rd: u8, rs1: u8, rs2: u8 },
    /// The quotient, signed, rounded toward zero; all ones if `rs2` is 0.
    Div { rd: u8, rs1: u8, rs2: u8 },
    /// The quotient, unsigned; all ones if `rs2` is 0.
    Divu { rd: u8, rs1: u8, rs2: u8 },
    /// The remainder, signed; `rs1` if `rs2` is 0.
    Rem { rd: u8, rs1: u8, rs2: u8 },
    /// The remainder, unsigned; `rs1` if `rs2` is 0.
    Remu { rd: u8, rs1: u8, rs2: u8 },
    /// The same on the low 32 bits, with the result sign-extended: the sum with the immediate.
    Addiw { rd: u8, rs1: u8, imm: i32 },
    /// Shift to the left.
    Slliw { rd: u8, rs1: u8, imm: i32 },
    /// Shift to the right.
    Srliw { rd: u8, rs1: u8, imm: i32 },
    /// Shift to the right that keeps the sign.
    Sraiw { rd: u8, rs1: u8, imm: i32 },
    /// The sum.
    Addw { rd: u8, rs1: u8, rs2: u8 },
    /// Shift to the left, by the low five bits.
    Sllw { rd: u8, rs1: u8, rs2: u8 },
    /// Shift to the right, by the low five bits.
    Srlw { rd: u8, rs1: u8, rs2: u8 },
    /// The difference.
    Subw { rd: u8, rs1: u8, rs2: u8 },
    /// Shift to the right that keeps the sign, by the low five bits.
    Sraw { rd: u8, rs1: u8, rs2: u8 },
    /// The product.
    Mulw { rd: u8, rs1: u8, rs2: u8 },
    /// The quotient, signed.
    Divw { rd: u8, rs1: u8, rs2: u8 },
    /// The quotient, unsigned.
    Divuw { rd: u8, rs1: u8, rs2: u8 },
    /// The remainder, signed.
    Remw { rd: u8, rs1: u8, rs2: u8 },
    /// The remainder, unsigned.
    Remuw { rd: u8, rs1: u8, rs2: u8 },
    /// A request to what lies outside.
    Ecall,
    /// A break for a debugger.
    Ebreak,
}

/// Whether every operand fits its field: each register is below 32, and `imm` is in the range of its format.
pub fn valid(i: Instr) -> bool
    ensures { IsTrue result ↔ IsValid i }
{
    match i {
        Instr::Lui { rd, imm } => fits_u(rd, imm),
        Instr::Auipc { rd, imm } => fits_u(rd, imm),
        Instr::Jal { rd, imm } => fits_j(rd, imm),
        Instr::Jalr { rd, rs1, imm } => fits_i(rd, rs1, imm),
        Instr::Beq { rs1, rs2, imm } => fits_b(rs1, rs2, imm),
        Instr::Bne { rs1, rs2, imm } => fits_b(rs1, rs2, imm),
        Instr::Blt { rs1, rs2, imm } => fits_b(rs1, rs2, imm),
        Instr::Bge { rs1, rs2, imm } => fits_b(rs1, rs2, imm),
        Instr::Bltu { rs1, rs2, imm } => fits_b(rs1, rs2, imm),
        Instr::Bgeu { rs1, rs2, imm } => fits_b(rs1, rs2, imm),
        Instr::Lb { rd, rs1, imm } => fits_i(rd, rs1, imm),
        Instr::Lh { rd, rs1, imm } => fits_i(rd, rs1, imm),
        Instr::Lw { rd, rs1, imm } => fits_i(rd, rs1, imm),
        Instr::Ld { rd, rs1, imm } => fits_i(rd, rs1, imm),
        Instr::Lbu { rd, rs1, imm } => fits_i(rd, rs1, imm),
        Instr::Lhu { rd, rs1, imm } => fits_i(rd, rs1, imm),
        Instr::Lwu { rd, rs1, imm } => fits_i(rd, rs1, imm),
        Instr::Sb { rs1, rs2, imm } => fits_s(rs1, rs2, imm),
        Instr::Sh { rs1, rs2, imm } => fits_s(rs1, rs2, imm),
        Instr::Sw { rs1, rs2, imm } => fits_s(rs1, rs2, imm),
        Instr::Sd { rs1, rs2, imm } => fits_s(rs1, rs2, imm),
        Instr::Addi { rd, rs1, imm } => fits_i(rd, rs1, imm),
        Instr::Slti { rd, rs1, imm } => fits_i(rd, rs1, imm),
        Instr::Sltiu { rd, rs1, imm } => fits_i(rd, rs1, imm),
        Instr::Xori { rd, rs1, imm } => fits_i(rd, rs1, imm),
        Instr::Ori { rd, rs1, imm } => fits_i(rd, rs1, imm),
        Instr::Andi { rd, rs1, imm } => fits_i(rd, rs1, imm),
        Instr::Slli { rd, rs1, imm } => fits_shift(rd, rs1, imm),
        Instr::Srli { rd, rs1, imm } => fits_shift(rd, rs1, imm),
        Instr::Srai { rd, rs1, imm } => fits_shift(rd, rs1, imm),
        Instr::Addiw { rd, rs1, imm } => fits_i(rd, rs1, imm),
        Instr::Slliw { rd, rs1, imm } => fits_word_shift(rd, rs1, imm),
        Instr::Srliw { rd, rs1, imm } => fits_word_shift(rd, rs1, imm),
        Instr::Sraiw { rd, rs1, imm } => fits_word_shift(rd, rs1, imm),
        Instr::Add { rd, rs1, rs2 }
        | Instr::Sll { rd, rs1, rs2 }
        | Instr::Slt { rd, rs1, rs2 }
        | Instr::Sltu { rd, rs1, rs2 }
        | Instr::Xor { rd, rs1, rs2 }
        | Instr::Srl { rd, rs1, rs2 }
        | Instr::Or { rd, rs1, rs2 }
        | Instr::And { rd, rs1, rs2 }
        | Instr::Sub { rd, rs1, rs2 }
        | Instr::Sra { rd, rs1, rs2 }
        | Instr::Mul { rd, rs1, rs2 }
        | Instr::Mulh { rd, rs1, rs2 }
        | Instr::Mulhsu { rd, rs1, rs2 }
        | Instr::Mulhu { rd, rs1, rs2 }
        | Instr::Div { rd, rs1, rs2 }
        | Instr::Divu { rd, rs1, rs2 }
        | Instr::Rem { rd, rs1, rs2 }
        | Instr::Remu { rd, rs1, rs2 }
        | Instr::Addw { rd, rs1, rs2 }
        | Instr::Sllw { rd, rs1, rs2 }
        | Instr::Srlw { rd, rs1, rs2 }
        | Instr::Subw { rd, rs1, rs2 }
        | Instr::Sraw { rd, rs1, rs2 }
        | Instr::Mulw { rd, rs1, rs2 }
        | Instr::Divw { rd, rs1, rs2 }
        | Instr::Divuw { rd, rs1, rs2 }
        | Instr::Remw { rd, rs1, rs2 }
        | Instr::Remuw { rd, rs1, rs2 } => fits_r(rd, rs1, rs2),
        Instr::Ecall | Instr::Ebreak => true,
    }
}

fn fits_r(rd: u8, rs1: u8, rs2: u8) -> bool
    ensures { IsTrue result ↔ Fits (RType 0 0 0 rd rs1 rs2) }
{
    are_registers(rd, rs1) && rs2 < 32
}

fn fits_i(rd: u8, rs1: u8, imm: i32) -> bool
    ensures { IsTrue result ↔ Fits (IType 0 0 rd rs1 imm) }
{
    are_registers(rd, rs1) && is_between(imm, -2048, 2047)
}

fn fits_shift(rd: u8, rs1: u8, amount: i32) -> bool
    ensures { IsTrue result ↔ Fits (Shift 0 0 0 rd rs1 amount) }
{
    are_registers(rd, rs1) && is_between(amount, 0, 63)
}

fn fits_word_shift(rd: u8, rs1: u8, amount: i32) -> bool
    ensures { IsTrue result ↔ Fits (WordShift 0 0 0 rd rs1 amount) }
{
    are_registers(rd, rs1) && is_between(amount, 0, 31)
}

fn fits_s(rs1: u8, rs2: u8, imm: i32) -> bool
    ensures { IsTrue result ↔ Fits (SType 0 0 rs1 rs2 imm) }
{
    are_registers(rs1, rs2) && is_between(imm, -2048, 2047)
}

fn fits_b(rs1: u8, rs2: u8, imm: i32) -> bool
    ensures { IsTrue result ↔ Fits (BType 0 0 rs1 rs2 imm) }
{
    are_registers(rs1, rs2) && is_between(imm, -4096, 4094) && is_even(imm)
}

fn fits_u(rd: u8, imm: i32) -> bool
    ensures { IsTrue result ↔ Fits (UType 0 rd imm) }
{
    rd < 32 && is_between(imm, 0, 1_048_575)
}

fn fits_j(rd: u8, imm: i32) -> bool
    ensures { IsTrue result ↔ Fits (JType 0 rd imm) }
{
    rd < 32 && is_between(imm, -1_048_576, 1_048_574) && is_even(imm)
}

fn are_registers(a: u8, b: u8) -> bool
    ensures { IsTrue result ↔ ((a < 32) × (b < 32)) }
{
    a < 32 && b < 32
}

fn is_between(imm: i32, low: i32, high: i32) -> bool
    ensures { IsTrue result ↔ IsBetween low high imm }
{
    low <= imm && imm <= high
}

fn is_even(imm: i32) -> bool
    ensures { IsTrue result ↔ IsEven imm }
{
    imm.cast_unsigned() % 2 == 0
}
