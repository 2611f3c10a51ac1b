//! How an instruction is printed: its name, and its operands by theirs.

use rv_table::Instr;
use std::io;

/// The operands of an instruction.
#[derive(Clone, Copy)]
enum Operands {
    Upper { rd: u8, imm: i32 },
    Immediate { rd: u8, rs1: u8, imm: i32 },
    Sources { rs1: u8, rs2: u8, imm: i32 },
    Registers { rd: u8, rs1: u8, rs2: u8 },
    Nothing,
}

/// Prints an instruction.
pub fn print_instruction(rt: &impl Print, instruction: Instr) -> io::Result<()> {
    let (name, operands) = shown(instruction);
    print!(rt; " {name}")?;
    match operands {
        Operands::Upper { rd, imm } => print!(rt; " {{ rd: {rd}, imm: {imm} }}"),
        Operands::Immediate { rd, rs1, imm } => {
            print!(rt; " {{ rd: {rd}, rs1: {rs1}, imm: {imm} }}")
        }
        Operands::Sources { rs1, rs2, imm } => {
            print!(rt; " {{ rs1: {rs1}, rs2: {rs2}, imm: {imm} }}")
        }
        Operands::Registers { rd, rs1, rs2 } => {
            print!(rt; " {{ rd: {rd}, rs1: {rs1}, rs2: {rs2} }}")
        }
        Operands::Nothing => Ok(()),
    }
}

/// What an instruction is called, and its operands.
fn shown(instruction: Instr) -> (&'static str, Operands) {
    match instruction {
        Instr::Lui { rd, imm } => ("Lui", Operands::Upper { rd, imm }),
        Instr::Auipc { rd, imm } => ("Auipc", Operands::Upper { rd, imm }),
        Instr::Jal { rd, imm } => ("Jal", Operands::Upper { rd, imm }),
        Instr::Jalr { rd, rs1, imm } => ("Jalr", Operands::Immediate { rd, rs1, imm }),
        Instr::Beq { rs1, rs2, imm } => ("Beq", Operands::Sources { rs1, rs2, imm }),
        Instr::Bne { rs1, rs2, imm } => ("Bne", Operands::Sources { rs1, rs2, imm }),
        Instr::Blt { rs1, rs2, imm } => ("Blt", Operands::Sources { rs1, rs2, imm }),
        Instr::Bge { rs1, rs2, imm } => ("Bge", Operands::Sources { rs1, rs2, imm }),
        Instr::Bltu { rs1, rs2, imm } => ("Bltu", Operands::Sources { rs1, rs2, imm }),
        Instr::Bgeu { rs1, rs2, imm } => ("Bgeu", Operands::Sources { rs1, rs2, imm }),
        Instr::Lb { rd, rs1, imm } => ("Lb", Operands::Immediate { rd, rs1, imm }),
        Instr::Lh { rd, rs1, imm } => ("Lh", Operands::Immediate { rd, rs1, imm }),
        Instr::Lw { rd, rs1, imm } => ("Lw", Operands::Immediate { rd, rs1, imm }),
        Instr::Ld { rd, rs1, imm } => ("Ld", Operands::Immediate { rd, rs1, imm }),
        Instr::Lbu { rd, rs1, imm } => ("Lbu", Operands::Immediate { rd, rs1, imm }),
        Instr::Lhu { rd, rs1, imm } => ("Lhu", Operands::Immediate { rd, rs1, imm }),
        Instr::Lwu { rd, rs1, imm } => ("Lwu", Operands::Immediate { rd, rs1, imm }),
        Instr::Sb { rs1, rs2, imm } => ("Sb", Operands::Sources { rs1, rs2, imm }),
        Instr::Sh { rs1, rs2, imm } => ("Sh", Operands::Sources { rs1, rs2, imm }),
        Instr::Sw { rs1, rs2, imm } => ("Sw", Operands::Sources { rs1, rs2, imm }),
        Instr::Sd { rs1, rs2, imm } => ("Sd", Operands::Sources { rs1, rs2, imm }),
        Instr::Addi { rd, rs1, imm } => ("Addi", Operands::Immediate { rd, rs1, imm }),
        Instr::Slti { rd, rs1, imm } => ("Slti", Operands::Immediate { rd, rs1, imm }),
        Instr::Sltiu { rd, rs1, imm } => ("Sltiu", Operands::Immediate { rd, rs1, imm }),
        Instr::Xori { rd, rs1, imm } => ("Xori", Operands::Immediate { rd, rs1, imm }),
        Instr::Ori { rd, rs1, imm } => ("Ori", Operands::Immediate { rd, rs1, imm }),
        Instr::Andi { rd, rs1, imm } => ("Andi", Operands::Immediate { rd, rs1, imm }),
        Instr::Slli { rd, rs1, imm } => ("Slli", Operands::Immediate { rd, rs1, imm }),
        Instr::Srli { rd, rs1, imm } => ("Srli", Operands::Immediate { rd, rs1, imm }),
        Instr::Srai { rd, rs1, imm } => ("Srai", Operands::Immediate { rd, rs1, imm }),
        Instr::Add { rd, rs1, rs2 } => ("Add", Operands::Registers { rd, rs1, rs2 }),
        Instr::Sll { rd, rs1, rs2 } => ("Sll", Operands::Registers { rd, rs1, rs2 }),
        Instr::Slt { rd, rs1, rs2 } => ("Slt", Operands::Registers { rd, rs1, rs2 }),
        Instr::Sltu { rd, rs1, rs2 } => ("Sltu", Operands::Registers { rd, rs1, rs2 }),
        Instr::Xor { rd, rs1, rs2 } => ("Xor", Operands::Registers { rd, rs1, rs2 }),
        Instr::Srl { rd, rs1, rs2 } => ("Srl", Operands::Registers { rd, rs1, rs2 }),
        Instr::Or { rd, rs1, rs2 } => ("Or", Operands::Registers { rd, rs1, rs2 }),
        Instr::And { rd, rs1, rs2 } => ("And", Operands::Registers { rd, rs1, rs2 }),
        Instr::Sub { rd, rs1, rs2 } => ("Sub", Operands::Registers { rd, rs1, rs2 }),
        Instr::Sra { rd, rs1, rs2 } => ("Sra", Operands::Registers { rd, rs1, rs2 }),
        Instr::Mul { rd, rs1, rs2 } => ("Mul", Operands::Registers { rd, rs1, rs2 }),
        Instr::Mulh { rd, rs1, rs2 } => ("Mulh", Operands::Registers { rd, rs1, rs2 }),
        Instr::Mulhsu { rd, rs1, rs2 } => ("Mulhsu", Operands::Registers { rd, rs1, rs2 }),
        Instr::Mulhu { rd, rs1, rs2 } => ("Mulhu", Operands::Registers { rd, rs1, rs2 }),
        Instr::Div { rd, rs1, rs2 } => ("Div", Operands::Registers { rd, rs1, rs2 }),
        Instr::Divu { rd, rs1, rs2 } => ("Divu", Operands::Registers { rd, rs1, rs2 }),
        Instr::Rem { rd, rs1, rs2 } => ("Rem", Operands::Registers { rd, rs1, rs2 }),
        Instr::Remu { rd, rs1, rs2 } => ("Remu", Operands::Registers { rd, rs1, rs2 }),
        Instr::Addiw { rd, rs1, imm } => ("Addiw", Operands::Immediate { rd, rs1, imm }),
        Instr::Slliw { rd, rs1, imm } => ("Slliw", Operands::Immediate { rd, rs1, imm }),
        Instr::Srliw { rd, rs1, imm } => ("Srliw", Operands::Immediate { rd, rs1, imm }),
        Instr::Sraiw { rd, rs1, imm } => ("Sraiw", Operands::Immediate { rd, rs1, imm }),
        Instr::Addw { rd, rs1, rs2 } => ("Addw", Operands::Registers { rd, rs1, rs2 }),
        Instr::Sllw { rd, rs1, rs2 } => ("Sllw", Operands::Registers { rd, rs1, rs2 }),
        Instr::Srlw { rd, rs1, rs2 } => ("Srlw", Operands::Registers { rd, rs1, rs2 }),
        Instr::Subw { rd, rs1, rs2 } => ("Subw", Operands::Registers { rd, rs1, rs2 }),
        Instr::Sraw { rd, rs1, rs2 } => ("Sraw", Operands::Registers { rd, rs1, rs2 }),
        Instr::Mulw { rd, rs1, rs2 } => ("Mulw", Operands::Registers { rd, rs1, rs2 }),
        Instr::Divw { rd, rs1, rs2 } => ("Divw", Operands::Registers { rd, rs1, rs2 }),
        Instr::Divuw { rd, rs1, rs2 } => ("Divuw", Operands::Registers { rd, rs1, rs2 }),
        Instr::Remw { rd, rs1, rs2 } => ("Remw", Operands::Registers { rd, rs1, rs2 }),
        Instr::Remuw { rd, rs1, rs2 } => ("Remuw", Operands::Registers { rd, rs1, rs2 }),
        Instr::Ecall => ("Ecall", Operands::Nothing),
        Instr::Ebreak => ("Ebreak", Operands::Nothing),
    }
}
