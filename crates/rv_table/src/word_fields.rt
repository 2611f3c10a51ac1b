//! The fields of an instruction's word.

/// A 32-bit word cut at bits 7, 12, 15, 20 and 25, as the R format of the RISC-V Instruction Set Manual, Volume I, "Base
/// Instruction Formats", names the pieces. The other formats spread their immediate over the same pieces.
#[derive(Clone, Copy)]
pub struct Fields {
    /// Bits 6 to 0.
    pub opcode: u8,
    /// Bits 11 to 7.
    pub rd: u8,
    /// Bits 14 to 12.
    pub funct3: u8,
    /// Bits 19 to 15.
    pub rs1: u8,
    /// Bits 24 to 20.
    pub rs2: u8,
    /// Bits 31 to 25.
    pub funct7: u8,
}
