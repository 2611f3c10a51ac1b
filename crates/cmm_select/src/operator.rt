//! Operators on the words in registers 5 and 7.

ghost use Rattle.std.specs.Prelude.{◌≡◌, ◌+◌, ◌-◌, ◌*◌, ◌<◌, ◌≤◌, pos, negsuc, IsTrue, OnOk};
ghost use Rattle.cmm_words.specs.Widths.{bits};
ghost use Rattle.cmm_words.specs.Words.{low_bits, sign_extended};
ghost use Rattle.cmm_words.specs.declared.width.Width.TheVariants.{W64};
ghost use Rattle.rv_table.specs.Table.{IsValid};
ghost use Rattle.rv_table.specs.Words.{shifted_left, shifted_right, shifted_right_signed};
ghost use Rattle.rv_table.specs.declared.instruction.Instr.TheVariants.{Addi, Addiw, Andi, Slli, Srai, Srli};
ghost use Rattle.cmm_effects.specs.Changes.{Sets};
ghost use Rattle.cmm_effects.specs.Pieces.{Adds, Always, Leads, Runs};
ghost use Rattle.cmm_select.specs.Operators.{Extends, HasWord, HaveWords, Narrows, Operates, shifts_of};
ghost use Rattle.cmm_select.specs.inside.InPlace.{HaveWordsIn, IsTarget, IsValue, Makes};
ghost use Rattle.cmm_select.specs.inside.Wide.{direct, is_plain, is_shift, is_signed, keeps_width, method_of};

use crate::place::copy;
use cmm_abi::registers::{FIRST_SCRATCH, HELPER, SECOND_SCRATCH, ZERO};
use cmm_words::laws::{divisions_by_each_other, wide_operators};
use cmm_words::{Op2, Width};
use rv_asm::Asm;
use rv_table::Instr;
use std::alloc::AllocError;

/// Cuts the number in register `rd` to a width: its upper bits are masked or shifted out.
pub(crate) fn narrow(asm: &mut Asm, width: Width, rd: u8) -> Result<(), AllocError>
    requires { IsTarget rd }
    ensures narrows { OnOk result (Adds (shifts_of width) asm.old.parts asm.new.parts (Runs 0 (shifts_of width) Always (Narrows width rd))) }
    ensures labels { asm.new.labels ≡ asm.old.labels }
{
    match width {
        Width::W64 => Ok(()),
        _ => cut(asm, width, rd, rd),
    }
}

/// Gives register `rd` the low bits of the number in register `from`, as many as a width has. A mask of 8 bits fits in an instruction.
pub(crate) fn cut(asm: &mut Asm, width: Width, rd: u8, from: u8) -> Result<(), AllocError>
    requires register { IsTarget rd }
    requires from { from < 32 }
    ensures cuts { OnOk result (Adds 2 asm.old.parts asm.new.parts (Leads 2 Always (λ s t. Sets rd (low_bits width (s.registers from)) s t))) }
    ensures labels { asm.new.labels ≡ asm.old.labels }
{
    match width {
        Width::W8 => asm.emit(low_byte(rd, from)),
        Width::W16 => shift_out(asm, rd, from, 48),
        Width::W32 => shift_out(asm, rd, from, 32),
        Width::W64 => asm.emit(copy(rd, from)),
    }
}

/// Gives the word in register `rd` its sign: copies of its top bit above it.
pub(crate) fn extend(asm: &mut Asm, width: Width, rd: u8) -> Result<(), AllocError>
    requires { IsTarget rd }
    ensures extends { OnOk result (Adds (shifts_of width) asm.old.parts asm.new.parts (Runs 0 (shifts_of width) (HasWord width rd) (Extends width rd))) }
    ensures labels { asm.new.labels ≡ asm.old.labels }
{
    match width {
        Width::W64 => Ok(()),
        _ => sign(asm, width, rd, rd),
    }
}

/// Gives register `rd` the word in register `from` with its sign.
pub(crate) fn sign(asm: &mut Asm, width: Width, rd: u8, from: u8) -> Result<(), AllocError>
    requires register { IsTarget rd }
    requires from { from < 32 }
    ensures extends { OnOk result (Adds 2 asm.old.parts asm.new.parts (Leads 2 (HasWord width from) (λ s t. Sets rd (sign_extended width W64 (s.registers from)) s t))) }
    ensures labels { asm.new.labels ≡ asm.old.labels }
{
    match width {
        Width::W8 => shift_back(asm, rd, from, 56),
        Width::W16 => shift_back(asm, rd, from, 48),
        Width::W32 => asm.emit(signed_word(rd, from)),
        Width::W64 => asm.emit(copy(rd, from)),
    }
}

/// The instruction that gives a register the low byte of another.
fn low_byte(rd: u8, rs1: u8) -> Instr
    requires register { rd < 32 }
    requires from { rs1 < 32 }
    ensures is { result ≡ Andi rd rs1 (pos 255) }
    ensures valid { IsValid result }
{
    Instr::Andi { rd, rs1, imm: 255 }
}

/// The instruction that gives a register a word of 32 bits of another with its sign.
fn signed_word(rd: u8, rs1: u8) -> Instr
    requires register { rd < 32 }
    requires from { rs1 < 32 }
    ensures is { result ≡ Addiw rd rs1 (pos 0) }
    ensures valid { IsValid result }
{
    Instr::Addiw { rd, rs1, imm: 0 }
}

/// Shifts what register `from` has to the left, and back with zeros.
fn shift_out(asm: &mut Asm, rd: u8, from: u8, amount: u8) -> Result<(), AllocError>
    requires amount { amount < 64 }
    requires register { IsTarget rd }
    requires from { from < 32 }
    ensures shifts { OnOk result (Adds 2 asm.old.parts asm.new.parts (Leads 2 Always (λ s t. Sets rd (shifted_right (shifted_left (s.registers from) amount) amount) s t))) }
    ensures labels { asm.new.labels ≡ asm.old.labels }
{
    asm.emit(shift_left(rd, from, amount))?;
    asm.emit(shift_right(rd, amount))
}

/// Shifts what register `from` has to the left, and back with copies of the top bit.
fn shift_back(asm: &mut Asm, rd: u8, from: u8, amount: u8) -> Result<(), AllocError>
    requires amount { amount < 64 }
    requires register { IsTarget rd }
    requires from { from < 32 }
    ensures shifts { OnOk result (Adds 2 asm.old.parts asm.new.parts (Leads 2 Always (λ s t. Sets rd (shifted_right_signed 64 (shifted_left (s.registers from) amount) amount) s t))) }
    ensures labels { asm.new.labels ≡ asm.old.labels }
{
    asm.emit(shift_left(rd, from, amount))?;
    asm.emit(shift_right_signed(rd, amount))
}

fn shift_left(rd: u8, rs1: u8, amount: u8) -> Instr
    requires register { rd < 32 }
    requires from { rs1 < 32 }
    requires amount { amount < 64 }
    ensures is { result ≡ Slli rd rs1 (pos amount) }
    ensures valid { IsValid result }
{
    Instr::Slli {
        rd,
        rs1,
        imm: i32::from(amount),
    }
}

fn shift_right(rd: u8, amount: u8) -> Instr
    requires register { rd < 32 }
    requires amount { amount < 64 }
    ensures is { result ≡ Srli rd rd (pos amount) }
    ensures valid { IsValid result }
{
    Instr::Srli {
        rd,
        rs1: rd,
        imm: i32::from(amount),
    }
}

fn shift_right_signed(rd: u8, amount: u8) -> Instr
    requires register { rd < 32 }
    requires amount { amount < 64 }
    ensures is { result ≡ Srai rd rd (pos amount) }
    ensures valid { IsValid result }
{
    Instr::Srai {
        rd,
        rs1: rd,
        imm: i32::from(amount),
    }
}

/// How an operator of 64 bits is done.
#[derive(Clone, Copy)]
enum Method {
    /// By one instruction, on words as they are.
    Plain,
    /// By one instruction, whose result is cleared where the count is past its bits.
    Shift,
    /// By a shift that copies the top bit, on a word with its sign.
    Copies,
    /// By two shifts, to the left by the count.
    Left,
    /// By two shifts, to the right by the count.
    Right,
    /// By one instruction, on words with their sign.
    Signed,
    /// By a quotient rounded toward zero that is made one rounded down.
    Quotient,
    /// By the remainder of such a quotient.
    Remainder,
}

/// Gives register 5 what an operator gives on the words in registers 5 and 7; register 6 helps.
pub fn operate(asm: &mut Asm, operator: Op2, width: Width) -> Result<(), AllocError>
    ensures operates { OnOk result (Adds (3 * shifts_of width + 6) asm.old.parts asm.new.parts (Runs 0 (3 * shifts_of width + 6) (HaveWords width) (Operates operator width))) }
    ensures labels { asm.new.labels ≡ asm.old.labels }
{
    match method_for(operator) {
        Method::Plain => {
            let (rd, first, second) = (FIRST_SCRATCH, FIRST_SCRATCH, SECOND_SCRATCH);
            plain(asm, operator, width, rd, first, second)
        }
        Method::Shift => shift(asm, operator, width),
        Method::Copies => shift_signed(asm, width),
        Method::Left => rotate_left(asm, width),
        Method::Right => rotate_right(asm, width),
        Method::Signed => signed(asm, operator, width),
        Method::Quotient => divide_down(asm, width),
        Method::Remainder => modulo_down(asm, width),
    }
}

/// Whether one instruction does an operator on any words of 64 bits, at a width on words as they are.
pub(crate) fn is_plain(operator: Op2) -> bool
    ensures { result ≡ is_plain operator }
{
    matches!(method_for(operator), Method::Plain)
}

/// How the operator is done.
fn method_for(operator: Op2) -> Method
    ensures { result ≡ method_of operator }
{
    match operator {
        Op2::Shl | Op2::Shrl => Method::Shift,
        Op2::Shra => Method::Copies,
        Op2::Rotl => Method::Left,
        Op2::Rotr => Method::Right,
        Op2::Quot | Op2::Rem => Method::Signed,
        Op2::Div => Method::Quotient,
        Op2::Mod => Method::Remainder,
        _ => Method::Plain,
    }
}

/// The operator of 64 bits in one instruction on two registers, and a cut where what it gives may be past the width.
pub(crate) fn plain(
    asm: &mut Asm,
    operator: Op2,
    width: Width,
    rd: u8,
    first: u8,
    second: u8,
) -> Result<(), AllocError>
    requires plain { IsTrue (is_plain operator) }
    requires register { IsTarget rd }
    requires first { first < 32 }
    requires second { second < 32 }
    ensures operates { OnOk result (Adds (1 + shifts_of width) asm.old.parts asm.new.parts (Leads (1 + shifts_of width) (HaveWordsIn width first second) (λ s t. Makes rd (IsValue operator width (s.registers first) (s.registers second)) s t))) }
    ensures labels { asm.new.labels ≡ asm.old.labels }
{
    wide_operators();
    asm.emit(instruction(operator, rd, first, second))?;
    if keeps_width(operator) {
        return Ok(());
    }
    narrow(asm, width, rd)
}

/// Whether the value of an operator on words of a width is such a word as it is made at 64 bits.
pub(crate) fn keeps_width(operator: Op2) -> bool
    ensures { result ≡ keeps_width operator }
{
    matches!(
        operator,
        Op2::And | Op2::Or | Op2::Xor | Op2::Shrl | Op2::Divu | Op2::Modu
    )
}

/// A shift of 64 bits, cleared where the count is not below 64, and a cut where what it gives may be past the width.
fn shift(asm: &mut Asm, operator: Op2, width: Width) -> Result<(), AllocError>
    requires { IsTrue (is_shift operator) }
    ensures operates { OnOk result (Adds (3 + shifts_of width) asm.old.parts asm.new.parts (Runs 0 (3 + shifts_of width) (HaveWords width) (Operates operator width))) }
    ensures labels { asm.new.labels ≡ asm.old.labels }
{
    wide_operators();
    asm.emit(Instr::Sltiu {
        rd: HELPER,
        rs1: SECOND_SCRATCH,
        imm: 64,
    })?;
    asm.emit(instruction(operator, FIRST_SCRATCH, FIRST_SCRATCH, SECOND_SCRATCH))?;
    asm.emit(Instr::Mul {
        rd: FIRST_SCRATCH,
        rs1: FIRST_SCRATCH,
        rs2: HELPER,
    })?;
    if keeps_width(operator) {
        return Ok(());
    }
    narrow(asm, width, FIRST_SCRATCH)
}

/// Both words get their sign, and then the operator of 64 bits in one instruction, and a cut.
fn signed(asm: &mut Asm, operator: Op2, width: Width) -> Result<(), AllocError>
    requires { IsTrue (is_signed operator) }
    ensures operates { OnOk result (Adds (3 * shifts_of width + 1) asm.old.parts asm.new.parts (Runs 0 (3 * shifts_of width + 1) (HaveWords width) (Operates operator width))) }
    ensures labels { asm.new.labels ≡ asm.old.labels }
{
    wide_operators();
    extend(asm, width, FIRST_SCRATCH)?;
    extend(asm, width, SECOND_SCRATCH)?;
    asm.emit(instruction(operator, FIRST_SCRATCH, FIRST_SCRATCH, SECOND_SCRATCH))?;
    narrow(asm, width, FIRST_SCRATCH)
}

/// The instruction of an operator of 64 bits on two registers.
fn instruction(operator: Op2, rd: u8, rs1: u8, rs2: u8) -> Instr
    requires to { rd < 32 }
    requires first { rs1 < 32 }
    requires second { rs2 < 32 }
    ensures is { result ≡ direct operator rd rs1 rs2 }
    ensures valid { IsValid result }
{
    match operator {
        Op2::Sub => Instr::Sub { rd, rs1, rs2 },
        Op2::Mul => Instr::Mul { rd, rs1, rs2 },
        Op2::And => Instr::And { rd, rs1, rs2 },
        Op2::Or => Instr::Or { rd, rs1, rs2 },
        Op2::Xor => Instr::Xor { rd, rs1, rs2 },
        Op2::Shl => Instr::Sll { rd, rs1, rs2 },
        Op2::Shrl => Instr::Srl { rd, rs1, rs2 },
        Op2::Divu => Instr::Divu { rd, rs1, rs2 },
        Op2::Modu => Instr::Remu { rd, rs1, rs2 },
        Op2::Quot => Instr::Div { rd, rs1, rs2 },
        Op2::Rem => Instr::Rem { rd, rs1, rs2 },
        _ => Instr::Add { rd, rs1, rs2 },
    }
}

/// The shift to the right that copies the top bit, of 64 bits: by 63 first where the count is not below 64, and a cut.
fn shift_signed(asm: &mut Asm, width: Width) -> Result<(), AllocError>
    ensures operates { OnOk result (Adds (2 * shifts_of width + 4) asm.old.parts asm.new.parts (Runs 0 (2 * shifts_of width + 4) (HaveWords width) (Operates Op2.Shra width))) }
    ensures labels { asm.new.labels ≡ asm.old.labels }
{
    wide_operators();
    extend(asm, width, FIRST_SCRATCH)?;
    shift_copies(asm)?;
    narrow(asm, width, FIRST_SCRATCH)
}

/// The shift to the right of 64 bits that copies the top bit.
fn shift_copies(asm: &mut Asm) -> Result<(), AllocError>
    ensures operates { OnOk result (Adds 4 asm.old.parts asm.new.parts (Leads 4 Always (Operates Op2.Shra W64))) }
    ensures labels { asm.new.labels ≡ asm.old.labels }
{
    asm.emit(Instr::Sltiu {
        rd: HELPER,
        rs1: SECOND_SCRATCH,
        imm: 64,
    })?;
    asm.emit(Instr::Addi {
        rd: HELPER,
        rs1: HELPER,
        imm: -1,
    })?;
    asm.emit(Instr::Sra {
        rd: FIRST_SCRATCH,
        rs1: FIRST_SCRATCH,
        rs2: HELPER,
    })?;
    asm.emit(Instr::Sra {
        rd: FIRST_SCRATCH,
        rs1: FIRST_SCRATCH,
        rs2: SECOND_SCRATCH,
    })
}

/// A quotient rounded down, of signed words: that toward zero, less by 1 where it was rounded up, and a cut.
fn divide_down(asm: &mut Asm, width: Width) -> Result<(), AllocError>
    ensures operates { OnOk result (Adds (3 * shifts_of width + 5) asm.old.parts asm.new.parts (Runs 0 (3 * shifts_of width + 5) (HaveWords width) (Operates Op2.Div width))) }
    ensures labels { asm.new.labels ≡ asm.old.labels }
{
    wide_operators();
    extend(asm, width, FIRST_SCRATCH)?;
    extend(asm, width, SECOND_SCRATCH)?;
    quotient_down(asm)?;
    narrow(asm, width, FIRST_SCRATCH)
}

/// The quotient of 64 bits, rounded down.
fn quotient_down(asm: &mut Asm) -> Result<(), AllocError>
    ensures operates { OnOk result (Adds 5 asm.old.parts asm.new.parts (Leads 5 Always (Operates Op2.Div W64))) }
    ensures labels { asm.new.labels ≡ asm.old.labels }
{
    divisions_by_each_other();
    asm.emit(Instr::Rem {
        rd: HELPER,
        rs1: FIRST_SCRATCH,
        rs2: SECOND_SCRATCH,
    })?;
    asm.emit(Instr::Div {
        rd: FIRST_SCRATCH,
        rs1: FIRST_SCRATCH,
        rs2: SECOND_SCRATCH,
    })?;
    asm.emit(Instr::Mulh {
        rd: HELPER,
        rs1: HELPER,
        rs2: SECOND_SCRATCH,
    })?;
    asm.emit(Instr::Srli {
        rd: HELPER,
        rs1: HELPER,
        imm: 63,
    })?;
    asm.emit(Instr::Sub {
        rd: FIRST_SCRATCH,
        rs1: FIRST_SCRATCH,
        rs2: HELPER,
    })
}

/// The remainder of such a quotient: that of the one toward zero, more by the divisor where that was rounded up, and a cut.
fn modulo_down(asm: &mut Asm, width: Width) -> Result<(), AllocError>
    ensures operates { OnOk result (Adds (3 * shifts_of width + 5) asm.old.parts asm.new.parts (Runs 0 (3 * shifts_of width + 5) (HaveWords width) (Operates Op2.Mod width))) }
    ensures labels { asm.new.labels ≡ asm.old.labels }
{
    wide_operators();
    extend(asm, width, FIRST_SCRATCH)?;
    extend(asm, width, SECOND_SCRATCH)?;
    remainder_down(asm)?;
    narrow(asm, width, FIRST_SCRATCH)
}

/// The remainder of 64 bits, with the sign of the divisor.
fn remainder_down(asm: &mut Asm) -> Result<(), AllocError>
    ensures operates { OnOk result (Adds 5 asm.old.parts asm.new.parts (Leads 5 Always (Operates Op2.Mod W64))) }
    ensures labels { asm.new.labels ≡ asm.old.labels }
{
    divisions_by_each_other();
    asm.emit(Instr::Rem {
        rd: FIRST_SCRATCH,
        rs1: FIRST_SCRATCH,
        rs2: SECOND_SCRATCH,
    })?;
    asm.emit(Instr::Mulh {
        rd: HELPER,
        rs1: FIRST_SCRATCH,
        rs2: SECOND_SCRATCH,
    })?;
    asm.emit(Instr::Srli {
        rd: HELPER,
        rs1: HELPER,
        imm: 63,
    })?;
    asm.emit(Instr::Mul {
        rd: HELPER,
        rs1: HELPER,
        rs2: SECOND_SCRATCH,
    })?;
    asm.emit(Instr::Add {
        rd: FIRST_SCRATCH,
        rs1: FIRST_SCRATCH,
        rs2: HELPER,
    })
}

/// A rotation to the left: a shift by the count and one the other way by what it leaves of the width, and a cut.
fn rotate_left(asm: &mut Asm, width: Width) -> Result<(), AllocError>
    ensures operates { OnOk result (Adds (shifts_of width + 6) asm.old.parts asm.new.parts (Runs 0 (shifts_of width + 6) (HaveWords width) (Operates Op2.Rotl width))) }
    ensures labels { asm.new.labels ≡ asm.old.labels }
{
    wide_operators();
    asm.emit(count_of(width))?;
    asm.emit(Instr::Sll {
        rd: HELPER,
        rs1: FIRST_SCRATCH,
        rs2: SECOND_SCRATCH,
    })?;
    asm.emit(without_width(width))?;
    asm.emit(Instr::Sub {
        rd: SECOND_SCRATCH,
        rs1: ZERO,
        rs2: SECOND_SCRATCH,
    })?;
    asm.emit(Instr::Srl {
        rd: FIRST_SCRATCH,
        rs1: FIRST_SCRATCH,
        rs2: SECOND_SCRATCH,
    })?;
    asm.emit(Instr::Or {
        rd: FIRST_SCRATCH,
        rs1: HELPER,
        rs2: FIRST_SCRATCH,
    })?;
    narrow(asm, width, FIRST_SCRATCH)
}

/// A rotation to the right, with the two shifts turned.
fn rotate_right(asm: &mut Asm, width: Width) -> Result<(), AllocError>
    ensures operates { OnOk result (Adds (shifts_of width + 6) asm.old.parts asm.new.parts (Runs 0 (shifts_of width + 6) (HaveWords width) (Operates Op2.Rotr width))) }
    ensures labels { asm.new.labels ≡ asm.old.labels }
{
    wide_operators();
    asm.emit(count_of(width))?;
    asm.emit(Instr::Srl {
        rd: HELPER,
        rs1: FIRST_SCRATCH,
        rs2: SECOND_SCRATCH,
    })?;
    asm.emit(without_width(width))?;
    asm.emit(Instr::Sub {
        rd: SECOND_SCRATCH,
        rs1: ZERO,
        rs2: SECOND_SCRATCH,
    })?;
    asm.emit(Instr::Sll {
        rd: FIRST_SCRATCH,
        rs1: FIRST_SCRATCH,
        rs2: SECOND_SCRATCH,
    })?;
    asm.emit(Instr::Or {
        rd: FIRST_SCRATCH,
        rs1: FIRST_SCRATCH,
        rs2: HELPER,
    })?;
    narrow(asm, width, FIRST_SCRATCH)
}

/// The instruction that takes the count of a rotation modulo the width.
fn count_of(width: Width) -> Instr
    ensures is { result ≡ Andi 7 7 (pos (bits width - 1)) }
    ensures valid { IsValid result }
{
    match width {
        Width::W8 => Instr::Andi {
            rd: SECOND_SCRATCH,
            rs1: SECOND_SCRATCH,
            imm: 7,
        },
        Width::W16 => Instr::Andi {
            rd: SECOND_SCRATCH,
            rs1: SECOND_SCRATCH,
            imm: 15,
        },
        Width::W32 => Instr::Andi {
            rd: SECOND_SCRATCH,
            rs1: SECOND_SCRATCH,
            imm: 31,
        },
        Width::W64 => Instr::Andi {
            rd: SECOND_SCRATCH,
            rs1: SECOND_SCRATCH,
            imm: 63,
        },
    }
}

/// The instruction that takes the width away from a count.
fn without_width(width: Width) -> Instr
    ensures is { result ≡ Addi SECOND_SCRATCH SECOND_SCRATCH (negsuc (bits width - 1)) }
    ensures valid { IsValid result }
{
    match width {
        Width::W8 => Instr::Addi {
            rd: SECOND_SCRATCH,
            rs1: SECOND_SCRATCH,
            imm: -8,
        },
        Width::W16 => Instr::Addi {
            rd: SECOND_SCRATCH,
            rs1: SECOND_SCRATCH,
            imm: -16,
        },
        Width::W32 => Instr::Addi {
            rd: SECOND_SCRATCH,
            rs1: SECOND_SCRATCH,
            imm: -32,
        },
        Width::W64 => Instr::Addi {
            rd: SECOND_SCRATCH,
            rs1: SECOND_SCRATCH,
            imm: -64,
        },
    }
}
