//! Operands of nodes, and how they are brought.

ghost use Rattle.std.specs.Prelude.{◌≡◌, ◌≢◌, ◌+◌, ◌^◌, ◌<◌, ◌≤◌, OnOk};
ghost use Rattle.rv_asm.specs.Assembly.{IsLabel};
ghost use Rattle.cmm_effects.specs.Pieces.{Adds};
ghost use Rattle.cmm_select.specs.Operands.{BringsBoth, BringsOperand, IsOperand, most_for};

use crate::number::load_constant;
use crate::source::{Source, bring};
use cmm_abi::registers::{FIRST_SCRATCH, HELPER, SECOND_SCRATCH};
use rv_asm::{Asm, Label};
use rv_table::Instr;
use std::alloc::AllocError;

/// What a node needs, as a word.
#[derive(Clone, Copy)]
pub enum Operand {
    /// What the activation has, or a number.
    Held(Source),
    /// The number that a label stands for, with a number of bytes added, modulo 2^64: the address of a procedure or of a data label.
    Symbol { of: Label, plus: u64 },
}

/// Brings an operand into register `rd`, 5 or more and not 6, which may help.
pub fn bring_operand(asm: &mut Asm, from: &Operand, rd: u8) -> Result<(), AllocError>
    requires operand { IsOperand asm.old.labels from.now }
    requires low { FIRST_SCRATCH ≤ rd }
    requires high { rd < 32 }
    requires beside { rd ≢ HELPER }
    ensures brings { OnOk result (Adds (most_for from.now) asm.old.parts asm.new.parts (BringsOperand from.now rd)) }
    ensures labels { asm.new.labels ≡ asm.old.labels }
{
    match *from {
        Operand::Held(source) => bring(asm, source, rd),
        Operand::Symbol { of, plus } => bring_symbol(asm, of, plus, rd),
    }
}

/// Brings the number that a label stands for, with a number of bytes added.
fn bring_symbol(asm: &mut Asm, of: Label, plus: u64, rd: u8) -> Result<(), AllocError>
    requires label { IsLabel asm.old.labels of }
    requires low { FIRST_SCRATCH ≤ rd }
    requires high { rd < 32 }
    requires beside { rd ≢ HELPER }
    ensures brings { OnOk result (Adds 11 asm.old.parts asm.new.parts (BringsOperand (Operand.Symbol of plus) rd)) }
    ensures labels { asm.new.labels ≡ asm.old.labels }
{
    if plus == 0 {
        return asm.address(rd, of);
    }
    load_constant(asm, plus, HELPER)?;
    asm.address(rd, of)?;
    asm.emit(Instr::Add {
        rd,
        rs1: rd,
        rs2: HELPER,
    })
}

/// Brings an operand into register 5 and another into register 7.
pub fn bring_both(asm: &mut Asm, left: &Operand, right: &Operand) -> Result<(), AllocError>
    requires left { IsOperand asm.old.labels left.now }
    requires right { IsOperand asm.old.labels right.now }
    ensures brings { OnOk result (Adds (most_for left.now + most_for right.now) asm.old.parts asm.new.parts (BringsBoth left.now right.now)) }
    ensures labels { asm.new.labels ≡ asm.old.labels }
{
    bring_operand(asm, left, FIRST_SCRATCH)?;
    bring_operand(asm, right, SECOND_SCRATCH)
}
