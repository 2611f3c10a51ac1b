//! Operators on the word in one register.

ghost use Rattle.std.specs.Prelude.{◌≡◌, ◌+◌, ◌<◌, OnOk};
ghost use Rattle.rv_table.specs.Table.{IsValid};
ghost use Rattle.cmm_effects.specs.Pieces.{Adds, Leads};
ghost use Rattle.cmm_select.specs.Operators.{HasWord, shifts_of};
ghost use Rattle.cmm_select.specs.Unary.{IsValueOfOne};
ghost use Rattle.cmm_select.specs.inside.Complements.{direct_of_one};
ghost use Rattle.cmm_select.specs.inside.InPlace.{IsTarget, Makes};

use crate::operator::narrow;
use cmm_abi::registers::ZERO;
use cmm_words::laws::wide_operators;
use cmm_words::{Op1, Width};
use rv_asm::Asm;
use rv_table::Instr;
use std::alloc::AllocError;

/// Gives register `rd` what an operator gives on the word in register `from`.
pub(crate) fn operate_on_one(
    asm: &mut Asm,
    operator: Op1,
    width: Width,
    rd: u8,
    from: u8,
) -> Result<(), AllocError>
    requires register { IsTarget rd }
    requires from { from < 32 }
    ensures operates { OnOk result (Adds (1 + shifts_of width) asm.old.parts asm.new.parts (Leads (1 + shifts_of width) (HasWord width from) (λ s t. Makes rd (IsValueOfOne operator width (s.registers from)) s t))) }
    ensures labels { asm.new.labels ≡ asm.old.labels }
{
    wide_operators();
    asm.emit(instruction(operator, rd, from))?;
    narrow(asm, width, rd)
}

/// The instruction of an operator of 64 bits.
fn instruction(operator: Op1, rd: u8, from: u8) -> Instr
    requires register { rd < 32 }
    requires from { from < 32 }
    ensures is { result ≡ direct_of_one operator rd from }
    ensures valid { IsValid result }
{
    match operator {
        Op1::Com => Instr::Xori {
            rd,
            rs1: from,
            imm: -1,
        },
        Op1::Neg => Instr::Sub {
            rd,
            rs1: ZERO,
            rs2: from,
        },
    }
}
