//! Requests, and the two by which bytes are put and taken: the number is in register 5, and the byte in register 10.

ghost use Rattle.std.specs.Prelude.{◌≡◌, ◌+◌, ◌%◌, pos, OnOk};
ghost use Rattle.rv_table.specs.Requests.{request_number};
ghost use Rattle.rv_table.specs.Table.{IsValid};
ghost use Rattle.rv_table.specs.declared.instruction.Instr.TheVariants.{Addi};
ghost use Rattle.rv_table.specs.declared.request.Request.TheVariants.{GetByte, PutByte};
ghost use Rattle.cmm_effects.specs.Pieces.{Adds};
ghost use Rattle.cmm_effects.specs.Requests.{Requests};
ghost use Rattle.cmm_select.specs.Destinations.{CanPut, IsDestination, PutsTo};
ghost use Rattle.cmm_select.specs.Operands.{CanBringOperand, IsOperand, most_for, operand_at};

use crate::destination::{Destination, put};
use crate::operand::{Operand, bring_operand};
use crate::place::{add_to, copy};
use cmm_abi::registers::{FIRST_SCRATCH, REQUEST_NUMBER, REQUEST_VALUE, ZERO};
use rv_asm::Asm;
use rv_table::{Instr, Request};
use std::alloc::AllocError;

/// Puts the low byte of an operand.
pub fn put_byte(asm: &mut Asm, value: &Operand) -> Result<(), AllocError>
    requires { IsOperand asm.old.labels value.now }
    ensures requests { OnOk result (Adds (most_for value.now + 3) asm.old.parts asm.new.parts (λ x. Requests (most_for value.now + 2) 0 (CanBringOperand value.now) (λ s. PutByte (operand_at x.at value.now s % 256)) (λ u v. v ≡ u) x)) }
    ensures labels { asm.new.labels ≡ asm.old.labels }
{
    bring_operand(asm, value, FIRST_SCRATCH)?;
    asm.emit(copy(REQUEST_VALUE, FIRST_SCRATCH))?;
    asm.emit(choose(Request::PutByte(0)))?;
    asm.emit(Instr::Ecall)
}

/// Takes the input's next byte, or all ones at its end.
pub fn get_byte(asm: &mut Asm, to: &Destination) -> Result<(), AllocError>
    requires { IsDestination asm.old.labels to.now }
    ensures requests { OnOk result (Adds 7 asm.old.parts asm.new.parts (λ x. Requests 1 5 (CanPut x.at to.now) (λ s. GetByte) (λ u v. PutsTo x.at to.now (u.registers REQUEST_VALUE) u v) x)) }
    ensures labels { asm.new.labels ≡ asm.old.labels }
{
    asm.emit(choose(Request::GetByte))?;
    asm.emit(Instr::Ecall)?;
    put(asm, REQUEST_VALUE, to)
}

/// The instruction that chooses a request by its number. The value that goes with the request says nothing here.
pub fn choose(request: Request) -> Instr
    ensures is { result ≡ Addi REQUEST_NUMBER ZERO (pos (request_number request)) }
    ensures valid { IsValid result }
{
    let number = request.number();
    add_to(REQUEST_NUMBER, ZERO, number as u32)
}
