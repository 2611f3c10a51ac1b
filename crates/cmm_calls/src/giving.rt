//! Values go out to where they travel.

ghost use Rattle.std.specs.Prelude.{◌≡◌, ◌-◌, ◌*◌, ◌<◌, ◌≤◌, ◌++◌, length, pos, true, IfOk, IfSome, OnOk};
ghost use Rattle.std.specs.List.{All, list_all};
ghost use Rattle.rv_table.specs.Machine.{Region};
ghost use Rattle.rv_table.specs.Table.{IsValid};
ghost use Rattle.rv_table.specs.declared.instruction.Instr.TheVariants.{Sd};
ghost use Rattle.cmm_chain.specs.declared.frame.Location.TheVariants.{Slot};
ghost use Rattle.cmm_effects.specs.Pieces.{Adds, Leads};
ghost use Rattle.cmm_select.specs.Operands.{IsOperand, operand_at};
ghost use Rattle.cmm_select.specs.declared.operand.Operand.TheVariants.{Held};
ghost use Rattle.cmm_select.specs.declared.source.Source.TheVariants.{Place};
ghost use Rattle.cmm_calls.specs.Frames.{CanBeMade};
ghost use Rattle.cmm_calls.specs.Values.{GivesIn, HasRegion, Passes, is_operand};
ghost use Rattle.cmm_calls.specs.inside.Giving.{CanGive, GivesIf, GivesThose, GivesValue, count_in, goes_in, home, move_for, moves_from, one_if};

use crate::moving::move_all;
use cmm_abi::registers::{FIRST_SCRATCH, FIRST_VALUE, REGION};
use cmm_abi::values::IN_REGISTERS;
use cmm_chain::{Frame, Location};
use cmm_items::Items;
use cmm_moves::Move;
use cmm_select::laws::code_is_short;
use cmm_select::{Operand, Source, bring_operand, copy, restore};
use rv_asm::Asm;
use rv_table::Instr;
use std::alloc::{AllocError, Global};

/// Brings values to where they travel: first those of the argument area, then at once those that go from register to register, and then the
/// others, so that each is as it was before all of them. An address may wait in register 7.
pub fn give(asm: &mut Asm, frame: &Frame, values: &[Operand]) -> Result<(), AllocError>
    requires frame { CanBeMade frame.now }
    requires operands { list_all (is_operand frame.now) values.now ≡ true }
    requires labels { All (IsOperand asm.old.labels) values.now }
    requires few { length values.now ≤ 64 }
    ensures gives { OnOk result (Adds (12 * length values.now) asm.old.parts asm.new.parts (GivesIn (12 * length values.now) frame.now.size values.now)) }
    ensures labels { asm.new.labels ≡ asm.old.labels }
{
    let moves = register_moves(asm.alloc(), values)?;
    give_each(asm, frame, values, true)?;
    move_all(asm, moves.as_slice())?;
    give_each(asm, frame, values, false)?;
    Ok(())
}

/// The moves of the values that go from register to register.
fn register_moves(alloc: Global, values: &[Operand]) -> Result<Items<Move>, AllocError>
    requires few { length values.now ≤ 64 }
    ensures { IfOk result (λ moves. moves ≡ moves_from 0 values.now) }
{
    let mut moves = Items::new(alloc);
    for (index, value) in values.iter().enumerate() {
        add_move(&mut moves, index as u32, value)?;
    }
    Ok(moves)
}

/// Adds the move of a value, if it is in a register and goes to one.
fn add_move(moves: &mut Items<Move>, index: u32, value: &Operand) -> Result<(), AllocError>
    requires few { index < 64 }
    ensures { OnOk result (moves.new ≡ moves.old ++ move_for index value.now) }
{
    if index < IN_REGISTERS {
        if let Some(from) = home_of(value) {
            moves.push(Move {
                to: FIRST_VALUE as u32 + index,
                from: from as u32,
            })?;
        }
    }
    Ok(())
}

/// The register in which an operand is, if it is in one.
fn home_of(value: &Operand) -> Option<u8>
    ensures { result ≡ home value.now }
{
    match *value {
        Operand::Held(Source::Place(Location::Saved(register))) => Some(register),
        Operand::Held(Source::Place(Location::Temp(register))) => Some(register),
        _ => None,
    }
}

/// Whether a value goes to the argument area or, if those are meant, to a register from none.
fn goes_in(area: bool, index: u32, value: &Operand) -> bool
    ensures { result ≡ goes_in area index value.now }
{
    if area {
        return IN_REGISTERS <= index;
    }
    index < IN_REGISTERS && home_of(value).is_none()
}

/// Brings the values of the argument area to it, or those that are in no register to their registers.
fn give_each(asm: &mut Asm, frame: &Frame, values: &[Operand], area: bool) -> Result<(), AllocError>
    requires frame { CanBeMade frame.now }
    requires operands { list_all (is_operand frame.now) values.now ≡ true }
    requires labels { All (IsOperand asm.old.labels) values.now }
    requires few { length values.now ≤ 64 }
    ensures gives { OnOk result (Adds (12 * count_in area 0 values.now) asm.old.parts asm.new.parts (λ x from to. (r : Region) → Passes (12 * count_in area 0 values.now) (HasRegion r frame.now.size) (GivesThose r x.at (goes_in area) values.now) x from to)) }
    ensures labels { asm.new.labels ≡ asm.old.labels }
{
    for (index, value) in values.iter().enumerate() {
        let now = goes_in(area, index as u32, value);
        give_if(asm, now, index as u32, value)?;
    }
    Ok(())
}

/// Brings a value to where the one with this index travels, if so.
fn give_if(asm: &mut Asm, now: bool, index: u32, value: &Operand) -> Result<(), AllocError>
    requires few { index < 64 }
    requires operand { IsOperand asm.old.labels value.now }
    ensures gives { OnOk result (Adds (12 * one_if now) asm.old.parts asm.new.parts (λ x from to. (r : Region) → Passes (12 * one_if now) (CanGive r value.now) (λ s t. GivesIf r now index (operand_at x.at value.now s) s t) x from to)) }
    ensures labels { asm.new.labels ≡ asm.old.labels }
{
    if now {
        give_value(asm, index, value)?;
    }
    Ok(())
}

/// Brings a value to where the one with this index travels.
fn give_value(asm: &mut Asm, index: u32, value: &Operand) -> Result<(), AllocError>
    requires few { index < 64 }
    requires operand { IsOperand asm.old.labels value.now }
    ensures gives { OnOk result (Adds 12 asm.old.parts asm.new.parts (λ x from to. (r : Region) → Leads 12 (CanGive r value.now) (λ s t. GivesValue r index (operand_at x.at value.now s) s t) x from to)) }
    ensures labels { asm.new.labels ≡ asm.old.labels }
{
    if index < IN_REGISTERS {
        give_in_register(asm, index, value)?;
        return Ok(());
    }
    code_is_short();
    bring_operand(asm, value, FIRST_SCRATCH)?;
    asm.emit(to_area(index))?;
    Ok(())
}

/// Brings a value to the register in which the one with this index travels, by way of a scratch register where it is in no slot.
fn give_in_register(asm: &mut Asm, index: u32, value: &Operand) -> Result<(), AllocError>
    requires near { index < IN_REGISTERS }
    requires operand { IsOperand asm.old.labels value.now }
    ensures gives { OnOk result (Adds 12 asm.old.parts asm.new.parts (λ x from to. (r : Region) → Leads 12 (CanGive r value.now) (λ s t. GivesValue r index (operand_at x.at value.now s) s t) x from to)) }
    ensures labels { asm.new.labels ≡ asm.old.labels }
{
    let register = FIRST_VALUE + index as u8;
    match slot_of(value) {
        Some(offset) => {
            restore(asm, register, offset)?;
            Ok(())
        }
        None => {
            code_is_short();
            bring_operand(asm, value, FIRST_SCRATCH)?;
            asm.emit(copy(register, FIRST_SCRATCH))?;
            Ok(())
        }
    }
}

/// The offset of the slot that has an operand, if one has it.
fn slot_of(value: &Operand) -> Option<u32>
    ensures { IfSome result (λ offset. value.now ≡ Held (Place (Slot offset))) }
{
    match *value {
        Operand::Held(Source::Place(Location::Slot(offset))) => Some(offset),
        _ => None,
    }
}

/// The instruction that stores a value in the argument area.
fn to_area(index: u32) -> Instr
    requires area { IN_REGISTERS ≤ index }
    requires few { index < 64 }
    ensures is { result ≡ Sd REGION FIRST_SCRATCH (pos (8 * (index - IN_REGISTERS))) }
    ensures valid { IsValid result }
{
    Instr::Sd {
        rs1: REGION,
        rs2: FIRST_SCRATCH,
        imm: (8 * (index - IN_REGISTERS)) as i32,
    }
}
