//! Values that control brings come to places.

ghost use Rattle.std.specs.Prelude.{◌≡◌, ◌-◌, ◌*◌, ◌<◌, ◌≤◌, length, map, pos, true, IfOk, OnOk};
ghost use Rattle.std.specs.List.{list_all};
ghost use Rattle.cmm_chain.specs.Plans.{is_place};
ghost use Rattle.cmm_abi.specs.Regions.{value_place, word_at};
ghost use Rattle.rv_table.specs.Machine.{Region};
ghost use Rattle.rv_table.specs.Table.{IsValid};
ghost use Rattle.rv_table.specs.declared.instruction.Instr.TheVariants.{Ld};
ghost use Rattle.cmm_effects.specs.Changes.{IsPlace, Puts};
ghost use Rattle.cmm_effects.specs.Pieces.{Adds, Leads};
ghost use Rattle.cmm_select.specs.declared.destination.Destination.TheVariants.{Place};
ghost use Rattle.cmm_calls.specs.Frames.{CanBeMade};
ghost use Rattle.cmm_calls.specs.Values.{TakesIn};
ghost use Rattle.cmm_calls.specs.inside.Taking.{CanTake};

use crate::copying::copy_all;
use cmm_abi::registers::{FIRST_SCRATCH, FIRST_VALUE, REGION};
use cmm_abi::values::IN_REGISTERS;
use cmm_chain::{Frame, Location};
use cmm_items::Items;
use cmm_select::{Destination, write};
use rv_asm::Asm;
use rv_table::Instr;
use std::alloc::{AllocError, Global};

/// Takes the values that control brings, each to its place, as if the first one went first.
pub fn take(asm: &mut Asm, frame: &Frame, places: &[Location]) -> Result<(), AllocError>
    requires frame { CanBeMade frame.now }
    requires places { list_all (is_place frame.now) places.now ≡ true }
    requires few { length places.now ≤ 64 }
    ensures takes { OnOk result (Adds (4 * length places.now) asm.old.parts asm.new.parts (TakesIn (4 * length places.now) frame.now.size places.now)) }
    ensures labels { asm.new.labels ≡ asm.old.labels }
{
    let to = destinations(asm.alloc(), places)?;
    copy_all(asm, frame, to.as_slice())?;
    Ok(())
}

/// Places as destinations.
pub(crate) fn destinations(
    alloc: Global,
    places: &[Location],
) -> Result<Items<Destination>, AllocError>
    ensures { IfOk result (λ to. to ≡ map Place places.now) }
{
    let mut to = Items::new(alloc);
    for place in places {
        to.push(Destination::Place(*place))?;
    }
    Ok(to)
}

/// Takes the value with this index to a place.
pub(crate) fn take_value(asm: &mut Asm, index: u32, to: Location) -> Result<(), AllocError>
    requires few { index < 64 }
    requires place { IsPlace to }
    ensures takes { OnOk result (Adds 4 asm.old.parts asm.new.parts (λ x from on. (r : Region) → Leads 4 (CanTake r to) (λ s t. Puts to (word_at s (value_place r index)) s t) x from on)) }
    ensures labels { asm.new.labels ≡ asm.old.labels }
{
    if index < IN_REGISTERS {
        write(asm, FIRST_VALUE + index as u8, to)?;
        return Ok(());
    }
    asm.emit(load_value(index))?;
    write(asm, FIRST_SCRATCH, to)?;
    Ok(())
}

/// The instruction that loads a value from the argument area.
pub(crate) fn load_value(index: u32) -> Instr
    requires area { IN_REGISTERS ≤ index }
    requires few { index < 64 }
    ensures is { result ≡ Ld FIRST_SCRATCH REGION (pos (8 * (index - IN_REGISTERS))) }
    ensures valid { IsValid result }
{
    Instr::Ld {
        rd: FIRST_SCRATCH,
        rs1: REGION,
        imm: (8 * (index - IN_REGISTERS)) as i32,
    }
}
