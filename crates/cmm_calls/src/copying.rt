//! Values that control brings come to places and to global registers.

ghost use Rattle.std.specs.Prelude.{◌≡◌, ◌+◌, ◌*◌, ◌<◌, ◌≤◌, ◌++◌, length, nat_le, true, OnOk, IfOk};
ghost use Rattle.std.specs.List.{All, list_all};
ghost use Rattle.cmm_abi.specs.Regions.{value_place, word_at};
ghost use Rattle.rv_asm.specs.Assembly.{IsLabel};
ghost use Rattle.rv_table.specs.Machine.{Region};
ghost use Rattle.cmm_effects.specs.Pieces.{Adds, Leads};
ghost use Rattle.cmm_select.specs.Destinations.{IsDestination, PutsTo};
ghost use Rattle.cmm_calls.specs.Copying.{CopiesIn, IsGlobalBy, is_destination};
ghost use Rattle.cmm_calls.specs.Frames.{CanBeMade};
ghost use Rattle.cmm_calls.specs.Values.{HasRegion, Passes};
ghost use Rattle.cmm_calls.specs.inside.Arriving.{CopiesAll, CopiesIf, HasArrived, HasStored, begins_idle, copy_cost, copy_least, copy_move, copy_moves, cost_if, cost_of, is_again, is_loaded, is_stored, last_to, load_cost, register_of, store_cost, stored_count};
ghost use Rattle.cmm_calls.specs.inside.Giving.{one_if};
ghost use Rattle.cmm_calls.specs.inside.Moves.{PassesBy};
ghost use Rattle.cmm_calls.specs.inside.Taking.{CanCopyIn};

use crate::moving::move_all;
use crate::taking::{load_value, take_value};
use cmm_abi::registers::{FIRST_SCRATCH, FIRST_VALUE};
use cmm_abi::values::IN_REGISTERS;
use cmm_chain::{Frame, Location};
use cmm_items::Items;
use cmm_moves::Move;
use cmm_select::{Destination, copy, put_global};
use rv_asm::{Asm, Label};
use std::alloc::{AllocError, Global};

/// Copies the values that control brings, each to its place or to its global register, as if the first one went first. Where there is nothing to
/// copy, no instruction is added, and else one at least: no place is the register of the first value, so the first value moves, unless its
/// register gets a later one. Then an instruction that does nothing stands first.
pub fn copy_in(asm: &mut Asm, frame: &Frame, to: &[Destination]) -> Result<(), AllocError>
    requires frame { CanBeMade frame.now }
    requires destinations { list_all (is_destination frame.now) to.now ≡ true }
    requires labels { All (IsDestination asm.old.labels) to.now }
    requires few { length to.now ≤ 64 }
    ensures copies { OnOk result (Adds (5 * length to.now) asm.old.parts asm.new.parts (CopiesIn (5 * length to.now) frame.now to.now)) }
    ensures labels { asm.new.labels ≡ asm.old.labels }
{
    if begins_idle(to) {
        asm.emit(copy(FIRST_SCRATCH, FIRST_SCRATCH))?;
        copy_all(asm, frame, to)?;
        return Ok(());
    }
    copy_all(asm, frame, to)?;
    Ok(())
}

/// Copies them: what goes to memory first, then at once what goes from register to register, and then what comes from the argument area to
/// registers.
pub(crate) fn copy_all(asm: &mut Asm, frame: &Frame, to: &[Destination]) -> Result<(), AllocError>
    requires frame { CanBeMade frame.now }
    requires destinations { list_all (is_destination frame.now) to.now ≡ true }
    requires labels { All (IsDestination asm.old.labels) to.now }
    requires few { length to.now ≤ 64 }
    ensures copies { OnOk result (Adds (copy_cost to.now) asm.old.parts asm.new.parts (CopiesAll (copy_least to.now) (copy_cost to.now) frame.now.size to.now)) }
    ensures labels { asm.new.labels ≡ asm.old.labels }
{
    if to.is_empty() {
        return Ok(());
    }
    let moves = value_moves(asm.alloc(), to)?;
    store_each(asm, frame, to)?;
    move_all(asm, moves.as_slice())?;
    load_each(asm, frame, to)?;
    Ok(())
}

/// The register that is a destination, if it is one.
fn register_of(to: &Destination) -> Option<u8>
    ensures { result ≡ register_of to.now }
{
    match *to {
        Destination::Place(Location::Saved(register)) => Some(register),
        Destination::Place(Location::Temp(register)) => Some(register),
        _ => None,
    }
}

/// Whether a register is a destination.
fn is_again(register: u8, rest: &[Destination]) -> bool
    ensures { result ≡ is_again register rest.now }
{
    rest.iter().any(|to| register_of(to) == Some(register))
}

/// The register that is a destination, if it is one and none behind it is the same.
pub(crate) fn last_to(to: &Destination, rest: &[Destination]) -> Option<u8>
    ensures { result ≡ last_to (register_of to.now) rest.now }
{
    let register = register_of(to)?;
    if is_again(register, rest) {
        return None;
    }
    Some(register)
}

/// Whether the first destination is a register that comes again.
fn begins_idle(to: &[Destination]) -> bool
    ensures { result ≡ begins_idle to.now }
{
    match to {
        [first, rest @ ..] => register_of(first).is_some() && last_to(first, rest).is_none(),
        [] => false,
    }
}

/// The moves of the values that go from register to register.
fn value_moves(alloc: Global, to: &[Destination]) -> Result<Items<Move>, AllocError>
    requires few { length to.now ≤ 64 }
    ensures { IfOk result (λ moves. moves ≡ copy_moves 0 to.now) }
{
    let mut moves = Items::new(alloc);
    for (index, destination) in to.iter().enumerate() {
        add_copy_move(&mut moves, index as u32, destination, &to[index + 1..])?;
    }
    Ok(moves)
}

/// The move of a value, if it is in a register and comes to one.
fn add_copy_move(
    moves: &mut Items<Move>,
    index: u32,
    to: &Destination,
    rest: &[Destination],
) -> Result<(), AllocError>
    requires few { index < 64 }
    ensures { OnOk result (moves.new ≡ moves.old ++ copy_move index to.now rest.now) }
{
    if index < IN_REGISTERS {
        if let Some(register) = last_to(to, rest) {
            moves.push(Move {
                to: register as u32,
                from: FIRST_VALUE as u32 + index,
            })?;
        }
    }
    Ok(())
}

/// Whether a destination is in memory.
pub(crate) fn is_stored(to: &Destination) -> bool
    ensures { result ≡ is_stored to.now }
{
    register_of(to).is_none()
}

/// Copies the values that come to memory.
fn store_each(asm: &mut Asm, frame: &Frame, to: &[Destination]) -> Result<(), AllocError>
    requires frame { CanBeMade frame.now }
    requires destinations { list_all (is_destination frame.now) to.now ≡ true }
    requires labels { All (IsDestination asm.old.labels) to.now }
    requires few { length to.now ≤ 64 }
    ensures copies { OnOk result (Adds (store_cost to.now) asm.old.parts asm.new.parts (λ x from on. All (IsGlobalBy x.at) to.now → (r : Region) → PassesBy (stored_count to.now) (store_cost to.now) (HasRegion r frame.now.size) (HasStored r x.at to.now) x from on)) }
    ensures labels { asm.new.labels ≡ asm.old.labels }
{
    for (index, destination) in to.iter().enumerate() {
        let now = is_stored(destination);
        copy_if(asm, now, index as u32, destination)?;
    }
    Ok(())
}

/// Whether a value comes from the argument area to a register, and none behind it does.
fn is_loaded(index: u32, to: &Destination, rest: &[Destination]) -> bool
    ensures { result ≡ is_loaded index to.now rest.now }
{
    IN_REGISTERS <= index && last_to(to, rest).is_some()
}

/// Copies the values that come from the argument area to registers.
fn load_each(asm: &mut Asm, frame: &Frame, to: &[Destination]) -> Result<(), AllocError>
    requires frame { CanBeMade frame.now }
    requires destinations { list_all (is_destination frame.now) to.now ≡ true }
    requires labels { All (IsDestination asm.old.labels) to.now }
    requires few { length to.now ≤ 64 }
    ensures copies { OnOk result (Adds (load_cost 0 to.now) asm.old.parts asm.new.parts (λ x from on. All (IsGlobalBy x.at) to.now → (r : Region) → Passes (load_cost 0 to.now) (HasRegion r frame.now.size) (HasArrived r x.at (λ k. nat_le IN_REGISTERS k) to.now) x from on)) }
    ensures labels { asm.new.labels ≡ asm.old.labels }
{
    for (index, destination) in to.iter().enumerate() {
        let now = is_loaded(index as u32, destination, &to[index + 1..]);
        copy_if(asm, now, index as u32, destination)?;
    }
    Ok(())
}

/// Copies the value with this index to a destination, if so.
fn copy_if(asm: &mut Asm, now: bool, index: u32, to: &Destination) -> Result<(), AllocError>
    requires few { index < 64 }
    requires destination { IsDestination asm.old.labels to.now }
    ensures copies { OnOk result (Adds (cost_if now to.now) asm.old.parts asm.new.parts (λ x from on. (r : Region) → PassesBy (one_if now) (cost_if now to.now) (CanCopyIn r x.at to.now) (λ s t. CopiesIf now x.at to.now (word_at s (value_place r index)) s t) x from on)) }
    ensures labels { asm.new.labels ≡ asm.old.labels }
{
    if now {
        copy_value(asm, index, to)?;
    }
    Ok(())
}

/// Copies the value with this index to a destination.
fn copy_value(asm: &mut Asm, index: u32, to: &Destination) -> Result<(), AllocError>
    requires few { index < 64 }
    requires destination { IsDestination asm.old.labels to.now }
    ensures copies { OnOk result (Adds (cost_of to.now) asm.old.parts asm.new.parts (λ x from on. (r : Region) → Leads (cost_of to.now) (CanCopyIn r x.at to.now) (λ s t. PutsTo x.at to.now (word_at s (value_place r index)) s t) x from on)) }
    ensures labels { asm.new.labels ≡ asm.old.labels }
{
    match *to {
        Destination::Place(place) => {
            take_value(asm, index, place)?;
            Ok(())
        }
        Destination::Register(of) => {
            copy_to_global(asm, index, of)?;
            Ok(())
        }
    }
}

/// Copies the value with this index to a global register.
fn copy_to_global(asm: &mut Asm, index: u32, of: Label) -> Result<(), AllocError>
    requires few { index < 64 }
    requires label { IsLabel asm.old.labels of }
    ensures copies { OnOk result (Adds 5 asm.old.parts asm.new.parts (λ x from on. (r : Region) → Leads 5 (CanCopyIn r x.at (Destination.Register of)) (λ s t. PutsTo x.at (Destination.Register of) (word_at s (value_place r index)) s t) x from on)) }
    ensures labels { asm.new.labels ≡ asm.old.labels }
{
    if index < IN_REGISTERS {
        put_global(asm, FIRST_VALUE + index as u8, of)?;
        return Ok(());
    }
    asm.emit(load_value(index))?;
    put_global(asm, FIRST_SCRATCH, of)?;
    Ok(())
}
