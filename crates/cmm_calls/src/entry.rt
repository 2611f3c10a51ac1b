//! A procedure is entered: its frame is made.

ghost use Rattle.std.specs.Prelude.{◌≡◌, ◌+◌, ◌*◌, ◌^◌, ◌<◌, ◌≤◌, length, ◌∷◌, ◌++◌, [], true, IfOk, OnOk};
ghost use Rattle.std.specs.List.{All, list_all};
ghost use Rattle.cmm_chain.specs.Plans.{is_place};
ghost use Rattle.rv_asm.specs.Assembly.{IsInner, IsLabel};
ghost use Rattle.cmm_effects.specs.Pieces.{Adds, Runs};
ghost use Rattle.cmm_calls.specs.Frames.{CanBeMade, Enters, RunsInFrame, Stores, entry_cost, fixed_numbers, pair_numbers};
ghost use Rattle.cmm_calls.specs.Values.{Begins};
ghost use Rattle.cmm_calls.specs.inside.Pairs.{CanReachPair};
ghost use Rattle.cmm_calls.specs.inside.Zeroing.{is_zeroed_in, zeroed_in, zeroed_one};

use crate::copying::{is_stored, last_to};
use crate::place::zero_all;
use crate::room::take_room;
use crate::saved::save_all;
use crate::taking::{destinations, take};
use cmm_abi::registers::{FIRST_SCRATCH, FRAME, RETURN_ADDRESS};
use cmm_chain::{Frame, Location};
use cmm_items::Items;
use cmm_select::{Destination, save};
use rv_asm::{Asm, Label};
use std::alloc::{AllocError, Global};

/// Enters a procedure: where the stack has room, its frame is made, with the return address, the registers that it saves and the pair of each
/// continuation, whose code begins at its landing, and then locals are made 0 in their places. Where the stack lacks room, control goes to `limit`.
pub fn enter(
    asm: &mut Asm,
    frame: &Frame,
    landings: &[Label],
    zeroed: &[Location],
    limit: Label,
) -> Result<(), AllocError>
    requires frame { CanBeMade frame.now }
    requires landings { length landings.now ≡ length frame.now.pairs }
    requires labels { All (IsLabel asm.old.labels) landings.now }
    requires zeroed { list_all (is_place frame.now) zeroed.now ≡ true }
    requires limit { IsInner asm.old.labels limit }
    ensures enters { OnOk result (Adds (entry_cost frame.now zeroed.now) asm.old.parts asm.new.parts (Enters frame.now landings.now zeroed.now limit)) }
    ensures labels { asm.new.labels ≡ asm.old.labels }
{
    take_room(asm, frame.size, limit)?;
    write_frame(asm, frame, landings)?;
    zero_all(asm, frame, zeroed)?;
    Ok(())
}

/// Begins a procedure: makes its frame as `enter` does, and then locals are made 0 in their places and formals take the values that came, as if all
/// were done at once: slots are made 0 before, and registers behind, unless a formal has one.
pub fn begin(
    asm: &mut Asm,
    frame: &Frame,
    landings: &[Label],
    zeroed: &[Location],
    formals: &[Location],
    limit: Label,
) -> Result<(), AllocError>
    requires frame { CanBeMade frame.now }
    requires landings { length landings.now ≡ length frame.now.pairs }
    requires labels { All (IsLabel asm.old.labels) landings.now }
    requires zeroed { list_all (is_place frame.now) zeroed.now ≡ true }
    requires formals { list_all (is_place frame.now) formals.now ≡ true }
    requires few { length formals.now ≤ 64 }
    requires limit { IsInner asm.old.labels limit }
    ensures begins { OnOk result (Adds (entry_cost frame.now zeroed.now + 4 * length formals.now) asm.old.parts asm.new.parts (Begins frame.now landings.now zeroed.now formals.now limit)) }
    ensures labels { asm.new.labels ≡ asm.old.labels }
{
    let to = destinations(asm.alloc(), formals)?;
    let slots = places_zeroed(asm.alloc(), true, zeroed, to.as_slice())?;
    let registers = places_zeroed(asm.alloc(), false, zeroed, to.as_slice())?;
    take_room(asm, frame.size, limit)?;
    write_frame(asm, frame, landings)?;
    zero_all(asm, frame, slots.as_slice())?;
    take(asm, frame, formals)?;
    zero_all(asm, frame, registers.as_slice())?;
    Ok(())
}

/// The places made 0 that are slots, or else those that are registers which no formal has.
fn places_zeroed(
    alloc: Global,
    slots: bool,
    zeroed: &[Location],
    formals: &[Destination],
) -> Result<Items<Location>, AllocError>
    ensures { IfOk result (λ places. places ≡ zeroed_in slots formals.now zeroed.now) }
{
    let mut places = Items::new(alloc);
    for place in zeroed {
        add_zeroed(&mut places, slots, *place, formals)?;
    }
    Ok(places)
}

/// Adds a place, if it is one of those.
fn add_zeroed(
    places: &mut Items<Location>,
    slots: bool,
    place: Location,
    formals: &[Destination],
) -> Result<(), AllocError>
    ensures { OnOk result (places.new ≡ places.old ++ zeroed_one slots formals.now place) }
{
    if is_zeroed_in(slots, place, formals) {
        places.push(place)?;
    }
    Ok(())
}

/// Whether a place is a slot, or else a register that no formal has.
fn is_zeroed_in(slots: bool, place: Location, formals: &[Destination]) -> bool
    ensures { result ≡ is_zeroed_in slots formals.now place }
{
    let to = Destination::Place(place);
    if slots {
        return is_stored(&to);
    }
    last_to(&to, formals).is_some()
}

/// Writes the words of a new frame: the return address, the registers that it saves, and the pairs.
fn write_frame(asm: &mut Asm, frame: &Frame, landings: &[Label]) -> Result<(), AllocError>
    requires frame { CanBeMade frame.now }
    requires landings { length landings.now ≡ length frame.now.pairs }
    requires labels { All (IsLabel asm.old.labels) landings.now }
    ensures writes { OnOk result (Adds (3 + (3 * length frame.now.saved + 8 * length frame.now.pairs)) asm.old.parts asm.new.parts (λ x from to. RunsInFrame (3 + (3 * length frame.now.saved + 8 * length frame.now.pairs)) frame.now.size (λ s t. Stores (fixed_numbers x.at frame.now landings.now s.registers (s.registers FRAME)) s t) x from to)) }
    ensures labels { asm.new.labels ≡ asm.old.labels }
{
    save(asm, RETURN_ADDRESS, frame.return_at)?;
    save_all(asm, frame)?;
    write_pairs(asm, frame, landings)?;
    Ok(())
}

/// Writes the pairs of the continuations whose code begins at these landings.
fn write_pairs(asm: &mut Asm, frame: &Frame, landings: &[Label]) -> Result<(), AllocError>
    requires frame { CanBeMade frame.now }
    requires landings { length landings.now ≡ length frame.now.pairs }
    requires labels { All (IsLabel asm.old.labels) landings.now }
    ensures writes { OnOk result (Adds (8 * length frame.now.pairs) asm.old.parts asm.new.parts (λ x from to. RunsInFrame (8 * length frame.now.pairs) frame.now.size (λ s t. Stores (pair_numbers x.at (s.registers FRAME) frame.now.pairs landings.now) s t) x from to)) }
    ensures labels { asm.new.labels ≡ asm.old.labels }
{
    let pairs = frame.pairs.as_slice();
    for (index, offset) in pairs.iter().enumerate() {
        write_pair(asm, *offset, landings[index])?;
    }
    Ok(())
}

/// Writes the pair of a continuation at an offset: the address of its landing, and that of the frame.
fn write_pair(asm: &mut Asm, offset: u32, landing: Label) -> Result<(), AllocError>
    requires offset { offset + 8 < 2 ^ 21 }
    requires landing { IsLabel asm.old.labels landing }
    ensures writes { OnOk result (Adds 8 asm.old.parts asm.new.parts (λ x from to. Runs 0 8 (CanReachPair offset) (λ s t. Stores ((offset, x.at landing.number) ∷ (offset + 8, s.registers FRAME) ∷ []) s t) x from to)) }
    ensures labels { asm.new.labels ≡ asm.old.labels }
{
    asm.address(FIRST_SCRATCH, landing)?;
    save(asm, FIRST_SCRATCH, offset)?;
    save(asm, FRAME, offset + 8)?;
    Ok(())
}
