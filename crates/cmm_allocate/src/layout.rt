//! The layout of a procedure's frame. From the frame's address up it has the slots of the locals, the return address, the
//! registers that are saved, the pairs of the continuations, and the stackdata.

ghost use Rattle.std.specs.Prelude.{◌≡◌, ◌+◌, ◌*◌, ◌<◌, ◌≤◌, ◌^◌, IfOk, IsTrue, length, map};
ghost use Rattle.std.specs.List.{list_all, list_any};
ghost use Rattle.cmm_program.specs.InRange.{FitsFrames, is_item};
ghost use Rattle.cmm_program.specs.Layout.{aligned_up, stackdata_labels, stackdata_size};
ghost use Rattle.cmm_abi.specs.Registers.{callee_saves};
ghost use Rattle.cmm_located.specs.Layouts.{IsFrameOf, has_cut_exit, has_cuts, is_kept_in, is_location, keeps_local, saved_registers, slot_end, slots_end, to_save};
ghost use Rattle.cmm_allocate.specs.inside.Laying.{pairs_from, words_from};

use cmm_abi::registers::CALLEE_SAVES;
use cmm_chain::{Frame, Location};
use cmm_items::Items;
use cmm_program::{Proc, Site, StackItem};
use std::alloc::{AllocError, Global};

/// Where the slots end, which stand first in a frame.
fn end_of_slots(places: &[Location]) -> u32
    requires { slots_end places.now < 2 ^ 31 }
    ensures { result ≡ slots_end places.now }
{
    let mut end: u32 = 0;
    for place in places {
        if let Location::Slot(offset) = place {
            end = end.max(*offset + 8);
        }
    }
    end
}

/// Whether a place is a callee-saves register.
fn is_register(place: &Location, register: u8) -> bool
    ensures { result ≡ is_kept_in register place.now }
{
    match place {
        Location::Saved(kept) => *kept == register,
        _ => false,
    }
}

/// Whether a local is kept in a callee-saves register.
fn holds_local(places: &[Location], register: u8) -> bool
    ensures { result ≡ keeps_local register places.now }
{
    places.iter().any(|place| is_register(place, register))
}

/// Whether a site may be cut to.
fn is_cut_to(site: &Site) -> bool
    ensures { result ≡ has_cuts site.now.cuts }
{
    !site.cuts.is_empty()
}

/// Whether some site of a procedure may be cut to.
fn may_be_cut_to(p: &Proc) -> bool
    ensures { result ≡ has_cut_exit p.now }
{
    p.sites.iter().any(is_cut_to)
}

/// Words from an offset on, for those of some callee-saves registers that the procedure saves: all of them where it may be cut to,
/// since a cut restores none, and else those that hold its own locals.
fn lay_saved(
    alloc: Global,
    p: &Proc,
    places: &[Location],
    registers: &[u8],
    from: u32,
) -> Result<Items<(u8, u32)>, AllocError>
    requires { from + 8 * length registers.now < 2 ^ 32 }
    ensures saved { IfOk result (λ saved. saved ≡ words_from from (to_save p.now places.now registers.now)) }
    ensures few { IfOk result (λ saved. length saved ≤ length registers.now) }
{
    let saves_all = may_be_cut_to(p);
    let mut saved = Vec::new(alloc);
    let mut at = from;
    for register in registers {
        if saves_all || holds_local(places, *register) {
            saved.push((*register, at))?;
            at += 8;
        }
    }
    Ok(Items::from_vec(saved))
}

/// The offsets of `count` pairs, 16 bytes each, from an offset on.
fn lay_pairs(alloc: Global, count: u32, from: u32) -> Result<Items<u32>, AllocError>
    requires { from + 16 * count < 2 ^ 32 }
    ensures { IfOk result (λ pairs. pairs ≡ pairs_from from count) }
{
    let mut pairs = Vec::new(alloc);
    let mut at = from;
    for _ in 0..count {
        pairs.push(at)?;
        at += 16;
    }
    Ok(Items::from_vec(pairs))
}

/// The least multiple of an alignment that is not below a place.
fn next_aligned(align: u32, place: u32) -> u32
    requires align { 0 < align }
    requires small { align + place < 2 ^ 32 }
    ensures place { result ≡ aligned_up align place }
    ensures near { result < align + place }
{
    (place + (align - 1)) / align * align
}

/// Where stackdata that begins at an offset has its labels, and where it ends.
fn lay_stackdata(
    alloc: Global,
    items: &[StackItem],
    base: u32,
) -> Result<(Items<u32>, u32), AllocError>
    requires items { IsTrue (list_all is_item items.now) }
    requires size { stackdata_size items.now ≤ 65536 }
    requires base { base < 2 ^ 31 }
    ensures { IfOk result (λ laid. (laid.0 ≡ map (λ place. base + place) (stackdata_labels items.now)) × (laid.1 ≡ base + stackdata_size items.now)) }
{
    let mut labels = Vec::new(alloc);
    let mut place = 0;
    for item in items {
        let here = next_aligned(item.align, place);
        if item.label {
            labels.push(base + here)?;
        }
        place = here + item.length;
    }
    Ok((Items::from_vec(labels), base + place))
}

/// The frame of a procedure whose locals have these places. Its parts do not overlap, it is within the bound on frames, and what it
/// says of pairs and stackdata is what a valid placement says. Slots and pairs must come to at most 8 bytes a token. An error says
/// that memory ran out.
pub(crate) fn lay_frame(alloc: Global, p: &Proc, places: &[Location]) -> Result<Frame, AllocError>
    requires frames { FitsFrames p.now }
    requires places { IsTrue (list_all is_location places.now) }
    requires room { slots_end places.now + 16 * length p.now.conts ≤ 8 * p.now.tokens }
    ensures { IfOk result (λ f. IsFrameOf p.now places.now f) }
{
    let return_at = end_of_slots(places);
    let saved_at = return_at + 8;
    let saved = lay_saved(alloc, p, places, &CALLEE_SAVES, saved_at)?;
    let pairs_at = saved_at + 8 * saved.len() as u32;
    let count = p.conts.len() as u32;
    let pairs = lay_pairs(alloc, count, pairs_at)?;
    let base = next_aligned(16, pairs_at + 16 * count);
    let (stack, end) = lay_stackdata(alloc, p.stack.as_slice(), base)?;
    Ok(Frame {
        size: next_aligned(16, end),
        return_at,
        saved,
        pairs,
        stack,
    })
}
