//! From one activation to the next older one.
ghost use Rattle.std.specs.Prelude.{◌≡◌, ◌==◌, ◌&&◌, ◌+◌, ◌^◌, ◌<◌, ◌≤◌, ℕ, length, slice_get, Some, IfOk, IfSome, IsTrue};
ghost use Rattle.std.specs.List.{All};
ghost use Rattle.rv_table.specs.Registers.{registers_of};
ghost use Rattle.rv_memory.specs.Regions.{memory_of, region_of};
ghost use Rattle.cmm_image.specs.Images.{IsImage};
ghost use Rattle.cmm_abi.specs.Registers.{is_callee_saves};
ghost use Rattle.cmm_image_machine.specs.Frames.{first_point as beginning, found_at as found_in, is_frame as is_frame_in, point_after as point_behind, return_offset as offset_of_return};
ghost use Rattle.cmm_abi.specs.Regions.{Region, InRegister, bottom as bottom_of, top as top_of};
ghost use Rattle.cmm_walk.specs.Activations.{Fits, SavedFit, element_of, register_in};
ghost use Rattle.rv_memory.specs.States.{state_of};
ghost use Rattle.cmm_walk.specs.Walking.{found_by};
ghost use Rattle.cmm_walk.specs.inside.Points.{kept_behind, point_of};

use crate::activation::{Activation, Kept, order_of, register_of};
use crate::rows::{procedure_at, procedure_of, site_at};
use cmm_abi::registers::{FRAME, RETURN_ADDRESS};
use cmm_image::{Image, ProcRow};
use rv_memory::Memory;
use rv_table::Regs;

/// Where the chain of frames of a stopped program breaks: no activation with this frame has this return address.
#[derive(Clone, Copy, PartialEq, Eq)]
pub struct Torn {
    /// The address of the frame.
    pub frame: u64,
    /// The return address.
    pub address: u64,
}

/// What a chain goes on with.
#[derive(Clone, Copy)]
pub(crate) struct Point {
    /// A return address.
    pub(crate) address: u64,
    /// The frame of the activation that it returns to.
    pub(crate) frame: u64,
    /// Where that activation's values of callee-saves registers are.
    pub(crate) saved: [Kept; 11],
}

/// The youngest activation. There is none exactly where the chain ends at once, and the error is that it breaks there.
pub fn youngest(i: &Image, r: &Regs, m: &Memory) -> Result<Option<Activation>, Torn>
    ensures found { found_by i.now result ≡ found_in i.now (region_of m.now) (beginning (state_of r.now m.now)) }
    ensures fits { IfOk result (λ found. IfSome found (Fits i.now (region_of m.now))) }
    ensures kept { IsImage i.now }
{
    found_at(&first_point(r), i, m)
}

/// The next older activation. There is none exactly where the chain ends behind this one, and the error is that it breaks there.
pub fn next_activation(a: &Activation, i: &Image, m: &Memory) -> Result<Option<Activation>, Torn>
    requires { Fits i.now (region_of m.now) a.now }
    ensures found { found_by i.now result ≡ found_in i.now (region_of m.now) (point_behind (memory_of m.now) (element_of i.now a.now)) }
    ensures fits { IfOk result (λ found. IfSome found (Fits i.now (region_of m.now))) }
    ensures kept { IsImage i.now }
{
    found_at(&point_after(a, i, m), i, m)
}

/// The point at which a chain begins.
fn first_point(r: &Regs) -> Point
    ensures point { point_of result ≡ record { address = registers_of r.now RETURN_ADDRESS; frame = registers_of r.now FRAME; places = InRegister } }
    ensures saved { (region : Region) → SavedFit region result.saved }
{
    Point {
        address: r.read(RETURN_ADDRESS),
        frame: r.read(FRAME),
        saved: [Kept::InRegister; 11],
    }
}

/// The point behind an activation.
fn point_after(a: &Activation, i: &Image, m: &Memory) -> Point
    requires { Fits i.now (region_of m.now) a.now }
    ensures point { point_of result ≡ point_behind (memory_of m.now) (element_of i.now a.now) }
    ensures saved { SavedFit (region_of m.now) result.saved }
{
    let procedure = procedure_of(a, i);
    Point {
        address: m.word(a.frame + return_offset(procedure)),
        frame: a.frame + u64::from(procedure.frame),
        saved: saved_before(a, procedure),
    }
}

/// How far into its frame a procedure saves its return address.
fn return_offset(procedure: &ProcRow) -> u64
    ensures { result ≡ offset_of_return procedure.now }
{
    match procedure.return_at {
        Some(offset) => u64::from(offset),
        None => 0,
    }
}

/// Where the values of callee-saves registers are behind an activation of a procedure.
fn saved_before(a: &Activation, procedure: &ProcRow) -> [Kept; 11]
    requires room { a.now.frame + procedure.now.frame < 2 ^ 64 }
    requires saved { All (λ s. s.offset ≤ procedure.now.frame) procedure.now.saved }
    ensures count { length result ≡ 11 }
    ensures each { (k : ℕ) → k < 11 → slice_get result k ≡ Some (kept_behind a.now procedure.now (register_in k)) }
{
    let mut saved = a.saved;
    for (k, kept) in saved.iter_mut().enumerate() {
        *kept = kept_before(a, procedure, register_of(k));
    }
    saved
}

/// Where the value of a callee-saves register is behind an activation of a procedure: in its frame where the procedure saved it, and else where it was.
fn kept_before(a: &Activation, procedure: &ProcRow, register: u8) -> Kept
    requires register { IsTrue (is_callee_saves register) }
    requires room { a.now.frame + procedure.now.frame < 2 ^ 64 }
    requires saved { All (λ s. s.offset ≤ procedure.now.frame) procedure.now.saved }
    ensures { result ≡ kept_behind a.now procedure.now register }
{
    match procedure
        .saved
        .iter()
        .find(|saved| saved.register == register)
    {
        Some(saved) => Kept::At(a.frame + u64::from(saved.offset)),
        None => a.saved[order_of(register)],
    }
}

/// What stands at a point.
fn found_at(p: &Point, i: &Image, m: &Memory) -> Result<Option<Activation>, Torn>
    requires { SavedFit (region_of m.now) p.now.saved }
    ensures found { found_by i.now result ≡ found_in i.now (region_of m.now) (point_of p.now) }
    ensures fits { IfOk result (λ found. IfSome found (Fits i.now (region_of m.now))) }
    ensures kept { IsImage i.now }
{
    let bottom = m.base();
    let top = m.top();
    if is_end(p.address, i.parts().last, p.frame, top) {
        return Ok(None);
    }
    let torn = Torn {
        frame: p.frame,
        address: p.address,
    };
    let Some(site) = i.site_of(p.address) else {
        return Err(torn);
    };
    let proc = site_at(i, site).procedure;
    if is_frame(p.frame, procedure_at(i, proc).frame, bottom, top) {
        Ok(Some(Activation {
            frame: p.frame,
            site,
            proc,
            saved: p.saved,
        }))
    } else {
        Err(torn)
    }
}

/// Whether a chain ends at a point: the call of main, whose caller has no frame, returns to `last`.
fn is_end(address: u64, last: u64, frame: u64, top: u64) -> bool
    ensures { result ≡ (address == last) && (frame == top) }
{
    address == last && frame == top
}

/// Whether a frame of a size begins at a multiple of 16 and lies in a stack from `bottom` to `top`.
fn is_frame(frame: u64, size: u32, bottom: u64, top: u64) -> bool
    ensures { (r : Region) → bottom ≡ bottom_of r → top ≡ top_of r → result ≡ is_frame_in r frame size }
{
    frame % 16 == 0 && bottom <= frame && frame <= top && u64::from(size) <= top - frame
}
