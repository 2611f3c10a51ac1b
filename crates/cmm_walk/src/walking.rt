//! The walk as text.
ghost use Rattle.cmm_image_machine.specs.Frames.{chain_of};
ghost use Rattle.rv_memory.specs.Regions.{region_of};
ghost use Rattle.rv_memory.specs.States.{state_of};
ghost use Rattle.cmm_walk.specs.Texts.{WritesWalk};

use crate::chain::{Torn, next_activation, youngest};
use crate::lines::put_activation;
use cmm_image::Image;
use cmm_outside::{Failed, Sink, write_all};
use rv_memory::Memory;
use rv_table::Regs;

/// Why a walk was not written whole.
#[derive(Clone, Copy)]
pub enum WalkError {
    /// The chain of frames breaks here. The activations before are written.
    Torn(Torn),
    /// A write failed. A front of the walk is written.
    Failed,
}

/// Writes the walk of a stopped program, youngest first, and a line that ends it. Where the chain of frames breaks, the lines of the activations
/// before are written.
pub fn write_walk<E: Sink>(i: &Image, r: &Regs, m: &Memory, to: &mut E) -> Result<(), WalkError>
    ensures { WritesWalk E.taken E.faults to.old to.new (state_of r.now m.now) (chain_of i.now (region_of m.now) (state_of r.now m.now)) result }
{
    let mut number = 0;
    let mut next = match youngest(i, r, m) {
        Ok(found) => found,
        Err(torn) => return Err(WalkError::Torn(torn)),
    };
    while let Some(a) = next {
        match put_activation(to, number, &a, i, r, m) {
            Ok(()) => {}
            Err(Failed) => return Err(WalkError::Failed),
        }
        number += 1;
        next = match next_activation(&a, i, m) {
            Ok(found) => found,
            Err(torn) => return Err(WalkError::Torn(torn)),
        };
    }
    match write_all(to, b"end\n") {
        Ok(()) => Ok(()),
        Err(Failed) => Err(WalkError::Failed),
    }
}
