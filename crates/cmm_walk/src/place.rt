//! The places of words.
ghost use Rattle.std.specs.Prelude.{◌≡◌};
ghost use Rattle.cmm_image_machine.specs.Laws.{IsInStack};
ghost use Rattle.cmm_abi.specs.Regions.{word_at as word_in};
ghost use Rattle.cmm_walk.specs.Activations.{place_of};
ghost use Rattle.rv_memory.specs.Regions.{region_of};
ghost use Rattle.rv_memory.specs.States.{state_of};

use rv_memory::Memory;
use rv_table::Regs;

/// The 8 bytes that a word is kept in.
#[derive(Clone, Copy)]
pub enum Place {
    /// Those of the register of this number.
    InRegister(u8),
    /// Those from this address on, aligned or not.
    InMemory(u64),
}

/// The word at a place.
pub fn word_at(place: Place, r: &Regs, m: &Memory) -> u64
    requires { IsInStack (region_of m.now) (place_of place) }
    ensures { result ≡ word_in (state_of r.now m.now) (place_of place) }
{
    match place {
        Place::InRegister(register) => r.read(register),
        Place::InMemory(address) => m.word(address),
    }
}
