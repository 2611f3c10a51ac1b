//! What a snapshot gives back.

ghost use Rattle.std.specs.Prelude.{◌≡◌};

use rv_memory::Memory;
use rv_table::Regs;
use std::marker::Model;

/// The registers and the memory of a program that has stopped. Contracts see it as these two.
pub struct Halted {
    regs: Regs,
    memory: Memory,
}

/// In one place, so that whoever lets one go has one call to prove.
impl Drop for Halted {
    fn drop(self) {
        let Self { regs: _, memory: _ } = self;
    }
}

impl Model for Halted {
    ghost use Rattle.cmm_snapshot.specs.Stops.{Stopped};

    ghost Value = { Stopped };

    ghost view = { λ h. record { regs = h.regs; memory = h.memory } };
}

impl Halted {
    /// A program that has stopped with these registers and this memory.
    pub(crate) fn new(regs: Regs, memory: Memory) -> Halted
        ensures { result ≡ record { regs = regs; memory = memory } }
    {
        Halted { regs, memory }
    }

    /// Its registers.
    pub fn registers(&self) -> &Regs
        ensures { result.now ≡ self.now.regs }
    {
        &self.regs
    }

    /// Its memory.
    pub fn memory(&self) -> &Memory
        ensures { result.now ≡ self.now.memory }
    {
        &self.memory
    }
}
