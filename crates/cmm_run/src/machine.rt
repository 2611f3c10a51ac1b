//! What a run changes.
ghost use Rattle.std.specs.Prelude.{◌≡◌, ℕ};
ghost use Rattle.rv_memory.specs.Regions.{region_of};
ghost use Rattle.rv_sim.specs.Stepping.{state_with};
ghost use Rattle.rv_table.specs.Machine.{start as first_state};
ghost use Rattle.cmm_image_machine.specs.Changes.{at_pc};

use crate::waiting::Waiting;
use cmm_abi::registers::{FRAME, REGION};
use cmm_client::Stopped;
use rv_memory::Memory;
use rv_table::Regs;

/// What a run changes: the program's registers, pc and memory, the output that it has put and not written yet, and whether its input has ended. An input that has ended
/// stays so: a terminal may give bytes again, which no list of bytes that a program reads in a row would explain.
pub struct Machine {
    pub program: Stopped,
    pub waiting: Waiting,
    pub input_ended: bool,
}

/// In one place, so that whoever lets one go has one call to prove.
impl Drop for Machine {
    fn drop(self) {
        let Self {
            program: _,
            waiting: _,
            input_ended: _,
        } = self;
    }
}

/// The registers where a run begins at an address, in this memory.
pub fn first_registers(start: u64, memory: &Memory) -> Regs
    ensures { (bytes : ℕ → ℕ) → state_with result bytes ≡ at_pc start (first_state (region_of memory.now) bytes) }
{
    let mut regs = Regs {
        x: [0; 32],
        pc: start,
    };
    regs.write(FRAME, memory.top());
    regs.write(REGION, memory.region());
    regs
}
