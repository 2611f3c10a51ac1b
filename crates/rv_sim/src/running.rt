//! Many instructions, one after another.
ghost use Rattle.std.specs.Prelude.{◌≡◌, ◌≢◌, ◌<◌, ◌+◌, ◌^◌, Some, slice_index};
ghost use Rattle.rv_memory.specs.Regions.{map_of, region_of};
ghost use Rattle.rv_sim.specs.declared.event.Event.TheVariants.{Next, Asks};
ghost use Rattle.rv_sim.specs.Standing.{IsTableOf};
ghost use Rattle.rv_sim.specs.Stepping.{state_of, outcome_of, event_of, state_after};
ghost use Rattle.rv_table.specs.declared.request.Request.{Request as RequestOf};
ghost use Rattle.rv_table.specs.Machine.{steps as after};

use crate::decoded::Decoded;
use crate::event::Event;
use crate::instruction::execute;
use rv_memory::Memory;
use rv_table::{Regs, Trap};

/// How many instructions were done, and what the one behind them ended in: `Next` where no more were allowed.
#[derive(Clone, Copy)]
pub struct Ran {
    pub done: u64,
    pub event: Event,
}

/// Does instructions of this table until one ends in something other than the next, but no more than `steps`.
pub fn run(table: &Decoded, r: &mut Regs, m: &mut Memory, steps: u64) -> Ran
    requires { IsTableOf (map_of m.old).code table.now }
    ensures done { after (map_of m.old) result.done (state_of r.old m.old) ≡ Some (state_of r.new m.new) }
    ensures event { result.event ≢ Next → result.event ≡ event_of r.new.pc (outcome_of r.new m.new) }
    ensures below { result.event ≢ Next → result.done < steps }
    ensures limit { result.event ≡ Next → result.done ≡ steps }
    ensures room { (request : RequestOf) → result.event ≡ Asks request → r.new.pc + 4 < 2 ^ 64 }
    ensures map { map_of m.new ≡ map_of m.old }
    ensures region { region_of m.new ≡ region_of m.old }
    ensures zero { slice_index r.new.x 0 ≡ slice_index r.old.x 0 }
{
    for done in 0..steps {
        match turn(table, r, m) {
            Event::Next => {}
            event => return Ran { done, event },
        }
    }
    Ran {
        done: steps,
        event: Event::Next,
    }
}

/// Does the instruction at pc, and says what it ends in.
fn turn(table: &Decoded, r: &mut Regs, m: &mut Memory) -> Event
    requires { IsTableOf (map_of m.old).code table.now }
    ensures event { result ≡ event_of r.old.pc (outcome_of r.old m.old) }
    ensures state { state_of r.new m.new ≡ state_after (state_of r.old m.old) (outcome_of r.old m.old) }
    ensures map { map_of m.new ≡ map_of m.old }
    ensures region { region_of m.new ≡ region_of m.old }
    ensures zero { slice_index r.new.x 0 ≡ slice_index r.old.x 0 }
    ensures registers_kept { result ≢ Next → r.new ≡ r.old }
    ensures memory_kept { result ≢ Next → m.new ≡ m.old }
    ensures room { (request : RequestOf) → result ≡ Asks request → r.new.pc + 4 < 2 ^ 64 }
{
    match table.at(r.pc) {
        Ok(instruction) => execute(instruction, r, m),
        Err(kind) => Event::Trap(Trap { kind, pc: r.pc }),
    }
}
