//! The turns of a run: instructions that ask for nothing, many at once, and then one that does.
ghost use Rattle.std.specs.Prelude.{◌≡◌, ◌≢◌, ◌<◌, ◌+◌, ◌^◌, Some};
ghost use Rattle.rv_table.specs.declared.request.Request.{Request as RequestOf};
ghost use Rattle.rv_sim.specs.declared.event.Event.TheVariants.{Next, Asks};
ghost use Rattle.rv_sim.specs.Stepping.{event_of};
ghost use Rattle.rv_table.specs.Machine.{instruction_step, steps as after};
ghost use Rattle.cmm_image_machine.specs.Machine.{map_of, region_of};
ghost use Rattle.cmm_client.specs.Stops.{map_of as program_map_of, region_of as program_region_of, state_of};
ghost use Rattle.cmm_run.specs.Outside.{outside_of};
ghost use Rattle.cmm_run.specs.Runs.{Runs};
ghost use Rattle.cmm_run.specs.inside.Loading.{IsReady};
ghost use Rattle.cmm_run.specs.inside.Turns.{HasTurned, TurnFails};

use crate::loaded::Loaded;
use crate::machine::Machine;
use crate::outcome::Outcome;
use crate::requests::answer;
use cmm_outside::{Sink, Source};
use rv_sim::{Event, Ran};

/// Runs an image from its start, for no more than `steps` instructions.
pub fn run<I: Source, O: Sink, E: Sink>(
    loaded: &Loaded,
    steps: u64,
    machine: &mut Machine,
    input: &mut I,
    out: &mut O,
    log: &mut E,
) -> Outcome
    requires { IsReady loaded.now machine.old }
    ensures map { program_map_of machine.new.program ≡ map_of loaded.now }
    ensures region { program_region_of machine.new.program ≡ region_of loaded.now }
    ensures runs { Runs loaded.now steps (outside_of I.left I.faults O.taken O.faults E.taken E.faults input.old out.old log.old)
        (outside_of I.left I.faults O.taken O.faults E.taken E.faults input.new out.new log.new) result (state_of machine.new.program) }
{
    let mut done = 0;
    while done < steps {
        let ran = advance(loaded, steps - done, machine);
        done += ran.done;
        match ran.event {
            Event::Next => continue,
            event => {
                if let Some(outcome) = turn(loaded, event, machine, input, out, log) {
                    return outcome;
                }
            }
        }
        done += 1;
    }
    machine.waiting.close(Outcome::StepLimit, out)
}

/// Does the instructions of the thread that runs, until one ends in something other than the next, but no more than `steps`.
fn advance(loaded: &Loaded, steps: u64, machine: &mut Machine) -> Ran
    requires { program_map_of machine.old.program ≡ map_of loaded.now }
    ensures done { after (program_map_of machine.old.program) result.done (state_of machine.old.program) ≡ Some (state_of machine.new.program) }
    ensures event { result.event ≢ Next → result.event ≡ event_of (state_of machine.new.program).pc
        (instruction_step (program_map_of machine.new.program) (state_of machine.new.program)) }
    ensures below { result.event ≢ Next → result.done < steps }
    ensures limit { result.event ≡ Next → result.done ≡ steps }
    ensures room { (request : RequestOf) → result.event ≡ Asks request → (state_of machine.new.program).pc + 4 < 2 ^ 64 }
    ensures map { program_map_of machine.new.program ≡ program_map_of machine.old.program }
    ensures region { program_region_of machine.new.program ≡ program_region_of machine.old.program }
    ensures waiting { machine.new.waiting ≡ machine.old.waiting }
    ensures input { machine.new.input_ended ≡ machine.old.input_ended }
{
    let thread = machine.program.running_mut();
    rv_sim::run(loaded.table(), &mut thread.regs, &mut thread.memory, steps)
}

/// Does what the instruction at pc ends in, which is not the next one, and says what the run comes to if it is over.
fn turn<I: Source, O: Sink, E: Sink>(
    loaded: &Loaded,
    event: Event,
    machine: &mut Machine,
    input: &mut I,
    out: &mut O,
    log: &mut E,
) -> Option<Outcome>
    requires map { program_map_of machine.old.program ≡ map_of loaded.now }
    requires region { program_region_of machine.old.program ≡ region_of loaded.now }
    requires event { event ≡ event_of (state_of machine.old.program).pc
        (instruction_step (program_map_of machine.old.program) (state_of machine.old.program)) }
    requires ends { event ≢ Next }
    requires room { (request : RequestOf) → event ≡ Asks request → (state_of machine.old.program).pc + 4 < 2 ^ 64 }
    ensures map { program_map_of machine.new.program ≡ map_of loaded.now }
    ensures region { program_region_of machine.new.program ≡ region_of loaded.now }
    ensures fails { TurnFails (outside_of I.left I.faults O.taken O.faults E.taken E.faults input.old out.old log.old)
        (outside_of I.left I.faults O.taken O.faults E.taken E.faults input.new out.new log.new) result }
    ensures turns { HasTurned loaded.now (outside_of I.left I.faults O.taken O.faults E.taken E.faults input.old out.old log.old)
        (outside_of I.left I.faults O.taken O.faults E.taken E.faults input.new out.new log.new) machine.old machine.new result (λ run. Unit {0}) }
{
    match event {
        Event::Next => unreachable!(),
        Event::Asks(request) => answer(loaded, request, machine, input, out, log),
        Event::Trap(trap) => Some(machine.waiting.close(Outcome::Trap(trap), out)),
    }
}
