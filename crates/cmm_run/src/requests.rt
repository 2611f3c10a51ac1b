//! What an ECALL asks for.
ghost use Rattle.std.specs.Prelude.{◌≡◌, ◌+◌, ◌<◌, ◌^◌, IfOk, OnErr, OnOk};
ghost use Rattle.rv_table.specs.Machine.{Asks, instruction_step, with_set};
ghost use Rattle.cmm_outside.specs.Faults.{Rose};
ghost use Rattle.cmm_image_machine.specs.Changes.{at_pc};
ghost use Rattle.cmm_image_machine.specs.Machine.{map_of, region_of};
ghost use Rattle.cmm_client.specs.Stops.{map_of as program_map_of, region_of as program_region_of, state_of};
ghost use Rattle.cmm_run.specs.Outside.{outside_of};
ghost use Rattle.cmm_run.specs.inside.Takes.{GivesNext, HasAsked, TakeFails};
ghost use Rattle.cmm_run.specs.inside.Turns.{HasTurned, TurnFails};

use crate::loaded::Loaded;
use crate::machine::Machine;
use crate::outcome::Outcome;
use crate::yielding::yields;
use cmm_abi::registers::REQUEST_VALUE;
use cmm_client::Stopped;
use cmm_outside::{Failed, Sink, Source};
use rv_table::Request;

/// Does what the ECALL at pc asks for, and says what the run comes to if it is over.
pub fn answer<I: Source, O: Sink, E: Sink>(
    loaded: &Loaded,
    request: Request,
    machine: &mut Machine,
    input: &mut I,
    out: &mut O,
    log: &mut E,
) -> Option<Outcome>
    requires map { program_map_of machine.old.program ≡ map_of loaded.now }
    requires region { program_region_of machine.old.program ≡ region_of loaded.now }
    requires room { (state_of machine.old.program).pc + 4 < 2 ^ 64 }
    ensures map { program_map_of machine.new.program ≡ map_of loaded.now }
    ensures region { program_region_of machine.new.program ≡ region_of loaded.now }
    ensures fails { TurnFails (outside_of I.left I.faults O.taken O.faults E.taken E.faults input.old out.old log.old)
        (outside_of I.left I.faults O.taken O.faults E.taken E.faults input.new out.new log.new) result }
    ensures turns { HasTurned loaded.now (outside_of I.left I.faults O.taken O.faults E.taken E.faults input.old out.old log.old)
        (outside_of I.left I.faults O.taken O.faults E.taken E.faults input.new out.new log.new) machine.old machine.new result
        (λ run. instruction_step (map_of loaded.now) run.machine ≡ Asks request) }
{
    match request {
        Request::PutByte(byte) => match machine.waiting.put(byte, out) {
            Ok(()) => {
                go_on(&mut machine.program);
                None
            }
            Err(Failed) => Some(Outcome::OutputFault),
        },
        Request::GetByte => match machine.waiting.flush(out) {
            Ok(()) => get_byte(machine, input),
            Err(Failed) => Some(Outcome::OutputFault),
        },
        Request::Yield => match machine.waiting.flush(out) {
            Ok(()) => {
                go_on(&mut machine.program);
                yields(loaded, machine, log)
            }
            Err(Failed) => Some(Outcome::OutputFault),
        },
        Request::StackLimit => Some(machine.waiting.close(Outcome::StackLimit, out)),
        Request::End(value) => Some(machine.waiting.close(Outcome::Done(value), out)),
    }
}

/// Gives the register for it the next byte of the input, or all ones where the input has ended, once and for all.
fn get_byte<I: Source>(machine: &mut Machine, input: &mut I) -> Option<Outcome>
    requires { (state_of machine.old.program).pc + 4 < 2 ^ 64 }
    ensures map { program_map_of machine.new.program ≡ program_map_of machine.old.program }
    ensures region { program_region_of machine.new.program ≡ program_region_of machine.old.program }
    ensures waiting { machine.new.waiting ≡ machine.old.waiting }
    ensures asked { HasAsked (state_of machine.old.program) (state_of machine.new.program)
        (I.left input.old) (I.left input.new) machine.old.input_ended machine.new.input_ended result }
    ensures fails { TakeFails (I.faults input.old) (I.faults input.new) result }
{
    if machine.input_ended {
        receive(&mut machine.program, u64::MAX);
        return None;
    }
    match next_byte(input) {
        Ok(Some(byte)) => {
            receive(&mut machine.program, u64::from(byte));
            None
        }
        Ok(None) => {
            machine.input_ended = true;
            receive(&mut machine.program, u64::MAX);
            None
        }
        Err(Failed) => Some(Outcome::InputFault),
    }
}

/// Moves pc of the thread that runs on, past the ECALL.
fn go_on(program: &mut Stopped)
    requires { (state_of program.old).pc + 4 < 2 ^ 64 }
    ensures state { state_of program.new ≡ at_pc ((state_of program.old).pc + 4) (state_of program.old) }
    ensures map { program_map_of program.new ≡ program_map_of program.old }
    ensures region { program_region_of program.new ≡ program_region_of program.old }
{
    program.running_mut().regs.pc += 4;
}

/// Gives the register of what comes of a request its value, and moves pc on.
fn receive(program: &mut Stopped, value: u64)
    requires { (state_of program.old).pc + 4 < 2 ^ 64 }
    ensures state { state_of program.new ≡ with_set (state_of program.old) REQUEST_VALUE value }
    ensures map { program_map_of program.new ≡ program_map_of program.old }
    ensures region { program_region_of program.new ≡ program_region_of program.old }
{
    program.running_mut().regs.write(REQUEST_VALUE, value);
    go_on(program);
}

/// Takes the next byte of the input, or none at its end.
fn next_byte<I: Source>(input: &mut I) -> Result<Option<u8>, Failed>
    ensures ok { IfOk result (GivesNext (I.left input.old) (I.left input.new)) }
    ensures err { OnErr result (I.left input.new ≡ I.left input.old) }
    ensures no_fault { OnOk result (I.faults input.new ≡ I.faults input.old) }
    ensures fault { OnErr result (Rose (I.faults input.old) (I.faults input.new)) }
{
    let mut byte = [0; 1];
    if input.read(&mut byte)? == 0 {
        return Ok(None);
    }
    let [value] = byte;
    Ok(Some(value))
}
