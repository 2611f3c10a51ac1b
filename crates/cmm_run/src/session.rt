//! Sessions.
ghost use Rattle.std.specs.Prelude.{◌≡◌, ◌≤◌, ◌%◌, ℕ, None, Some, IfOk};
ghost use Rattle.rv_memory.specs.Regions.{started};
ghost use Rattle.cmm_script.specs.Limits.{HasFewValues};
ghost use Rattle.cmm_run.specs.Outside.{outside_of};
ghost use Rattle.cmm_run.specs.Runs.{Runs};
ghost use Rattle.cmm_run.specs.declared.outcome.Outcome.{Outcome as OutcomeOf};
ghost use Rattle.cmm_run.specs.declared.outcome.Outcome.TheVariants.{Stopped as StoppedBy};
ghost use Rattle.cmm_run.specs.Sessions.{IsSnapshotOf, machine_of};

use crate::loaded::Loaded;
use crate::machine::{Machine, first_registers};
use crate::outcome::Outcome;
use crate::running::run;
use crate::waiting::Waiting;
use cmm_client::Stopped;
use cmm_image::Image;
use cmm_outside::{Sink, Source};
use cmm_script::Script;
use cmm_snapshot::write_snapshot;
use rv_memory::{Memory, NoMemory};
use rv_sim::Decoded;
use rv_table::memory_map::STACK_SIZE_LIMIT;
use std::alloc::{AllocError, Global};
use std::marker::Model;

/// The limits of a run.
#[derive(Clone, Copy)]
pub struct Limits {
    /// The bytes of the stack, a multiple of 16.
    pub stack: u64,
    /// How many instructions may be executed.
    pub steps: u64,
}

/// An image, its script and its limits, ready to run once.
pub struct Session {
    loaded: Loaded,
    machine: Machine,
    steps: u64,
    answer: Option<Outcome>,
}

/// In one place, so that whoever lets one go has one call to prove.
impl Drop for Session {
    fn drop(self) {
        let Self {
            loaded: _,
            machine: _,
            steps: _,
            answer: _,
        } = self;
    }
}

impl Model for Session {
    ghost use Rattle.std.specs.Prelude.{◌≡◌, None};
    ghost use Rattle.cmm_run.specs.Sessions.{SessionState};
    ghost use Rattle.cmm_run.specs.inside.Loading.{IsOfRun, IsReady};

    ghost Value = { SessionState };

    ghost view = { λ s. record { launch = s.loaded; steps = s.steps; answer = s.answer; program = s.machine.program } };

    // what has not run stands where a run begins
    ghost invariant = { λ s. IsOfRun s.loaded s.machine.program × (s.answer ≡ None → IsReady s.loaded s.machine) };
}

impl Session {
    /// A session that has not run. It takes all the memory of its run.
    pub fn load(
        alloc: Global,
        image: Image,
        script: Script,
        limits: Limits,
    ) -> Result<Session, NoMemory>
        requires few { HasFewValues script }
        requires stack { limits.stack ≤ STACK_SIZE_LIMIT }
        requires aligned { limits.stack % 16 ≡ 0 }
        ensures launch { IfOk result (λ s. s.launch ≡ record { image = image; script = script; stack_size = limits.stack }) }
        ensures steps { IfOk result (λ s. s.steps ≡ limits.steps) }
        ensures fresh { IfOk result (λ s. s.answer ≡ None) }
    {
        let memory = memory_for(alloc, &image, limits.stack)?;
        let table = Decoded::new(alloc, &memory)?;
        let waiting = Waiting::new(alloc)?;
        let regs = first_registers(image.parts().start, &memory);
        Ok(Session {
            loaded: Loaded::new(image, script, limits.stack, table),
            machine: Machine {
                program: Stopped::new(regs, memory),
                waiting,
                input_ended: false,
            },
            steps: limits.steps,
            answer: None,
        })
    }

    /// Runs the image. What it writes, takes and answers is the definition's. A second call gives the answer of the first one, and does nothing.
    pub fn run<I: Source, O: Sink, E: Sink>(
        &mut self,
        input: &mut I,
        out: &mut O,
        log: &mut E,
    ) -> Outcome
        ensures first { self.old.answer ≡ None → Runs self.old.launch self.old.steps
            (outside_of I.left I.faults O.taken O.faults E.taken E.faults input.old out.old log.old)
            (outside_of I.left I.faults O.taken O.faults E.taken E.faults input.new out.new log.new) result (machine_of self.new) }
        ensures again { (outcome : OutcomeOf) → self.old.answer ≡ Some outcome →
            (result ≡ outcome) × (self.new ≡ self.old) × (input.new ≡ input.old) × (out.new ≡ out.old) × (log.new ≡ log.old) }
        ensures answer { self.new.answer ≡ Some result }
        ensures launch { self.new.launch ≡ self.old.launch }
        ensures steps { self.new.steps ≡ self.old.steps }
    {
        if let Some(outcome) = self.answer {
            return outcome;
        }
        let outcome = run(&self.loaded, self.steps, &mut self.machine, input, out, log);
        self.answer = Some(outcome);
        outcome
    }

    /// The bytes of a snapshot of a run that the client stopped: the image's header, and the registers and the memory of its state.
    pub fn snapshot(&self, alloc: Global) -> Result<Vec<u8>, AllocError>
        requires { self.now.answer ≡ Some StoppedBy }
        ensures { IfOk result (λ bytes. IsSnapshotOf self.now.launch.image self.now.launch.stack_size (machine_of self.now) bytes.items) }
    {
        let thread = self.machine.program.running();
        write_snapshot(alloc, self.loaded.image(), &thread.regs, &thread.memory)
    }

    /// The image that was loaded, given back.
    pub fn into_image(self) -> Image
        ensures { result ≡ self.launch.image }
    {
        let Session {
            loaded,
            machine: _,
            steps: _,
            answer: _,
        } = self;
        loaded.into_image()
    }
}

/// The memory where a run begins.
fn memory_for(alloc: Global, image: &Image, stack: u64) -> Result<Memory, NoMemory>
    requires { stack ≤ STACK_SIZE_LIMIT }
    ensures { IfOk result (λ m. m ≡ started image.now.code image.now.initial stack) }
{
    let parts = image.parts();
    Memory::new(
        alloc,
        parts.code.as_slice(),
        parts.initial.as_slice(),
        stack,
    )
}
