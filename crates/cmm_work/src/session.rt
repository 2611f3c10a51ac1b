//! Sessions that run an image with a client's script.

ghost use Rattle.std.specs.Prelude.{◌≡◌, None, IfOk, OnErr};
ghost use Rattle.cmm_image_machine.specs.Machine.{IsStackSize, launch_of};
ghost use Rattle.cmm_run.specs.Outside.{outside_of};
ghost use Rattle.cmm_script.specs.Limits.{HasFewValues};
ghost use Rattle.cmm_work.specs.Ran.{HasRunSo};

use cmm_command::RunLimits;
use cmm_image::Image;
use cmm_outside::{Sink, Source};
use cmm_run::{Limits, Outcome, Session};
use cmm_script::Script;
use rv_memory::NoMemory;
use std::alloc::Global;

/// What a run needs: an image, and the script of its client.
#[derive(Drop)]
pub struct Prepared {
    pub image: Image,
    pub script: Script,
}

/// A session of an image that has not run. It takes all the memory of its run.
pub fn load(alloc: Global, prepared: Prepared, limits: RunLimits) -> Result<Session, NoMemory>
    requires few { HasFewValues prepared.script }
    requires stack { IsStackSize limits.stack }
    ensures launch { IfOk result (λ s. s.launch ≡ launch_of prepared.image prepared.script limits.stack) }
    ensures steps { IfOk result (λ s. s.steps ≡ limits.steps) }
    ensures fresh { IfOk result (λ s. s.answer ≡ None) }
{
    let Prepared { image, script } = prepared;
    let limits = Limits {
        stack: limits.stack,
        steps: limits.steps,
    };
    Session::load(alloc, image, script, limits)
}

/// What an image that ran came to, with the session that ran it.
pub fn run_image<I: Source, O: Sink, E: Sink>(
    alloc: Global,
    prepared: Prepared,
    limits: RunLimits,
    input: &mut I,
    out: &mut O,
    log: &mut E,
) -> Result<(Outcome, Session), NoMemory>
    requires few { HasFewValues prepared.script }
    requires stack { IsStackSize limits.stack }
    ensures runs { IfOk result (λ ran. HasRunSo (launch_of prepared.image prepared.script limits.stack) limits.steps
        (outside_of I.left I.faults O.taken O.faults E.taken E.faults input.old out.old log.old)
        (outside_of I.left I.faults O.taken O.faults E.taken E.faults input.new out.new log.new) ran.0 ran.1) }
    ensures same { OnErr result ((input.new ≡ input.old) × (out.new ≡ out.old) × (log.new ≡ log.old)) }
{
    let mut session = load(alloc, prepared, limits)?;
    let outcome = session.run(input, out, log);
    Ok((outcome, session))
}
