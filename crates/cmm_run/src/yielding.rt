//! A yield.
ghost use Rattle.std.specs.Prelude.{◌≡◌, length};
ghost use Rattle.cmm_client.specs.Stops.{map_of, region_of, state_of};
ghost use Rattle.cmm_client.specs.Yields.{at_yield};
ghost use Rattle.cmm_run.specs.inside.Yields.{AnswersWith, ending_of};

use crate::loaded::Loaded;
use crate::machine::Machine;
use crate::outcome::Outcome;
use cmm_client::{Left, answer_yield};
use cmm_outside::{Failed, Sink};

/// Writes the line of a yield and the lines of the client's answer, and says what the run comes to if that ends it.
pub fn yields<E: Sink>(loaded: &Loaded, machine: &mut Machine, log: &mut E) -> Option<Outcome>
    requires { (map_of machine.old.program).data_length ≡ length loaded.now.image.initial }
    ensures answers { AnswersWith (at_yield loaded.now.image (region_of machine.old.program) loaded.now.script (state_of machine.old.program))
        (state_of machine.new.program) E.taken E.faults log.old log.new result }
    ensures map { map_of machine.new.program ≡ map_of machine.old.program }
    ensures region { region_of machine.new.program ≡ region_of machine.old.program }
    ensures waiting { machine.new.waiting ≡ machine.old.waiting }
    ensures input { machine.new.input_ended ≡ machine.old.input_ended }
{
    match answer_yield(loaded.image(), loaded.script(), &mut machine.program, log) {
        Ok(left) => ending(left),
        Err(Failed) => Some(Outcome::OutputFault),
    }
}

/// What a run comes to that the client leaves so, if it is over.
fn ending(left: Left) -> Option<Outcome>
    ensures { result ≡ ending_of left }
{
    match left {
        Left::Running => None,
        Left::Stopped => Some(Outcome::Stopped),
        Left::Torn(torn) => Some(Outcome::Torn(torn)),
    }
}
