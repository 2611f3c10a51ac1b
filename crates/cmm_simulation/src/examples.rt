//! What the theory proves of small machines: laws about definitions, each the contract of a function that does nothing.
ghost use Rattle.cmm_simulation.specs.Examples.{EndsOnce, FetchingIsPassedOver, PhasesArePassedOver, RanksAddUp, ReaderAgreesWithTicks, ReaderFollowsTicks, TestedTicksFollow, TicksAgree, TicksFollow, TicksSimulate, TickingSimulates, UncheckedSimulates};

/// The unchecked reader does each step of the checked one in lock-step, a step is done in two ticks, and so both together.
#[tactic(auto, using(crate::proofs::SmallMachines::unchecked_simulates, crate::proofs::SmallMachines::ticking_simulates, crate::proofs::SmallMachines::ticks_simulate))]
pub fn steps_are_done()
    ensures lock_step { UncheckedSimulates }
    ensures ticks { TickingSimulates }
    ensures together { TicksSimulate }
{}

/// Over whole runs, the unchecked reader done in ticks follows the checked one and agrees with it.
#[tactic(auto, using(crate::proofs::SmallMachines::ticks_follow, crate::proofs::SmallMachines::ticks_agree))]
pub fn runs_are_done()
    ensures follows { TicksFollow }
    ensures agrees { TicksAgree }
{}

/// A machine that is done in ticks is simulated lazily by one that passes some of them over. Where the first of two such machines passes nothing more over behind a step that the second passes over, the
/// numbers of steps that they pass over add up.
#[tactic(auto, using(crate::proofs::LazyMachines::fetching_is_passed_over, crate::proofs::LazyMachines::phases_are_passed_over, crate::proofs::LazyMachines::ranks_add_up))]
pub fn steps_are_passed_over()
    ensures fetching { FetchingIsPassedOver }
    ensures phases { PhasesArePassedOver }
    ensures added { RanksAddUp }
{}

/// Over whole runs, the reader follows lazily what is done in ticks, and agrees with it.
#[tactic(auto, using(crate::proofs::LazyMachines::reader_follows_ticks, crate::proofs::LazyMachines::reader_agrees))]
pub fn ticks_are_done_at_once()
    ensures follows { ReaderFollowsTicks }
    ensures agrees { ReaderAgreesWithTicks }
{}

/// No run ends in two ways.
#[tactic(auto, using(crate::proofs::SmallMachines::ends_once))]
pub fn runs_end_once()
    ensures { EndsOnce }
{}

/// What follows a machine whose events all pass a test stands at none that fails it: it follows that machine also where such an event is wrong.
pub fn events_pass()
    ensures { TestedTicksFollow }
{}
