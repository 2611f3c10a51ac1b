//! What the theory gives of two small controls. Each law is the contract of a function that does nothing.

ghost use Rattle.cmm_rewriting.specs.Examples.{EntriesFollow, TicksArePassedOver};

/// The C-- machine passes over the quiet steps of a machine that makes one before each of its steps.
#[tactic(auto, using(crate::proofs::SmallControls::ticks_are_passed_over))]
pub fn quiet_steps_are_passed_over()
    ensures { TicksArePassedOver }
{}

/// A machine that makes a quiet step where it enters a procedure follows the C-- machine, at three steps for one at most.
#[tactic(auto, using(crate::proofs::SmallControls::entries_follow))]
pub fn quiet_entries_follow()
    ensures { EntriesFollow }
{}
