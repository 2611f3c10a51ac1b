//! Laws of controls. Each is the contract of a function that does nothing.

ghost use Rattle.cmm_rewriting.specs.Laws.{MachineIsItself};

/// The C-- machine, rewritten as itself, is simulated by itself: in the same states, step by step.
#[tactic(auto, using(crate::proofs::Simulating::machine_is_itself))]
pub fn machine_simulates_itself()
    ensures { MachineIsItself }
{}
