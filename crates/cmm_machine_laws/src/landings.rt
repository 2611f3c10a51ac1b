//! Where control arrives, and what the store is then: calls, jumps, returns and cuts, for machines with any control.
ghost use Rattle.cmm_machine_laws.specs.Landings.{EnteringLands, ResumingLands, ReturningLands, TargetsTake};
ghost use Rattle.cmm_machine_laws.specs.Transfers.{CallEnters, CutCuts, JumpEnters, ReturnLeaves, SearchFinds, SearchFindsFirst};

/// Each landing is one equation on the store: an activation begins where the stack has room for it, or the youngest one goes
/// on, with the values assigned to variables and registers and nothing else changed.
#[tactic(auto, using(crate::proofs::Arriving::laws))]
pub fn landings_are_equations()
    ensures enter { EnteringLands }
    ensures back { ReturningLands }
    ensures resume { ResumingLands }
    ensures take { TargetsTake }
{}

/// Calls and jumps enter a procedure, a return leaves to a site or ends the run, and a cut goes to a continuation; each
/// only where its widths and counts agree, and by an unchecked error otherwise.
#[tactic(auto, using(crate::proofs::Transfers::laws))]
pub fn control_is_transferred()
    ensures call { CallEnters }
    ensures jump { JumpEnters }
    ensures leave { ReturnLeaves }
    ensures cut { CutCuts }
{}

/// What a cut finds is listed by the activation that it goes to, and has the value that was looked for. It is the first: in that
/// activation's list, and as no younger activation lists one.
#[tactic(auto, using(crate::proofs::Transfers::search_finds, crate::proofs::Transfers::search_finds_first))]
pub fn cuts_are_listed()
    ensures listed { SearchFinds }
    ensures first { SearchFindsFirst }
{}
