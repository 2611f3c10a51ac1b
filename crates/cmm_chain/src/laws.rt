//! Laws of chains. Each is the contract of a function that does nothing.

ghost use Rattle.cmm_chain.specs.Laws.{CallSuspends, ChainOutlives, EnteredIsFramed, FramesReachTop, GoesOnFramed, GoesOnWithValues, LeftIsChain, LiveAlone, OthersStay, PutIsHeld, PutKeepsFrame, SetIsChain, UnwoundIsChain, WalkListsChain, WriteKeepsValues};

/// A chain stays whatever happens below it, it speaks of live locals alone, and its frames reach up to the top.
#[tactic(auto, using(crate::proofs::Lasting::chain_outlives, crate::proofs::Lasting::live_alone, crate::proofs::Lasting::frames_reach_top))]
pub fn chains_last()
    ensures outlives { ChainOutlives }
    ensures alive { LiveAlone }
    ensures top { FramesReachTop }
{}

/// A place holds what was put there and the other places what they held, the frame of the youngest activation stays below
/// the chain, and so do the values of its live locals.
#[tactic(auto, using(crate::proofs::Holding::put_is_held, crate::proofs::Holding::others_stay, crate::proofs::Holding::write_keeps_values))]
pub fn places_hold()
    ensures held { PutIsHeld }
    ensures others { OthersStay }
    ensures frame { PutKeepsFrame }
    ensures values { WriteKeepsValues }
{}

/// A frame comes where a procedure is entered, and its activation is the youngest of the chain once it calls.
#[tactic(auto, using(crate::proofs::Leaving::call_suspends))]
pub fn frames_come()
    ensures entered { EnteredIsFramed }
    ensures call { CallSuspends }
{}

/// Frames go: by a return or a tail call, which restore registers, and by a cut, which restores none.
#[tactic(auto, using(crate::proofs::Leaving::left_is_chain, crate::proofs::Leaving::goes_on_framed, crate::proofs::Leaving::goes_on_with_values))]
pub fn frames_go()
    ensures left { LeftIsChain }
    ensures framed { GoesOnFramed }
    ensures values { GoesOnWithValues }
{}

/// The walk lists just the activations of a chain and finds their live values, and an unwinding goes to one of them.
#[tactic(auto, using(crate::proofs::Walking::walk_lists_chain, crate::proofs::Walking::unwound_is_chain))]
pub fn walks_list_chains()
    ensures lists { WalkListsChain }
    ensures unwound { UnwoundIsChain }
{}

/// The client changes a local of any activation where the walk finds it, also where its register lies saved in a younger
/// frame.
#[tactic(auto, using(crate::proofs::Setting::set_is_chain))]
pub fn clients_set()
    ensures { SetIsChain }
{}
