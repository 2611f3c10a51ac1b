//! The stack of every state: frames that fit and adjoin, and parts of frames that lie apart.
ghost use Rattle.cmm_machine_laws.specs.Stacks.{EachStateHasStack, OneRoomEach, OlderAreStack, FramesAreAligned, FramesAdjoin, FramesReachTop, PartsLieInFrame, PartsLieApart, PartsLieInStack, NoneBelow, OwnAlone};

/// In every state the frames fit the stack, and the rooms of stackdata stand in step with them, also without some of the
/// youngest. What is said here of stacks holds of every machine that has one.
#[tactic(auto, using(crate::proofs::Addresses::each_stack, crate::proofs::Addresses::one_room_each, crate::proofs::Addresses::older_are_stack))]
pub fn every_state_has_its_stack()
    ensures stack { EachStateHasStack }
    ensures rooms { OneRoomEach }
    ensures older { OlderAreStack }
{}

/// On a valid placement each frame lies in the stack at a multiple of 16, and ends where the next older one begins.
#[tactic(auto, using(crate::proofs::Addresses::frames_aligned, crate::proofs::Addresses::frames_adjoin, crate::proofs::Addresses::frames_reach_top))]
pub fn frames_adjoin()
    ensures aligned { FramesAreAligned }
    ensures adjoin { FramesAdjoin }
    ensures top { FramesReachTop }
{}

/// The pairs of continuations and the stackdata of an activation lie in its own frame, so those of different
/// activations lie apart, and none overlaps data below the stack.
#[tactic(auto, using(crate::proofs::Addresses::parts_in_frame, crate::proofs::Addresses::parts_apart, crate::proofs::Addresses::parts_in_stack))]
pub fn parts_of_frames_lie_apart()
    ensures own { PartsLieInFrame }
    ensures apart { PartsLieApart }
    ensures stack { PartsLieInStack }
{}

/// Below the frames there is no stackdata, and in the youngest frame only its own.
#[tactic(auto, using(crate::proofs::Addresses::none_below, crate::proofs::Addresses::own_alone))]
pub fn stackdata_stands_nowhere_else()
    ensures below { NoneBelow }
    ensures own { OwnAlone }
{}
