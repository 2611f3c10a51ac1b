//! What the allocation guarantees. Each law is the contract of a function that does nothing.

ghost use Rattle.cmm_allocate.specs.Laws.{EntriesAreShort, FlowsCanBePlaced, PlacesAreCompiled, PlacesAreShowable, LocatedRunsFollowPrograms, RowsArePlaced, RowsHaveFrames, RunsBeginCheaply};

/// Frames can be laid for the procedures of a program in range and their hoisted flows.
pub fn flows_can_be_placed()
    ensures { FlowsCanBePlaced }
{
    cmm_hoisted::laws::hoisted_flows_are_graphs();
}

/// What is written where a procedure is entered is bounded by the tokens of its Entry.
pub fn entries_are_short()
    ensures { EntriesAreShort }
{}

/// The rows that `placement` makes have the frames that were laid, and are valid where the code of each procedure has an address of code, behind
/// that of the one before.
#[tactic(auto, using(crate::proofs::Placed::rows_have_frames, crate::proofs::Placed::rows_are_placed))]
pub fn rows_are_placed()
    ensures frames { RowsHaveFrames }
    ensures placed { RowsArePlaced }
{}

/// The graphs and the places of a program in range meet all that the laws of located runs ask of a compiled program, where the rows of
/// the placement have the frames that were laid.
pub fn places_are_compiled()
    ensures compiled { PlacesAreCompiled }
    ensures showable { PlacesAreShowable }
{
    cmm_live::laws::sets_are_closed();
    cmm_hoisted::laws::hoisted_flows_are_graphs();
    cmm_hoisted::laws::hoisted_flows_wait_once();
    cmm_hoisted::laws::hoisted_flows_keep_liveness();
}

/// So located runs do what the C-- machine does on the program, and nothing else: on every input they follow its run. A step of the machine
/// costs at most twice the tokens of the longest procedure over locations.
pub fn located_runs_follow_programs()
    ensures follows { LocatedRunsFollowPrograms }
    ensures begins { RunsBeginCheaply }
{
    cmm_located::laws::located_runs_follow_graphs();
    cmm_hoisted::laws::flows_hoist();
    cmm_hoisted::laws::hoisted_flows_follow_programs();
    places_are_compiled();
}
