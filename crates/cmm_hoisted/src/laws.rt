//! What folded flows with their constants hoisted guarantee. Each law is the contract of a function that does nothing.

ghost use Rattle.cmm_hoisted.specs.Laws.{FlowsHoist, FlowsWithinAreFewer, FlowsWithinAreHoisted, FoldedFlowsCanBeHoisted, HoistedFlowsAreBounded, HoistedFlowsAreCovered, HoistedFlowsAreGraphs, HoistedFlowsAreShort, HoistedFlowsFollow, HoistedFlowsHaveEntries, HoistedFlowsHaveRoom, HoistedFlowsHaveSites, HoistedFlowsPassFew, HoistedFlowsWaitAtEach, HoistedFlowsWaitOnce, HoistedFlowsYieldThere, HoistedSetsAreOfProcedure};

use cmm_folded::laws::{
    folded_flows_are_covered, folded_flows_are_graphs, folded_flows_are_short,
    folded_flows_follow_programs, folded_flows_keep_sites, folded_flows_pass_few,
    folded_flows_wait_once,
};
use cmm_graph::laws::nodes_ask_by_reads;
use cmm_program::laws::liveness_is_by_paths;

/// The folded flows of a program in range can be hoisted: each begins at its Entry, and no node has more tokens than the longest procedure.
pub fn folded_flows_can_be_hoisted()
    ensures { FoldedFlowsCanBeHoisted }
{
    folded_flows_are_short();
    folded_flows_follow_programs();
}

/// What `hoist_all` answers for the folded flows of a program are hoisted flows of its procedures, of which no node has more tokens than the longest procedure.
pub fn flows_hoist()
    ensures hoist { FlowsHoist }
    ensures each { FlowsWithinAreHoisted }
    ensures fewer { FlowsWithinAreFewer }
{}

/// A hoisted flow of a procedure in range is a graph of that procedure: in range, with the exits of its sites, and naming only what the procedure
/// and its program have. Its locals, of 8 bytes each, and the pairs of its continuations, of 16, have at most 8 bytes for each token of its Entry, which has no more than the procedure.
pub fn hoisted_flows_are_graphs()
    ensures graphs { HoistedFlowsAreGraphs }
    ensures bounded { HoistedFlowsAreBounded }
    ensures room { HoistedFlowsHaveRoom }
{
    folded_flows_are_graphs();
    folded_flows_are_short();
}

/// In a hoisted flow of a procedure in range one node waits at each site and no two do, and each node that waits has the exits of its site.
pub fn hoisted_flows_wait_once()
    ensures once { HoistedFlowsWaitOnce }
    ensures sites { HoistedFlowsHaveSites }
    ensures each { HoistedFlowsWaitAtEach }
{
    folded_flows_wait_once();
}

/// Each node of a hoisted flow of a procedure in range has tokens enough for what it brings, moves and tests. All its nodes have at most twice the tokens of
/// the procedure and two more. It begins at an Entry.
pub fn hoisted_flows_are_covered()
    ensures covered { HoistedFlowsAreCovered }
    ensures short { HoistedFlowsAreShort }
    ensures entries { HoistedFlowsHaveEntries }
{
    folded_flows_are_covered();
    folded_flows_are_short();
}

/// The nodes of a hoisted flow of a procedure in range pass few values, and those that yield do so with as many as their sites say.
pub fn hoisted_flows_pass_few()
    ensures few { HoistedFlowsPassFew }
    ensures yields { HoistedFlowsYieldThere }
{
    folded_flows_pass_few();
}

/// The variables of a procedure that are live at a site, and on its cut exits, are those that the live sets of its hoisted flow have there.
pub fn hoisted_flows_keep_liveness()
    ensures { HoistedSetsAreOfProcedure }
{
    folded_flows_keep_sites();
    folded_flows_wait_once();
    folded_flows_are_graphs();
    liveness_is_by_paths();
}

/// The hoisted flows of a program in range do what the program does, at the costs of a layer below: a step of the C-- machine is a path of at least one node, which costs
/// at most twice the tokens of the longest procedure.
pub fn hoisted_flows_follow_programs()
    ensures { HoistedFlowsFollow }
{
    nodes_ask_by_reads();
    folded_flows_follow_programs();
    folded_flows_are_graphs();
}
