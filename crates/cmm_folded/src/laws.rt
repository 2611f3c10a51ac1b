//! What folded graphs, and folded flows of procedures, guarantee. Each law is the contract of a function that does nothing.

ghost use Rattle.cmm_folded.specs.Laws.{FlowsFold, FoldedFlowsAreBounded, FoldedFlowsAreCovered, FoldedFlowsAreGraphs, FoldedFlowsAreShort, FoldedFlowsFollow, FoldedFlowsHaveEntries, FoldedFlowsHaveSites, FoldedFlowsHaveTokens, FoldedFlowsKeepSites, FoldedFlowsPassFew, FoldedFlowsWaitAtEach, FoldedFlowsWaitOnce, FoldedFlowsYieldThere, FoldedGraphsDoTheSame, FoldedGraphsKeepLiveness, FoldedSetsAreOfProcedure};

use cmm_flow::laws::{
    answers_are_covered, answers_are_flows, answers_are_graphs, answers_are_short,
    answers_keep_liveness, answers_pass_few, answers_wait_once, graphs_simulate_at_costs,
    sites_keep_liveness,
};

/// Graphs whose nodes stand for those of others are the same machine: each step, each event and each cost.
pub fn folded_graphs_do_the_same()
    ensures { FoldedGraphsDoTheSame }
{}

/// The same locals are live in a graph and where it is folded, at each node, at each site and on its cut exits.
pub fn folded_graphs_keep_liveness()
    ensures { FoldedGraphsKeepLiveness }
{}

/// What `fold_all` answers for what `flows` answers are the folded flows of the same procedures.
pub fn flows_fold()
    ensures { FlowsFold }
{}

/// A folded flow of a procedure in range is a graph of that procedure: in range, with the exits of its sites, and naming only what the procedure
/// and its program have. Its locals, of 8 bytes each, and the pairs of its continuations, of 16, have at most 8 bytes for each token of the procedure.
pub fn folded_flows_are_graphs()
    ensures graphs { FoldedFlowsAreGraphs }
    ensures bounded { FoldedFlowsAreBounded }
{
    answers_are_graphs();
}

/// In a folded flow of a procedure in range one node waits at each site and no two do, and each node that waits has the exits of its site.
pub fn folded_flows_wait_once()
    ensures once { FoldedFlowsWaitOnce }
    ensures sites { FoldedFlowsHaveSites }
    ensures each { FoldedFlowsWaitAtEach }
{
    answers_wait_once();
}

/// Each node of a folded flow of a procedure in range has tokens enough for what it brings, moves and tests: folding asks for no more of them.
pub fn folded_flows_are_covered()
    ensures { FoldedFlowsAreCovered }
{
    answers_are_covered();
}

/// All nodes of a folded flow of a procedure in range have at most twice the tokens of the procedure and two more. It begins at an Entry of as many tokens as
/// the procedure.
pub fn folded_flows_are_short()
    ensures short { FoldedFlowsAreShort }
    ensures entries { FoldedFlowsHaveEntries }
{
    answers_are_short();
}

/// The nodes of a folded flow of a procedure in range pass few values, and those that yield do so with as many as their sites say.
pub fn folded_flows_pass_few()
    ensures few { FoldedFlowsPassFew }
    ensures yields { FoldedFlowsYieldThere }
{
    answers_pass_few();
}

/// The variables of a procedure that are live at a site, and on its cut exits, are those that are live there by the paths of its folded flow.
pub fn folded_flows_keep_sites()
    ensures { FoldedFlowsKeepSites }
{
    answers_keep_liveness();
    answers_wait_once();
    sites_keep_liveness();
}

/// The variables of a procedure that are live at a site, and on its cut exits, are those that the live sets of its folded flow have there.
pub fn folded_flows_keep_liveness()
    ensures { FoldedSetsAreOfProcedure }
{
    answers_keep_liveness();
    answers_wait_once();
    sites_keep_liveness();
}

/// The folded flows of a program in range do what the program does, at the costs of a layer below: a step of the C-- machine is a path of at least one node, of
/// at most as many tokens as the longest procedure and what control that leaves an activation costs more. No node has more tokens than its procedure.
pub fn folded_flows_follow_programs()
    ensures tokens { FoldedFlowsHaveTokens }
    ensures follows { FoldedFlowsFollow }
{
    graphs_simulate_at_costs();
    answers_are_flows();
}
