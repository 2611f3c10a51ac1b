//! The laws that join the C-- machine and the machine over graphs. Each is the contract of a function that does nothing.

ghost use Rattle.cmm_flow.specs.Laws.{AnswersAreBounded, AnswersAreCovered, AnswersAreFlows, AnswersAreGraphs, AnswersAreShort, AnswersHaveSites, AnswersLand, AnswersPassFew, AnswersWaitAtEach, AnswersWaitOnce, AnswersYieldThere, FlowAgrees, FlowFollows, FlowFollowsAt, FlowSimulates, FlowSimulatesAt, RangeIsCounted};
ghost use Rattle.cmm_flow.specs.Liveness.{AnswersAreInRange, CodeKeepsLiveness, SetsAreOfProcedure, SitesHaveNodes, SitesKeepLiveness};

use cmm_machine_laws::values::{every_state_is_sound, expressions_fit};
use cmm_program::laws::liveness_is_by_paths;

/// The flows of a program's procedures do what the program does. A step of the C-- machine is a path over the graphs of at
/// least one node, which has together at most as many tokens as the longest procedure; on every input of bytes both show the
/// same and stand at the same events, and agree in counts of steps with that factor. Every value of a run fits its width, so no
/// node computes with what is no word.
#[tactic(auto, using(crate::proofs::Flowing::flow_simulates, crate::proofs::Flowing::flow_follows, crate::proofs::Flowing::flow_agrees))]
pub fn graphs_simulate_programs()
    ensures simulates { FlowSimulates }
    ensures follows { FlowFollows }
    ensures agrees { FlowAgrees }
{
    every_state_is_sound();
    expressions_fit();
}

/// They do so at dearer costs too, as a layer below has them for which control that leaves an activation is dearer: a step of the C-- machine is
/// then dearer by as much.
#[tactic(auto, using(crate::proofs::Flowing::flow_simulates_at, crate::proofs::Flowing::flow_follows_at))]
pub fn graphs_simulate_at_costs()
    ensures simulates { FlowSimulatesAt }
    ensures follows { FlowFollowsAt }
{
    every_state_is_sound();
    expressions_fit();
}

/// What the law requires of the statements of a program holds of every program in range.
#[tactic(auto, using(crate::proofs::Ranges::range_is_counted))]
pub fn programs_in_range_are_counted()
    ensures { RangeIsCounted }
{}

/// What `flow` answers for each procedure of a program in range are the flows of the program, of which the laws speak.
#[tactic(auto, using(crate::proofs::RangesCovering::answers_are_flows))]
pub fn answers_are_flows()
    ensures { AnswersAreFlows }
{}

/// Of what `flow` answers for a procedure in range, one node waits at each site and no two do, and each node that waits has the exits of its site.
#[tactic(auto, using(crate::proofs::WaitingOnce::answers_wait_once, crate::proofs::SitesOfNodes::answers_have_sites, crate::proofs::SitesOfNodes::answers_wait_at_each))]
pub fn answers_wait_once()
    ensures once { AnswersWaitOnce }
    ensures sites { AnswersHaveSites }
    ensures each { AnswersWaitAtEach }
{}

/// What `flow` answers begins at an Entry and lands at each continuation in a CopyIn, so that it is in range where its nodes are.
pub fn answers_land()
    ensures { AnswersLand }
{}

/// What `flow` answers for a procedure in range is a graph of that procedure: in range, with the exits of its sites, and naming only what the procedure
/// and its program have. Its locals, of 8 bytes each, and the pairs of its continuations, of 16, have at most 8 bytes for each token of the procedure.
#[tactic(auto, using(crate::proofs::Graphs::answers_are_graphs, crate::proofs::Graphs::answers_are_bounded))]
pub fn answers_are_graphs()
    ensures graphs { AnswersAreGraphs }
    ensures bounded { AnswersAreBounded }
{}

/// Each node of what `flow` answers for a procedure in range has tokens enough for what it brings, moves and tests, all of them from the procedure's
/// text: one for each value that it passes, for each range that it tests and for each constant beside another.
#[tactic(auto, using(crate::proofs::Graphs::answers_are_covered))]
pub fn answers_are_covered()
    ensures { AnswersAreCovered }
{}

/// All nodes of what `flow` answers for a procedure in range have at most twice the tokens of the procedure and two more.
#[tactic(auto, using(crate::proofs::Graphs::answers_are_short))]
pub fn answers_are_short()
    ensures { AnswersAreShort }
{}

/// The nodes of what `flow` answers for a procedure in range pass few values, and those that yield do so with as many as their sites say.
#[tactic(auto, using(crate::proofs::Graphs::answers_pass_few, crate::proofs::Graphs::answers_yield_there))]
pub fn answers_pass_few()
    ensures few { AnswersPassFew }
    ensures yields { AnswersYieldThere }
{}

/// What `flow` answers for a procedure in range is all that the laws of liveness ask of a graph, with `answers_wait_once`.
#[tactic(auto, using(crate::proofs::SitesOfNodes::answers_are_in_range))]
pub fn answers_keep_liveness()
    ensures { AnswersAreInRange }
{}

/// What is live in a procedure is live in its flow: some path from statements of the procedure reads a variable before it is written just where
/// the variable is live, by the graph's paths, before the node at which the code of the statements begins. Each call site has a node that waits
/// there, and behind it, by all its exits and by the cut exits alone, just those variables are live that are live at the site.
#[tactic(auto, using(crate::proofs::LivenessPositions::code_keeps_liveness, crate::proofs::LivenessAtSites::sites_have_nodes))]
pub fn flows_keep_liveness()
    ensures code { CodeKeepsLiveness }
    ensures nodes { SitesHaveNodes }
{}

/// Where no two nodes wait at one site, the variables of a procedure that are live at a site, and on its cut exits, are those that are live there by
/// the paths of the graph. So they are those that the graph's live sets have.
pub fn sites_keep_liveness()
    ensures sites { SitesKeepLiveness }
    ensures sets { SetsAreOfProcedure }
{
    liveness_is_by_paths()
}
