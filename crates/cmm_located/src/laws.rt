//! Laws of the located machine. Each is the contract of a function that does nothing.

ghost use Rattle.cmm_located.specs.Clients.{ClientsAreFollowed};
ghost use Rattle.cmm_located.specs.Cutting.{CutsAreFollowed};
ghost use Rattle.cmm_located.specs.Entering.{CallsAreFollowed, ProceduresAreEntered, RunsBeginAlike};
ghost use Rattle.cmm_located.specs.Laws.{RelatedAreLevel};
ghost use Rattle.cmm_located.specs.Resting.{EndsAreFollowed};
ghost use Rattle.cmm_located.specs.Returning.{ReturnsAreFollowed};
ghost use Rattle.cmm_located.specs.RunningSteps.{StepsAreFollowed};
ghost use Rattle.cmm_located.specs.SameOrders.{FrameIsThere, SameOrders};
ghost use Rattle.cmm_located.specs.ShownWalks.{WalkIsShown};
ghost use Rattle.cmm_located.specs.Simulating.{LocatedRunsFollowGraphs, LocatedRunsSimulateGraphs};
ghost use Rattle.cmm_located.specs.Steps.{NodesAreFollowed};
ghost use Rattle.cmm_located.specs.Yielding.{YieldsAreFollowed};

/// What the client is shown over locations is the walk of the C-- machine.
#[tactic(auto, using(crate::proofs::ShowingWalks::walk_is_shown))]
pub fn walks_are_shown()
    ensures { WalkIsShown }
{}

/// States that stand for one another show the same, stand at the same event and are wrong together.
#[tactic(auto, using(crate::proofs::Levels::related_are_level))]
pub fn states_are_level()
    ensures { RelatedAreLevel }
{}

/// The youngest frame is where the machine over graphs has it.
pub fn frames_are_there()
    ensures { FrameIsThere }
{}

/// A node that is no assignment asks for the same order over locations as over a graph.
pub fn orders_are_same()
    ensures { SameOrders }
{
    cmm_graph::laws::nodes_ask_by_reads();
}

/// A step of the machine over graphs at a node that leads on is one step over locations, at the same cost.
pub fn nodes_are_followed()
    ensures { NodesAreFollowed }
{
    cmm_graph::laws::nodes_ask_by_reads();
}

/// At its Entry a procedure is entered over locations as over graphs, or the run ends at the stack limit.
pub fn procedures_are_entered()
    ensures { ProceduresAreEntered }
{}

/// A call and a tail call are two steps over locations: control leaves with the arguments, and the procedure is entered.
pub fn calls_are_followed()
    ensures { CallsAreFollowed }
{
    cmm_graph::laws::nodes_ask_by_reads();
}

/// A return is at most two steps over locations: the frame goes, and the CopyIn of the exit takes the values, or the run is over.
pub fn returns_are_followed()
    ensures { ReturnsAreFollowed }
{
    cmm_graph::laws::nodes_ask_by_reads();
}

/// A yield is one step over locations, and the stack is then the chain of all activations.
pub fn yields_are_followed()
    ensures { YieldsAreFollowed }
{
    cmm_graph::laws::nodes_ask_by_reads();
}

/// The first state over graphs is that to which a located run comes by its first step.
pub fn runs_begin_alike()
    ensures { RunsBeginAlike }
{}

/// A cut is two steps over locations: control moves to the frame of the activation, and the CopyIn of the continuation takes the values.
pub fn cuts_are_followed()
    ensures { CutsAreFollowed }
{
    cmm_graph::laws::nodes_ask_by_reads();
}

/// Every step of an activation is done over locations, at the cost of its node and of the node where it lands.
pub fn steps_are_followed()
    ensures { StepsAreFollowed }
{
    cmm_graph::laws::nodes_ask_by_reads();
}

/// A run that is over stays over in both machines, and shows nothing more.
pub fn ends_are_followed()
    ensures { EndsAreFollowed }
{}

/// The client's answer is at most two steps over locations: each command does the same, and where the run goes on, the CopyIn of the exit
/// takes the values.
pub fn clients_are_followed()
    ensures { ClientsAreFollowed }
{}

/// The located machine simulates the machine over graphs.
pub fn located_runs_simulate_graphs()
    ensures { LocatedRunsSimulateGraphs }
{
    cmm_graph::laws::nodes_ask_by_reads();
}

/// A located run follows the run over graphs, from behind its first step on.
pub fn located_runs_follow_graphs()
    ensures { LocatedRunsFollowGraphs }
{
    cmm_graph::laws::nodes_ask_by_reads();
}
