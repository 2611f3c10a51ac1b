//! Laws of the paths of a graph, and of runs over graphs. Each is the contract of a function that does nothing.

ghost use Rattle.cmm_graph.specs.Laws.{NothingElseIsLive, OrderIsByReads, ReadIsLive, RunsStandAtSteps, UnwrittenKeepsValue, UnwrittenStaysLive, ValueIsByReads};

/// A local is live before a node exactly where the node reads it, or does not write it and leads to a node before which
/// it is live.
pub fn liveness_is_closed()
    ensures read { ReadIsLive }
    ensures unwritten { UnwrittenStaysLive }
    ensures nothing_else { NothingElseIsLive }
{}

/// No activation of a run over graphs in range stands at an Entry or a CopyIn, so what these do has to be said of landings
/// alone.
pub fn runs_stand_at_steps()
    ensures { RunsStandAtSteps }
{}

/// What a right side gives and what a node asks for depend on the locals that are read alone, however a machine keeps
/// them.
pub fn nodes_ask_by_reads()
    ensures values { ValueIsByReads }
    ensures orders { OrderIsByReads }
{}

/// A step at a node that leads on in its activation changes only the locals that the node writes.
pub fn nodes_change_what_they_write()
    ensures { UnwrittenKeepsValue }
{}
