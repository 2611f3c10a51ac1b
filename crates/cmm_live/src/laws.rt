//! Laws of the sets. Each is the contract of a function that does nothing.

ghost use Rattle.cmm_live.specs.Laws.{SetsAreClosed, SetsDecideConflicts};

/// The sets are closed along the paths of the graph, which is all that a layer that gives locals places requires of a liveness.
pub fn sets_are_closed()
    ensures { SetsAreClosed }
{}

/// Whether two locals of the graph conflict is decided by the sets.
pub fn sets_decide_conflicts()
    ensures { SetsDecideConflicts }
{}
