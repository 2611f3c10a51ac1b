//! What holds of the finished code of a program, as contracts.
ghost use Rattle.cmm_emit_laws.specs.Laws.{CodeBegins, ImagesFollowLocatedRuns, ImagesSimulateLocatedRuns};
ghost use Rattle.cmm_emit_laws.specs.Laying.{FramesCanBeMade, ProceduresAreLaid};
ghost use Rattle.cmm_emit_laws.specs.Naming.{GraphsAreNamed};
ghost use Rattle.cmm_emit_laws.specs.Placing.{FinishedCodeStands};
ghost use Rattle.cmm_emit_laws.specs.Steps.{EndsAreRepresented, StepsAreDoneByCode};

/// The code of one node does its step; and where a return ends the run, the states behind the call of `main` and at the ECALL there represent what is left.
pub fn steps_are_done_by_code()
    ensures steps { StepsAreDoneByCode }
    ensures ends { EndsAreRepresented }
{
    cmm_select::laws::switches_lead();
}

/// Where code is that of a program, the image simulates the located machine.
pub fn images_simulate_located_runs()
    ensures { ImagesSimulateLocatedRuns }
{
    cmm_select::laws::switches_lead();
}

/// A run of the image comes, by the code with which it begins, to what represents the first located state, and follows the located run from
/// there on.
pub fn images_follow_located_runs()
    ensures begins { CodeBegins }
    ensures follows { ImagesFollowLocatedRuns }
{
    cmm_select::laws::switches_lead();
}

/// A frame that is laid for the places of locals can be made by code, and its words and places are those of the activations that have it.
pub fn frames_are_laid()
    ensures made { FramesCanBeMade }
    ensures procedures { ProceduresAreLaid }
{}

/// Where an image has the bytes that are finished for parts, these parts stand in its code.
pub fn finished_code_stands()
    ensures { FinishedCodeStands }
{}

/// The graph of a procedure is in range, and names global registers that are there.
pub fn graphs_are_named()
    ensures { GraphsAreNamed }
{}
