//! What runs do step by step: which states stay, what a step adds, and who takes the input.
ghost use Rattle.cmm_machine_laws.specs.Observed.{LineUnseen, MachineLasts};
ghost use Rattle.cmm_machine_laws.specs.Runs.{EndedStays, WrongStays, StepAdds, StepGrows, RunGrows, OnlyCallTakes, InputIsKept, RefusedOnlyLogs, CommandChanges, CommandSpares};

/// An ended state and a wrong one stay as they are.
#[tactic(auto, using(crate::proofs::Steps::ended_stays, crate::proofs::Steps::wrong_stays))]
pub fn over_is_over()
    ensures ended { EndedStays }
    ensures wrong { WrongStays }
{}

/// Output, log and input taken only grow: by one step, which adds at most one byte, the line of a yield or a client's
/// answer, and so over a whole run.
#[tactic(auto, using(crate::proofs::Growing::step_leads))]
pub fn what_was_seen_grows()
    ensures adds { StepAdds }
    ensures step { StepGrows }
    ensures run { RunGrows }
{}

/// Only a foreign call takes input, and none of it is lost.
#[tactic(auto, using(crate::proofs::Growing::step_takes, crate::proofs::Growing::input_kept))]
pub fn input_is_taken_by_calls()
    ensures taken { OnlyCallTakes }
    ensures kept { InputIsKept }
{}

/// A refused command of the client changes nothing but the log, and one that does not resume at most a variable of the
/// activation at the cursor or bytes of data.
#[tactic(auto, using(crate::proofs::Commands::command_changes))]
pub fn commands_change_little()
    ensures refused { RefusedOnlyLogs }
    ensures changes { CommandChanges }
    ensures spares { CommandSpares }
{}

/// What is seen of a run only grows, without the line of a yield until the client has answered, and a run that is over or
/// wrong stays so.
#[tactic(auto, using(crate::proofs::Lasting::machine_lasts, crate::proofs::Growing::line_unseen))]
pub fn what_is_seen_lasts()
    ensures last { MachineLasts }
    ensures line { LineUnseen }
{}
