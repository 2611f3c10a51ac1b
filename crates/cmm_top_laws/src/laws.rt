//! What holds of the calls of the program, as contracts.
ghost use Rattle.cmm_top_laws.specs.Laws.{BuiltBytesRunSo, BuiltFilesRunSo, ErrorsLast, ExecIsTheMachine, GenIsTheMachine, RunsAreExplained, SavedRunsWalkSo, SnapshotsWalkSo, WordsGiveStackSizes};

/// What a run of an image writes, takes and answers is what the C-- machine does, where the two agree.
pub fn runs_are_explained()
    ensures { RunsAreExplained }
{}

/// A machine that errs with a step after so many at most is wrong one step behind them, so where it is not, it stands where the call ended.
pub fn errors_last()
    ensures { ErrorsLast }
{}

/// What `exec` writes, takes and answers is what the C-- machine does on the program that the units mean, with the client's script.
pub fn exec_is_the_machine()
    ensures { ExecIsTheMachine }
{}

/// And so is what `run` does with the bytes that `build` has written, wherever it read them.
pub fn built_bytes_run_so()
    ensures { BuiltBytesRunSo }
{
    cmm_image::laws::bytes_mean_one_thing();
}

/// And so is what `run` does with a file that `build` has written, and that is not changed between.
pub fn built_files_run_so()
    ensures { BuiltFilesRunSo }
{
    built_bytes_run_so();
}

/// And so is what `gen` does with the unit of a number, within the usual limits and with a client that stops the run at the first yield.
pub fn gen_is_the_machine()
    ensures { GenIsTheMachine }
{}

/// What `walk` writes of the snapshot of a run is the walk of where its client stopped it.
pub fn snapshots_walk_so()
    ensures { SnapshotsWalkSo }
{
    cmm_snapshot::laws::bytes_mean_one_snapshot();
    cmm_snapshot::laws::snapshots_keep_states();
}

/// And that is the machine's walk, where the image was built of units: then the chain of frames does not break, unless the machine has gone wrong.
pub fn saved_runs_walk_so()
    ensures { SavedRunsWalkSo }
{
    cmm_image::laws::bytes_mean_one_thing();
    snapshots_walk_so();
}

/// No words ask for a stack of a size that a run may not have.
pub fn words_give_stack_sizes()
    ensures { WordsGiveStackSizes }
{
    cmm_command::laws::commands_are_in_range();
}
