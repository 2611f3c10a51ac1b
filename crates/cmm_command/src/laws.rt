//! What holds of the commands that words mean. The law is the contract of a function that does nothing.

ghost use Rattle.cmm_command.specs.Laws.{CommandsAreInRange};

/// What words ask for keeps the limits on names, on stacks and on the numbers of programs.
#[tactic(auto, using(crate::proofs::InRange::commands_are_in_range))]
pub fn commands_are_in_range()
    ensures { CommandsAreInRange }
{}
