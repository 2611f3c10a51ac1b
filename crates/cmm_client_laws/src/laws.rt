//! Laws of the client's answer. Each is the contract of a function that does nothing.
ghost use Rattle.cmm_client_laws.specs.Alone.{ChainsAreStopped, StoppedAreChains};
ghost use Rattle.cmm_client_laws.specs.Laws.{AnswersAreDone, AnswersKeep, CallsAreSame, ChainsAreFound, CommandsAreAlike, EventsFit, FittingIsWalked, RowsAreTables, WalksAreSame};
ghost use Rattle.cmm_client_laws.specs.Lines.{LinesAreWritten};

/// The tables find just the activations of a stopped program, and their walk is that of the located machine.
pub fn stacks_are_shown()
    ensures chains { ChainsAreFound }
    ensures walks { WalksAreSame }
{}

/// A stopped program and the image are asked alike, question by question and command by command, in any region.
pub fn commands_are_alike()
    ensures { CommandsAreAlike }
{}

/// The chain of some activations is asked alike with no store round it: it is a stopped program on its own, and every stopped program has one.
pub fn chains_stand_alone()
    ensures stopped { ChainsAreStopped }
    ensures chains { StoppedAreChains }
{}

/// What the client is shown at a yield is the same over locations and in the image.
pub fn calls_are_same()
    ensures { CallsAreSame }
{}

/// The client's answer is one instruction of the image: all commands, with every refusal, come to what they come to over locations.
pub fn answers_are_done()
    ensures done { AnswersAreDone }
    ensures kept { AnswersKeep }
{}

/// Values of the walk fit their widths at every event of the C-- machine, and where they do, a stack that passes the test of a yield is the chain of the
/// activations.
pub fn values_fit()
    ensures events { EventsFit }
    ensures walked { FittingIsWalked }
{}

/// Rows that tell of the procedures, sites and exported labels of a program are tables by which its activations are found.
pub fn rows_are_tables()
    ensures { RowsAreTables }
{}

/// The line of a yield is written by the ECALL at which the image stands at the client's call.
pub fn lines_are_written()
    ensures { LinesAreWritten }
{}
