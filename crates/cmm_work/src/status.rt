//! How a call ends, as the program's exit status.

ghost use Rattle.std.specs.Prelude.{◌≡◌};

use cmm_run::Outcome;

/// How a call ended.
#[derive(Clone, Copy)]
pub enum Status {
    /// The work was done: of a run, the program has returned.
    Done,
    /// The words are none that the program takes.
    Usage,
    /// The units break a rule.
    Refused,
    /// The file holds no image.
    BadImage,
    /// The client stopped the run, or no command resumed it.
    Stopped,
    /// The stack would have passed its limit.
    StackLimit,
    /// As many instructions were executed as the limit allows, and the run had not ended.
    StepLimit,
    /// An instruction trapped.
    Trap,
    /// A call on the files failed.
    FileFault,
    /// A call on the input failed.
    InputFault,
    /// A call on the output or the log failed.
    OutputFault,
    /// Memory ran out.
    Memory,
    /// The file holds no snapshot of a run of the image.
    BadSnapshot,
    /// The file of the client holds no script.
    BadScript,
    /// The chain of frames breaks.
    Torn,
    /// The file is no ELF file of an image.
    BadElf,
}

impl Status {
    ghost use Rattle.cmm_work.specs.Status.{number_of, status_of};

    /// The program's exit status.
    pub fn number(&self) -> u8
        ensures { result ≡ number_of self.now }
    {
        match self {
            Status::Done => 0,
            Status::Usage => 2,
            Status::Refused => 3,
            Status::BadImage => 4,
            Status::Stopped => 5,
            Status::StackLimit => 6,
            Status::StepLimit => 7,
            Status::Trap => 8,
            Status::FileFault => 9,
            Status::InputFault => 10,
            Status::OutputFault => 11,
            Status::Memory => 12,
            Status::BadSnapshot => 13,
            Status::BadScript => 14,
            Status::Torn => 15,
            Status::BadElf => 17,
        }
    }

    /// The status of a run with an outcome.
    pub fn of(outcome: &Outcome) -> Status
        ensures { result ≡ status_of outcome.now }
    {
        match outcome {
            Outcome::Done(_) => Status::Done,
            Outcome::Stopped => Status::Stopped,
            Outcome::StackLimit => Status::StackLimit,
            Outcome::StepLimit => Status::StepLimit,
            Outcome::Trap(_) => Status::Trap,
            Outcome::InputFault => Status::InputFault,
            Outcome::OutputFault => Status::OutputFault,
            Outcome::Torn(_) => Status::Torn,
        }
    }
}
