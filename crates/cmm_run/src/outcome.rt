//! What a run comes to.
use cmm_walk::Torn;
use rv_table::Trap;

/// What a run comes to.
#[derive(Clone, Copy, PartialEq, Eq)]
pub enum Outcome {
    /// The program has returned this value.
    Done(u64),
    /// The client stopped the program at a yield.
    Stopped,
    /// The stack would pass its limit.
    StackLimit,
    /// All instructions that the limit allows were executed, and the run had not ended.
    StepLimit,
    /// An instruction trapped.
    Trap(Trap),
    /// A call on the input failed.
    InputFault,
    /// A call on the output or the log failed.
    OutputFault,
    /// The chain of frames breaks where the client looked for an activation.
    Torn(Torn),
}
