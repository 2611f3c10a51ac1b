//! What comes of a command.
use crate::cursor::Cursor;
use cmm_walk::{Activation, Torn, Var};

/// What comes of a command that is not refused.
#[derive(Clone, Copy)]
pub(crate) enum Reply {
    /// The walk is asked for.
    Walk,
    /// The cursor goes to this activation.
    Stands(Activation),
    /// The activation at the cursor has this descriptor.
    Descriptor(u64),
    /// The variable of this number at the cursor.
    Variable(u32, Var),
    /// A change was made.
    Changed,
    /// The program goes on.
    Resumed,
    /// The run is stopped.
    Stopped,
}

/// Where the client stands after a command.
#[derive(Clone, Copy)]
pub(crate) enum After {
    /// The next command runs, with the cursor here.
    Goes(Cursor),
    /// The program goes on.
    Resumes,
    /// The run is stopped.
    Stops,
    /// The chain of frames breaks here.
    Tears(Torn),
}
