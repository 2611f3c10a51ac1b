//! A stopped program, by its threads.
ghost use Rattle.std.specs.Prelude.{◌≡◌};
ghost use Rattle.std.specs.Borrow.{sem};
ghost use Rattle.cmm_client.specs.Lending.{LendsThread};

use rv_memory::Memory;
use rv_table::Regs;

/// A thread of a stopped program.
pub struct Thread {
    /// Its registers and pc.
    pub regs: Regs,
    /// Code and data, and its region: argument area, global registers and stack.
    pub memory: Memory,
}

/// In one place, so that whoever lets one go has one call to prove.
impl Drop for Thread {
    fn drop(self) {
        let Self { regs: _, memory: _ } = self;
    }
}

/// A program that stands between two instructions: registers and memory, so far of one thread. `specs/Stops` says which state that is.
pub struct Stopped {
    thread: Thread,
}

/// In one place, so that whoever lets one go has one call to prove.
impl Drop for Stopped {
    fn drop(self) {
        let Self { thread: _ } = self;
    }
}

impl Stopped {
    /// A program of one thread, with these registers and this memory.
    pub fn new(regs: Regs, memory: Memory) -> Stopped
        ensures { result ≡ record { thread = record { regs = regs; memory = memory } } }
    {
        Stopped {
            thread: Thread { regs, memory },
        }
    }

    /// The thread at the cursor, whose activations a client looks at and changes.
    pub fn at_cursor(&self) -> &Thread
        ensures { result.now ≡ self.now.thread }
    {
        &self.thread
    }

    /// The same to be changed.
    pub fn at_cursor_mut(&mut self) -> &mut Thread
        ensures* lends { sem 𝓛 (LendsThread self.entry result) }
        ensures value { result.now ≡ self.old.thread }
    {
        &mut self.thread
    }

    /// The thread that runs, which yields its values and which a client lets go on.
    pub fn running(&self) -> &Thread
        ensures { result.now ≡ self.now.thread }
    {
        &self.thread
    }

    /// The same to be changed.
    pub fn running_mut(&mut self) -> &mut Thread
        ensures* lends { sem 𝓛 (LendsThread self.entry result) }
        ensures value { result.now ≡ self.old.thread }
    {
        &mut self.thread
    }
}
