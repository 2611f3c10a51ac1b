//! What a call comes to, before its line is written.

use crate::reading::ReadFault;
use cmm_rules::Rule;
use cmm_run::Outcome;
use cmm_static_semantics::Fault;

/// What a call comes to, before its line is written.
#[derive(Clone, Copy)]
pub enum Ending<'a> {
    /// The words are none that the program takes.
    Usage,
    /// Units are refused for a rule that the unit in a file of this name breaks.
    Refused(&'a str, Fault),
    /// The bytes of a file are no image, or one that is not migrated: this rule is broken at the field that begins at this offset.
    BadImage { rule: Rule, offset: u64 },
    /// The bytes of a file are no script: this rule is broken in this line.
    BadScript { rule: Rule, line: u32 },
    /// The bytes of a file are no snapshot of a run of the image: this rule is broken at the field that begins at this offset.
    BadSnapshot { rule: Rule, offset: u64 },
    /// The bytes of a file are no ELF file of an image: this rule is broken at the field that begins at this offset.
    BadElf { rule: Rule, offset: u64 },
    /// A call on the file of this name failed.
    FileFault(&'a str),
    /// A call on the log failed.
    OutputFault,
    /// Memory ran out.
    OutOfMemory,
    /// An image was written to a file, its ELF file, or the image in version 2.
    Written,
    /// The walk of a stopped program was written.
    Walked,
    /// An ELF file was read: its code and its data have these lengths in bytes, and it starts at this address.
    Inspected { code: u64, initial: u64, start: u64 },
    /// An image has run.
    Ran(Outcome),
}

impl<'a> From<ReadFault<'a>> for Ending<'a> {
    ghost use Rattle.cmm_work.specs.Ending.{IsUnread};

    ghost from_gives = { IsUnread };

    fn from(fault: ReadFault<'a>) -> Ending<'a> {
        match fault {
            ReadFault::Failed(name) => Ending::FileFault(name),
            ReadFault::Memory => Ending::OutOfMemory,
        }
    }
}
