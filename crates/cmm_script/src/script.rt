//! A client script: what is done at each yield of a program.

ghost use Rattle.std.specs.Prelude.{◌≡◌, []};

use cmm_items::Items;
use std::alloc::Global;

/// A number that a command is given.
#[derive(Clone, Copy)]
pub enum Value {
    Number(u64),
    /// A value of the yield, counted from 0.
    Yielded(u8),
}

/// What a client does at a yield. Its cursor stands at an activation, at first the youngest.
pub enum Command {
    /// Writes the walk.
    List,
    /// The cursor to the youngest activation.
    Youngest,
    /// The cursor to the next older activation.
    Next,
    /// The descriptor that the span of this token gives the activation at the cursor.
    Desc(u64),
    /// The cursor to the first activation, from the cursor towards older ones, with this descriptor of the token.
    Seek(u64, Value),
    /// The variable of this number at the cursor.
    Var(u32),
    /// Gives the variable of this number at the cursor a value.
    Set(u32, Value),
    /// Writes a value of 8 bytes behind an exported data label, by an offset in bytes.
    Poke(Items<u8>, u64, Value),
    /// Resumes the youngest activation at this exit with these values, as a return of the procedure that it calls.
    Return(u32, Items<Value>),
    /// Resumes the activation at the cursor at this unwind exit with these values; the younger ones go.
    Unwind(u32, Items<Value>),
    /// Cuts to a continuation with these values.
    Cut(Value, Items<Value>),
    /// Stops the run.
    Stop,
}

/// In one place, so that whoever lets one go has one call to prove.
impl Drop for Command {
    fn drop(self) {
        match self {
            Self::List => {}
            Self::Youngest => {}
            Self::Next => {}
            Self::Desc(_) => {}
            Self::Seek(_, _) => {}
            Self::Var(_) => {}
            Self::Set(_, _) => {}
            Self::Poke(_, _, _) => {}
            Self::Return(_, _) => {}
            Self::Unwind(_, _) => {}
            Self::Cut(_, _) => {}
            Self::Stop => {}
        }
    }
}

/// What is done at a yield.
pub struct Block {
    /// The first value of the yields that the block answers, or none: it answers those that no other block does.
    pub code: Option<u64>,
    pub commands: Items<Command>,
    /// The line of each command in the script's text, counted from 1.
    pub lines: Items<u32>,
}

/// In one place, so that whoever lets one go has one call to prove.
impl Drop for Block {
    fn drop(self) {
        let Self {
            code: _,
            commands: _,
            lines: _,
        } = self;
    }
}

/// A client script. No two of its blocks have the same code.
pub struct Script {
    pub blocks: Items<Block>,
}

/// In one place, so that whoever lets one go has one call to prove.
impl Drop for Script {
    fn drop(self) {
        let Self { blocks: _ } = self;
    }
}

impl Script {
    /// The script without a block, at which each yield stops the run. Takes no memory.
    pub fn empty(alloc: Global) -> Script
        ensures { result.blocks ≡ [] }
    {
        Script {
            blocks: Items::new(alloc),
        }
    }
}
