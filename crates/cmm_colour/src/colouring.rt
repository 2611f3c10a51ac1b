//! Colours, and the call that chooses them.

ghost use Rattle.std.specs.Prelude.{◌≡◌, ◌<◌, IfOk, length};
ghost use Rattle.cmm_colour.specs.Colours.{AreColours, colour_of};

use crate::choosing::choose;
use crate::conflicts::Conflicts;
use crate::hints::Hint;
use crate::removing::remove_all;
use crate::simple::simple;
use std::alloc::{AllocError, Global};
use std::marker::Model;

/// The colour of each node, if it has one.
pub struct Colours {
    colours: Vec<Option<u32>>,
}

/// In one place, so that whoever lets one go has one call to prove.
impl Drop for Colours {
    fn drop(self) {
        let Self { colours: _ } = self;
    }
}

impl Model for Colours {
    ghost use Rattle.std.specs.Prelude.{List, Option, ℕ};

    ghost Value = { List (Option ℕ) };

    ghost view = { λ c. c.colours.items };
}

impl Colours {
    /// How many nodes there are.
    pub fn count(&self) -> usize
        ensures { result ≡ length self.now }
    {
        self.colours.len()
    }

    /// The colour of a node.
    pub fn of(&self, node: u32) -> Option<u32>
        requires { node < length self.now }
        ensures { result ≡ colour_of self.now node }
    {
        self.colours[node as usize]
    }
}

/// Colours below `k` for nodes that conflict: neighbours have different ones, and each node that peels has one. The hint of a node stands
/// at its number in `hints`; one past their end has none. An error is want of memory.
pub fn colour(
    alloc: Global,
    conflicts: &Conflicts,
    k: u32,
    hints: &[Hint],
) -> Result<Colours, AllocError>
    ensures { IfOk result (λ colours. AreColours conflicts.now k colours) }
{
    let rows = simple(alloc, conflicts.rows())?;
    let removed = remove_all(alloc, &rows, k as usize, hints)?;
    let colours = choose(alloc, &rows, k, &removed, hints)?;
    Ok(Colours { colours })
}
