//! The colour of each node, the last removed first.

ghost use Rattle.std.specs.Prelude.{◌≡◌, ◌<◌, ◌≤◌, ◌^◌, ℕ, None, true, false, IfOk, MatchOption, length, replicate, slice_index_or};
ghost use Rattle.cmm_colour.specs.Graphs.{row};
ghost use Rattle.cmm_colour.specs.inside.Choosing.{AreChosen, AreColoursBelow, IsTaken};
ghost use Rattle.cmm_colour.specs.inside.Removing.{AreRemoved, AreSimple};
ghost use Rattle.cmm_colour.specs.inside.Simple.{AreBelow};

use crate::hints::{Hint, preferred};
use crate::removing::Removed;
use cmm_items::Items;
use std::alloc::{AllocError, Global};

/// Marks the colours that some nodes have.
fn take_colours(nodes: &[u32], colours: &[Option<u32>], taken: &mut Vec<bool>)
    requires nodes { AreBelow (length colours.now) nodes.now }
    requires colours { AreColoursBelow (length taken.old.items) colours.now }
    ensures { IsTaken (length taken.old.items) nodes.now colours.now taken.new.items }
{
    taken.fill(false);
    for node in nodes {
        if let Some(colour) = colours[*node as usize] {
            taken[colour as usize] = true;
        }
    }
}

/// The first colour that is not taken, if there is one.
fn first_free(taken: &[bool]) -> Option<u32>
    requires { length taken.now < 2 ^ 32 }
    ensures { MatchOption result
        ((c : ℕ) → c < length taken.now → slice_index_or taken.now c false ≡ true)
        (λ c. (c < length taken.now) × (slice_index_or taken.now c false ≡ false)) }
{
    for (colour, is_taken) in taken.iter().enumerate() {
        if !*is_taken {
            return Some(colour as u32);
        }
    }
    None
}

/// A colour that is not taken, if there is one: the one that suits, or else the first.
fn pick(taken: &[bool], preferred: Option<u32>) -> Option<u32>
    requires { length taken.now < 2 ^ 32 }
    ensures { MatchOption result
        ((c : ℕ) → c < length taken.now → slice_index_or taken.now c false ≡ true)
        (λ c. (c < length taken.now) × (slice_index_or taken.now c false ≡ false)) }
{
    if let Some(colour) = preferred {
        if (colour as usize) < taken.len() && !taken[colour as usize] {
            return Some(colour);
        }
    }
    first_free(taken)
}

/// No colour for any of so many nodes.
fn no_colours(alloc: Global, nodes: usize) -> Result<Vec<Option<u32>>, AllocError>
    ensures { IfOk result (λ colours. colours.items ≡ replicate nodes None) }
{
    let colours = vec![in alloc; None; nodes]?;
    Ok(colours)
}

/// Colours for the nodes of a graph, the last in the order first: for each one that no neighbour has.
pub(crate) fn choose(
    alloc: Global,
    rows: &[Items<u32>],
    k: u32,
    removed: &Removed,
    hints: &[Hint],
) -> Result<Vec<Option<u32>>, AllocError>
    requires simple { AreSimple rows.now }
    requires removed { AreRemoved rows.now k removed.now.order removed.now.peeled }
    ensures { IfOk result (λ colours. AreChosen rows.now k removed.now.order removed.now.peeled 0 colours.items) }
{
    let mut colours = no_colours(alloc, rows.len())?;
    let mut taken = vec![in alloc; false; k as usize]?;
    let mut left = removed.order.len();
    while left > 0 {
        left -= 1;
        let node = removed.order.as_slice()[left];
        take_colours(rows[node as usize].as_slice(), &colours, &mut taken);
        colours[node as usize] = pick(&taken, preferred(hints, node));
    }
    Ok(colours)
}
