//! The nodes that are left where nothing peels, in the order in which they go.

ghost use Rattle.std.specs.Prelude.{◌≡◌, ◌<◌, ◌^◌, true, IfOk, IfSome, OnOk, length};
ghost use Rattle.std.specs.List.{All};
ghost use Rattle.std.specs.List.Sorted.{IsPermutation};
ghost use Rattle.cmm_colour.specs.inside.Removing.{is_there};

use crate::hints::{Hint, uses};
use crate::worklists::is_left;
use cmm_ilist::Lists;
use std::alloc::{AllocError, Global};

/// A node that may stay without a colour.
#[derive(Drop)]
struct Candidate {
    node: u32,
    /// How many conflicts it had left for its uses.
    weight: u64,
}

/// How many neighbours there are for so many uses, as a number that orders such ratios.
fn weight(degree: usize, uses: u32) -> u64 {
    (degree as u64).saturating_mul(1 << 32) / (uses as u64 + 1)
}

/// Sorts candidates by their weights.
fn sort(candidates: &mut Vec<Candidate>) -> Result<(), AllocError>
    ensures { IsPermutation candidates.old.items candidates.new.items }
{
    candidates.sort_by(|a, b| a.weight.cmp(&b.weight))?;
    Ok(())
}

/// The candidates that are still to be looked at, the one with the most conflicts for its uses last.
#[derive(Drop)]
pub(crate) struct Candidates {
    waiting: Vec<Candidate>,
}

impl Candidates {
    /// All nodes that are left, by the conflicts that they have left.
    pub(crate) fn of_left(
        alloc: Global,
        lists: &Lists,
        degrees: &[usize],
        hints: &[Hint],
    ) -> Result<Candidates, AllocError>
        requires few { length degrees.now < 2 ^ 32 }
        requires count { lists.now.nodes ≡ length degrees.now }
        requires two { length lists.now.lists ≡ 2 }
        ensures { IfOk result (λ made. All (λ candidate. candidate.node < length degrees.now) made.waiting.items) }
    {
        let mut waiting = Vec::new(alloc);
        for (node, degree) in degrees.iter().enumerate() {
            let node = node as u32;
            if is_left(lists, node) {
                let weight = weight(*degree, uses(hints, node));
                waiting.push(Candidate { node, weight })?;
            }
        }
        sort(&mut waiting)?;
        Ok(Candidates { waiting })
    }

    /// The next candidate that is still there.
    pub(crate) fn next(&mut self, lists: &Lists) -> Option<u32>
        requires below { All (λ candidate. candidate.node < lists.now.nodes) self.old.waiting.items }
        requires two { length lists.now.lists ≡ 2 }
        ensures below { All (λ candidate. candidate.node < lists.now.nodes) self.new.waiting.items }
        ensures there { IfSome result (λ node. is_there node lists.now ≡ true) }
    {
        while let Some(candidate) = self.waiting.pop() {
            if is_left(lists, candidate.node) {
                return Some(candidate.node);
            }
        }
        None
    }
}
