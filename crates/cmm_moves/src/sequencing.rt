//! The call `sequence`.

ghost use Rattle.std.specs.Prelude.{◌≡◌, ◌≢◌, ◌≤◌, ◌*◌, ℕ, Bool, true, false, length, IfOk};
ghost use Rattle.cmm_moves.specs.Moves.{in_order, at_once, is_outside, is_target, is_source, are_apart};

use crate::chain::follow;
use cmm_items::Items;
use std::alloc::{AllocError, Global};

/// A number goes from one place to another. Places are numbers, each of which means what its user says.
#[derive(Clone, Copy)]
pub struct Move {
    pub to: u32,
    pub from: u32,
}

/// A sequence of moves that, done in order, gives each place what the given moves give it when they are done at once, but for the scratch
/// place. There are at most twice as many, and they mention no place but the scratch place and those that the given moves mention. The targets of the given moves differ, and none of them mentions the scratch place. Time is
/// quadratic in the moves, which are those of one node. Fails only for want of memory.
pub fn sequence(alloc: Global, moves: &[Move], scratch: u32) -> Result<Items<Move>, AllocError>
    requires apart { are_apart moves.now ≡ true }
    requires untouched { is_target scratch moves.now ≡ false }
    requires unread { is_source scratch moves.now ≡ false }
    ensures values { IfOk result (λ done. (has : ℕ → ℕ) (x : ℕ) → x ≢ scratch → in_order done has x ≡ at_once moves.now has x) }
    ensures few { IfOk result (λ done. length done ≤ 2 * length moves.now) }
    ensures inside { (test : ℕ → Bool) → test scratch ≡ true → is_outside test moves.now ≡ false → IfOk result (λ done. is_outside test done ≡ false) }
{
    let mut waiting = Vec::new(alloc);
    waiting.extend_from_slice(moves)?;
    let mut done = Items::new(alloc);
    while let Some(first) = waiting.pop() {
        if first.from != first.to {
            follow(alloc, first, scratch, &mut waiting, &mut done)?;
        }
    }
    Ok(done)
}
