//! One chain of moves.

ghost use Rattle.std.specs.Prelude.{◌≡◌, ◌≢◌, ◌≤◌, ◌+◌, ◌*◌, [], ◌∷◌, ◌++◌, length, OnOk};
ghost use Rattle.cmm_moves.specs.inside.Pending.{CanBeDone, GoesOn, StaysInside, redirected, saved};

use crate::sequencing::Move;
use crate::waiting::take_reader;
use cmm_items::Items;
use std::alloc::{AllocError, Global};

/// Where the oldest move of a path reads a place that is about to be written, the chain is a cycle: what is there is saved in the scratch
/// place, and the move reads that.
fn break_cycle(
    path: &mut Items<Move>,
    place: u32,
    scratch: u32,
    done: &mut Items<Move>,
) -> Result<(), AllocError>
    ensures path { OnOk result (path.new ≡ redirected place scratch path.old) }
    ensures done { OnOk result (done.new ≡ done.old ++ saved place scratch path.old) }
{
    let Some(oldest) = path.get(0) else {
        return Ok(());
    };
    let Move { to, from } = *oldest;
    if from == place {
        done.push(Move { to: scratch, from })?;
        path.set(0, Move { to, from: scratch });
    }
    Ok(())
}

/// Does a move, after all that read what it writes and wait, and so on.
pub(crate) fn follow(
    alloc: Global,
    first: Move,
    scratch: u32,
    waiting: &mut Vec<Move>,
    done: &mut Items<Move>,
) -> Result<(), AllocError>
    requires { CanBeDone scratch (first ∷ []) waiting.old.items }
    ensures left { OnOk result (CanBeDone scratch [] waiting.new.items) }
    ensures values { OnOk result (GoesOn scratch done.old (first ∷ waiting.old.items) done.new waiting.new.items) }
    ensures inside { OnOk result (StaysInside scratch done.old (first ∷ waiting.old.items) done.new waiting.new.items) }
    ensures fewer { OnOk result (length waiting.new.items ≤ length waiting.old.items) }
    ensures few { OnOk result (length done.new + 2 * length waiting.new.items ≤ length done.old + 2 * (length waiting.old.items + 1)) }
{
    let mut path = Items::new(alloc);
    path.push(first)?;
    while let Some(top) = path.pop() {
        match take_reader(waiting, top.to) {
            Some(reader) => {
                path.push(top)?;
                path.push(reader)?;
            }
            None => {
                break_cycle(&mut path, top.to, scratch, done)?;
                done.push(top)?;
            }
        }
    }
    Ok(())
}
