//! The moves that wait.

ghost use Rattle.std.specs.Prelude.{◌≡◌, ◌<◌, false, length, MatchOption};
ghost use Rattle.cmm_moves.specs.Moves.{is_source};
ghost use Rattle.cmm_moves.specs.inside.Pending.{IsTaken, reads_at};

use crate::sequencing::Move;

/// The first move that reads a place, if one does.
fn reader_of(waiting: &[Move], place: u32) -> Option<usize>
    ensures { MatchOption result (is_source place waiting.now ≡ false) (λ index. (index < length waiting.now) × (reads_at waiting.now index ≡ place)) }
{
    for (index, m) in waiting.iter().enumerate() {
        if m.from == place {
            return Some(index);
        }
    }
    None
}

/// Takes out a move that reads a place, if one does.
pub(crate) fn take_reader(waiting: &mut Vec<Move>, place: u32) -> Option<Move>
    ensures { MatchOption result ((waiting.new.items ≡ waiting.old.items) × (is_source place waiting.old.items ≡ false)) (λ taken. IsTaken place waiting.old.items taken waiting.new.items) }
{
    match reader_of(waiting, place) {
        Some(index) => Some(waiting.remove(index)),
        None => None,
    }
}
