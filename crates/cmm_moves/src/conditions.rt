//! What `sequence` requires of moves, as tests.

ghost use Rattle.std.specs.Prelude.{◌≡◌, ◌||◌};
ghost use Rattle.cmm_moves.specs.Moves.{are_apart, is_source, is_target};

use crate::sequencing::Move;

/// Whether a place is the target of a move.
fn is_target(place: u32, moves: &[Move]) -> bool
    ensures { result ≡ is_target place moves.now }
{
    moves.iter().any(|m| place == m.to)
}

/// Whether a place is the source of a move.
fn is_source(place: u32, moves: &[Move]) -> bool
    ensures { result ≡ is_source place moves.now }
{
    moves.iter().any(|m| place == m.from)
}

/// Whether a move mentions a place.
pub fn is_mentioned(place: u32, moves: &[Move]) -> bool
    ensures { result ≡ (is_target place moves.now || is_source place moves.now) }
{
    is_target(place, moves) || is_source(place, moves)
}

/// Whether the targets of moves differ.
pub fn are_apart(moves: &[Move]) -> bool
    ensures { result ≡ are_apart moves.now }
{
    let mut rest = moves;
    while let [first, more @ ..] = rest {
        if is_target(first.to, more) {
            return false;
        }
        rest = more;
    }
    true
}
