//! Nodes that lead to one another.

ghost use Rattle.std.specs.Prelude.{◌≡◌, ◌++◌, ◌∷◌, [], true, length};
ghost use Rattle.cmm_digraph.specs.Graphs.{are_below};
ghost use Rattle.cmm_digraph.specs.inside.Components.{lower_of, IsLowest, IsJoined, IsCut, AreClosed, IsAscending};

use crate::search::State;

/// The lower of two places, of which each may be none.
fn lower(lowest: Option<usize>, state: State) -> Option<usize>
    ensures { result ≡ lower_of lowest state }
{
    match state {
        State::Open(place) => match lowest {
            Some(low) => Some(low.min(place)),
            None => Some(place),
        },
        State::New => lowest,
        State::Closed => lowest,
    }
}

/// The lowest place of those among some nodes that are open, if any is.
pub(crate) fn lowest_open(nodes: &[usize], states: &[State]) -> Option<usize>
    requires { are_below (length states.now) nodes.now ≡ true }
    ensures { IsLowest nodes.now states.now result }
{
    let mut lowest = None;
    for node in nodes {
        lowest = lower(lowest, states[*node]);
    }
    lowest
}

/// Joins to the component that has a place all those that begin after it.
pub(crate) fn join(lowest: Option<usize>, starts: &mut Vec<usize>)
    requires { IsAscending starts.old.items }
    ensures { IsJoined lowest starts.old.items starts.new.items }
{
    let Some(lowest) = lowest else {
        return;
    };
    let mut count = starts.len();
    while 0 < count && lowest < starts[count - 1] {
        count -= 1;
    }
    starts.truncate(count);
}

/// Takes the last component off, if it begins at a place.
pub(crate) fn cut(place: usize, starts: &mut Vec<usize>) -> bool
    ensures { IsCut place starts.old.items starts.new.items result }
{
    let begins = starts.last() == Some(&place);
    if begins {
        starts.pop();
    }
    begins
}

/// Closes nodes.
pub(crate) fn close(nodes: &[usize], states: &mut Vec<State>)
    requires { are_below (length states.old.items) nodes.now ≡ true }
    ensures { AreClosed nodes.now states.old.items states.new.items }
{
    for node in nodes {
        states[*node] = State::Closed;
    }
}
