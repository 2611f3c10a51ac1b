//! Laws of conflicts. Each is the contract of a function that does nothing.

ghost use Rattle.cmm_colour.specs.Laws.{JoinsAreAdjacent};

/// What joining two nodes does to who is joined to whom.
#[tactic(auto, using(crate::proofs::Joining::joins_are_adjacent))]
pub fn joins_are_adjacent()
    ensures { JoinsAreAdjacent }
{}
