//! What is proved of changes, as contracts of functions that do nothing.
ghost use Rattle.cmm_effects.specs.Laws.{GlobalsAreRead, KeptIsReachable, KeptIsRead, PutIsRead, SetsFollow};

/// A place has what was put there, and one that keeps its register and the memory has what it had.
pub fn places_are_read()
    ensures put { PutIsRead }
    ensures kept { KeptIsRead }
    ensures reachable { KeptIsReachable }
{}

/// A piece that sets a register and then one that sets another are one piece that sets both. What is known of a piece composes
/// likewise: `leads_then` and the other lemmas of proofs/Shared.antt.
pub fn pieces_follow()
    ensures { SetsFollow }
{}

/// A global register is read from its word of the region, and written there.
pub fn globals_are_read()
    ensures { GlobalsAreRead }
{}
