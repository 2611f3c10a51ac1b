//! Laws of the definitions of liveness, and of the client. Each is the contract of a function that does nothing.

ghost use Rattle.cmm_program.specs.Laws.{ExitsAreComplete, ListingIsTheWalk, LivenessIsByPaths};

/// The exits of a call site are the normal one, unless it never returns, and one to each continuation that it also
/// returns, unwinds or cuts to.
pub fn exits_are_complete()
    ensures { ExitsAreComplete }
{}

/// In a procedure in range, a variable is found live at a call site exactly where some path from one of the site's
/// exits, of any length, reaches a statement that reads it, and nothing writes it before on that path.
pub fn liveness_is_by_paths()
    ensures { LivenessIsByPaths }
{}

/// What a client's `list` writes is the walk of the store, and nothing is changed by it.
pub fn listing_is_the_walk()
    ensures { ListingIsTheWalk }
{}
