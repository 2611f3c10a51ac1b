//! The client's commands are to find, and then to do: each law is the contract of a function that does nothing.

ghost use Rattle.cmm_resume.specs.Laws.{PokesAreFound, PokesAreTheClients, SetsAreFound, UnwindsAreFound};

/// `set` writes the word at the place that is found, or is refused as finding it is.
#[tactic(auto, using(crate::proofs::SetVariables::sets_are_found))]
pub fn sets_are_found()
    ensures { SetsAreFound }
{}

/// `poke` writes where data is found that may be written, and in data of the image's own length it is the client's.
#[tactic(auto, using(crate::proofs::PokeLaws::pokes_are_found))]
pub fn pokes_are_found()
    ensures found { PokesAreFound }
    ensures clients { PokesAreTheClients }
{}

/// `unwind` goes on at the landing that is found, or is refused as finding it is.
#[tactic(auto, using(crate::proofs::Unwinds::unwinds_are_found))]
pub fn unwinds_are_found()
    ensures { UnwindsAreFound }
{}
