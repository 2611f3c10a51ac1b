//! What is proved of the convention: each law is the contract of a function that does nothing.

ghost use Rattle.cmm_abi.specs.Laws.{CalleeSavesAreListed, ScratchIsApart};

/// The registers that are saved by who is called are those that are listed, and no scratch register has another role.
#[tactic(auto, using(crate::proofs::Roles::callee_saves_are_listed, crate::proofs::Roles::scratch_is_apart))]
pub fn registers_have_one_role()
    ensures listed { CalleeSavesAreListed }
    ensures apart { ScratchIsApart }
{}
