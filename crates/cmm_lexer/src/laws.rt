//! What holds of the tokens of any unit.

ghost use Rattle.cmm_lexer.specs.Laws.{TokensAreOfBytes};

/// Of a unit of bytes each name, each text and each operator's name is of bytes, and so is each character: what an escape stands for is a byte too.
#[tactic(auto, using(crate::proofs::OfBytes::tokens_are_of_bytes))]
pub fn tokens_are_of_bytes()
    ensures { TokensAreOfBytes }
{}
