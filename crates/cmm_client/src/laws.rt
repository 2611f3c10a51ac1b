//! What an image does at a yield is the client's answer: each law is the contract of a function that does nothing.

ghost use Rattle.cmm_client.specs.Yields.{YieldsAreAnswers};

/// A yield of an image is the line and the answer that `answer_yield` writes, and leaves the program as it does.
#[tactic(auto, using(crate::proofs::YieldLaws::yields_are_answers))]
pub fn yields_are_answers()
    ensures { YieldsAreAnswers }
{}
