//! What holds of the static rules, whatever the units.

ghost use Rattle.cmm_static_semantics.specs.Laws.{FirstOfMore, JudgedAlike};

/// The first of faults and of more of them is the first of all, so that the first fault may be kept while a unit is walked.
#[tactic(auto, using(crate::proofs::Composing::first_of_more))]
pub fn first_faults_compose()
    ensures { FirstOfMore }
{}

/// An expression is judged alike, whether what is known of values or expressions with names resolved stand for them: it breaks the same
/// rule at the same place, or has the same type, and something stands for the same values.
pub fn values_do_not_matter()
    ensures { JudgedAlike }
{}
