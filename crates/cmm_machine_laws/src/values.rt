//! Sites in range, and values that fit: what each state of a run has.
ghost use Rattle.cmm_machine_laws.specs.Fitting.{ExpressionsFit, StatesAreSound};

/// In every state, each statement that an activation has still to do is in range in its procedure, each suspended
/// activation waits at a site of its procedure, and each value fits the width of what holds it: in the first state, after
/// each step from such a state, and so in every state of a run.
#[tactic(auto, using(crate::proofs::Fitting::states_are_sound))]
pub fn every_state_is_sound()
    ensures { StatesAreSound }
{}

/// In such a state, the value of an expression fits the expression's width.
#[tactic(auto, using(crate::proofs::Fitting::expressions_fitting))]
pub fn expressions_fit()
    ensures { ExpressionsFit }
{}
