//! Laws of units: each is the contract of a function that does nothing.

ghost use Rattle.cmm_front.specs.Laws.{NeverBoth, OneFault, OneProgram};

/// Units mean at most one program and have at most one fault, and never both. So whatever answers by what units mean refuses none that are accepted, and accepts none
/// that break a rule.
pub fn units_mean_one_thing()
    ensures program { OneProgram }
    ensures fault { OneFault }
    ensures not_both { NeverBoth }
{
    cmm_grammar::laws::units_are_one();
    cmm_grammar::laws::units_have_one_answer();
}
