//! Laws of the rules: the contract of a function that does nothing.

ghost use Rattle.cmm_rules.specs.Laws.{OneRuleANumber, EachIsListed, TextsAreLines};

/// A number names one rule at most, and each text is one line of printed characters.
pub fn rules_are_told_apart()
    ensures numbers { OneRuleANumber }
    ensures listed { EachIsListed }
    ensures texts { TextsAreLines }
{}
