//! What fits a program. Each law is the contract of a function that does nothing.

ghost use Rattle.cmm_lower.specs.Laws.{ProceduresFit, UnitsFit};

/// A procedure that breaks no rule fits a program, where what it means is in range.
pub fn procedures_fit()
    ensures { ProceduresFit }
{}

/// The procedures of accepted units fit a program, where the units derive as many tokens as they have places for, and their texts are of bytes.
pub fn units_fit()
    ensures { UnitsFit }
{}
