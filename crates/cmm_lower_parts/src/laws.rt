//! What fits a program. Each law is the contract of a function that does nothing.

ghost use Rattle.cmm_lower_parts.specs.Laws.{AlignmentsAreSmall, ParametersAreVariables, ProgramsFit};

/// In a program in range, no datum and no item of stackdata has 2^32 bytes or more.
pub fn programs_fit()
    ensures { ProgramsFit }
{}

/// In expressions, callees, values that are passed, places and right sides that break no rule, all alignments are below 2^32.
pub fn alignments_are_small()
    ensures { AlignmentsAreSmall }
{}

/// The parameters of a continuation that breaks no rule are variables of its procedure.
pub fn parameters_are_variables()
    ensures { ParametersAreVariables }
{}
