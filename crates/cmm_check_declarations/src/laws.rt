//! What holds of the rules on declarations, whatever names mean.

ghost use Rattle.cmm_check_declarations.specs.EntryFaults.{BreaksByValueOrCycle};

/// The faults of an entry are those of its type and value, and that it depends on itself.
#[tactic(auto, using(crate::proofs::EntryCycles::value_or_cycle))]
pub fn entries_break_by_value_or_cycle()
    ensures { BreaksByValueOrCycle }
{}
