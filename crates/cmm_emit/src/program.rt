//! The code of a program.

ghost use Rattle.std.specs.Prelude.{◌≡◌, ◌≤◌, length, sum_by, IfOk};
ghost use Rattle.std.specs.List.{AllZip};
ghost use Rattle.std.specs.List.Sorted.{IsNonDecreasingBy};
ghost use Rattle.cmm_program.specs.Bounds.{code_bound};
ghost use Rattle.cmm_program.specs.InRange.{IsInRange};
ghost use Rattle.cmm_program.specs.Limits.{token_limit};
ghost use Rattle.cmm_hoisted.specs.Flow.{IsHoistedFlow};
ghost use Rattle.cmm_unit_code.specs.Joined.{CanBeJoined, IsTextOf};
ghost use Rattle.cmm_unit_code.specs.Texts.{IsText};
ghost use Rattle.cmm_unit_code.specs.declared.text.Text.{Text};
ghost use Rattle.cmm_allocate.specs.Places.{HavePlaces};
ghost use Rattle.cmm_emit.specs.Premises.{AreCovered, AreShort};
ghost use Rattle.cmm_emit.specs.Texts.{IsCodeOfProgram};
ghost use Rattle.cmm_emit.specs.Units.{NamesWhatItUses};

use crate::start::start_code;
use crate::units::unit_codes;
use cmm_allocate::ProcedurePlaces;
use cmm_graph::Graph;
use cmm_program::Program;
use cmm_unit_code::ProgramCode;
use std::alloc::{AllocError, Global};

/// The code of a program whose procedures stand unit by unit, with these graphs and places: first that with which a run begins, which calls `main`, and then that of each unit that has a
/// procedure. Each lists what it names that is not in it, and nothing else. Joined to one text, it is all that is required of the code of the program. An error is want of memory.
pub fn lay_program(
    alloc: Global,
    program: &Program,
    graphs: &[Graph],
    places: &[ProcedurePlaces],
) -> Result<ProgramCode, AllocError>
    requires range { IsInRange program.now }
    requires ascending { IsNonDecreasingBy (λ q. q.unit) program.now.procs }
    requires flows { AllZip IsHoistedFlow program.now.procs graphs.now }
    requires places { HavePlaces program.now.procs graphs.now places.now }
    requires covered { AreCovered graphs.now places.now }
    requires short { AreShort program.now.procs graphs.now places.now }
    requires labels { length program.now.labels ≤ token_limit }
    ensures can { IfOk result CanBeJoined }
    ensures text { IfOk result (λ code. (t : Text) → IsTextOf program.now code t → IsText program.now t) }
    ensures names { IfOk result (NamesWhatItUses program.now graphs.now) }
    ensures size { IfOk result (λ code. (t : Text) → IsTextOf program.now code t → length t.code ≤ code_bound (sum_by (λ q. q.tokens) program.now.procs)) }
    ensures code { IfOk result (λ code. (t : Text) → IsTextOf program.now code t → IsCodeOfProgram program.now graphs.now places.now t) }
{
    cmm_data::laws::programs_in_range();
    cmm_data::laws::labels_in_data();
    cmm_hoisted::laws::hoisted_flows_are_graphs();
    cmm_hoisted::laws::hoisted_flows_pass_few();
    cmm_hoisted::laws::hoisted_flows_wait_once();
    cmm_allocate::laws::rows_are_placed();
    cmm_emit_laws::laws::graphs_are_named();
    cmm_emit_laws::laws::frames_are_laid();
    cmm_emit_laws::laws::finished_code_stands();
    let start = start_code(alloc, program)?;
    let last = start.last;
    let units = unit_codes(alloc, program, graphs, places, start.code)?;
    Ok(ProgramCode { units, last })
}
