//! The code of each unit.

ghost use Rattle.std.specs.Prelude.{◌≡◌, ◌+◌, ◌<◌, ◌≤◌, ◌∷◌, List, length, IfOk};
ghost use Rattle.std.specs.List.{AllZip};
ghost use Rattle.std.specs.List.Sorted.{IsNonDecreasingBy};
ghost use Rattle.cmm_program.specs.InRange.{IsInRange};
ghost use Rattle.cmm_program.specs.Limits.{token_limit};
ghost use Rattle.cmm_hoisted.specs.Flow.{IsHoistedFlow};
ghost use Rattle.cmm_unit_code.specs.declared.unit_code.UnitCode.{UnitCode as CodeOfUnit};
ghost use Rattle.cmm_allocate.specs.Places.{HavePlaces};
ghost use Rattle.cmm_emit.specs.Premises.{AreShort};
ghost use Rattle.cmm_emit.specs.Units.{AreUnits, IsUnit, IsUnitEnd};

use crate::finishing::finish_unit;
use crate::outline::make_outline;
use crate::procedure_code::lay_code;
use cmm_allocate::ProcedurePlaces;
use cmm_graph::Graph;
use cmm_items::Items;
use cmm_program::{Proc, Program};
use cmm_unit_code::UnitCode;
use rv_asm::Asm;
use std::alloc::{AllocError, Global};

/// The code of `count` procedures of a program, from one on. An error is want of memory.
fn unit_code(
    alloc: Global,
    program: &Program,
    graphs: &[Graph],
    places: &[ProcedurePlaces],
    first: usize,
    count: usize,
) -> Result<UnitCode, AllocError>
    requires range { IsInRange program.now }
    requires flows { AllZip IsHoistedFlow program.now.procs graphs.now }
    requires places { HavePlaces program.now.procs graphs.now places.now }
    requires short { AreShort program.now.procs graphs.now places.now }
    requires labels { length program.now.labels ≤ token_limit }
    requires within { first + count ≤ length program.now.procs }
    ensures { IfOk result (IsUnit program.now graphs.now places.now first count) }
{
    cmm_hoisted::laws::hoisted_flows_are_graphs();
    cmm_hoisted::laws::hoisted_flows_pass_few();
    cmm_hoisted::laws::hoisted_flows_wait_once();
    cmm_emit_laws::laws::graphs_are_named();
    cmm_emit_laws::laws::frames_are_laid();
    let mut asm = Asm::new(alloc);
    let outline = make_outline(&mut asm, alloc, program, graphs, places, first, count)?;
    lay_code(&mut asm, alloc, program, graphs, &outline)?;
    let unit = finish_unit(alloc, asm, &outline)?;
    Ok(unit)
}

/// Where the procedures end that are of the unit of the one with this number, and stand behind it.
fn unit_end(procedures: &[Proc], first: usize) -> usize
    requires { first < length procedures.now }
    ensures { IsUnitEnd procedures.now first result }
{
    let unit = procedures[first].unit;
    for end in first + 1..procedures.len() {
        if procedures[end].unit != unit {
            return end;
        }
    }
    procedures.len()
}

/// The code of each unit that has a procedure, behind that with which a run begins. An error is want of memory.
pub fn unit_codes(
    alloc: Global,
    program: &Program,
    graphs: &[Graph],
    places: &[ProcedurePlaces],
    start: UnitCode,
) -> Result<Items<UnitCode>, AllocError>
    requires range { IsInRange program.now }
    requires ascending { IsNonDecreasingBy (λ q. q.unit) program.now.procs }
    requires flows { AllZip IsHoistedFlow program.now.procs graphs.now }
    requires places { HavePlaces program.now.procs graphs.now places.now }
    requires short { AreShort program.now.procs graphs.now places.now }
    requires labels { length program.now.labels ≤ token_limit }
    ensures { IfOk result (λ codes. (units : List CodeOfUnit) × (codes ≡ start ∷ units) × (length units ≤ 256)
        × AreUnits program.now graphs.now places.now 0 (length program.now.procs) units) }
{
    let procedures = program.procs.as_slice();
    let mut codes = Items::new(alloc);
    codes.push(start)?;
    let mut first = 0;
    while first < procedures.len() {
        let end = unit_end(procedures, first);
        let count = end - first;
        codes.push(unit_code(alloc, program, graphs, places, first, count)?)?;
        first = end;
    }
    Ok(codes)
}
