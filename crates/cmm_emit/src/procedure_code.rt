//! The code of a unit's procedures, behind it that with which a run ends for want of room in the stack, and that by which it calls the client.

ghost use Rattle.std.specs.Prelude.{◌≡◌, ◌+◌, ◌<◌, [], length, OnOk};
ghost use Rattle.cmm_emit.specs.LaidProcedures.{HasOutline, HaveCodesIn, HaveLabelsIn, IsWholeIn};

use crate::node_code::lay_nodes;
use crate::outline::Outline;
use crate::start::{close, lay_client, lay_limit};
use cmm_graph::Graph;
use cmm_program::Program;
use rv_asm::Asm;
use std::alloc::{AllocError, Global};

/// Lays the code of a procedure by its number in the unit, behind that of the procedures before it.
fn lay_procedure(
    asm: &mut Asm,
    alloc: Global,
    program: &Program,
    graphs: &[Graph],
    outline: &Outline,
    number: usize,
) -> Result<(), AllocError>
    requires outline { HasOutline program.now graphs.now outline.now }
    requires number { number < length outline.now.contexts }
    requires labels { HaveLabelsIn program.now graphs.now outline.now number asm.old.labels }
    requires codes { HaveCodesIn program.now graphs.now outline.now number asm.old.parts }
    ensures labels { OnOk result (HaveLabelsIn program.now graphs.now outline.now (number + 1) asm.new.labels) }
    ensures codes { OnOk result (HaveCodesIn program.now graphs.now outline.now (number + 1) asm.new.parts) }
{
    asm.placed_labels();
    let context = &outline.contexts.as_slice()[number];
    let graph = &graphs[outline.first + number];
    lay_nodes(asm, alloc, context, &outline.targets, graph)?;
    close(asm)
}

/// Lays the code of each procedure, in their order.
fn lay_procedures(
    asm: &mut Asm,
    alloc: Global,
    program: &Program,
    graphs: &[Graph],
    outline: &Outline,
) -> Result<(), AllocError>
    requires outline { HasOutline program.now graphs.now outline.now }
    requires labels { HaveLabelsIn program.now graphs.now outline.now 0 asm.old.labels }
    requires codes { HaveCodesIn program.now graphs.now outline.now 0 asm.old.parts }
    ensures labels { OnOk result (HaveLabelsIn program.now graphs.now outline.now (length outline.now.contexts) asm.new.labels) }
    ensures codes { OnOk result (HaveCodesIn program.now graphs.now outline.now (length outline.now.contexts) asm.new.parts) }
{
    for number in 0..outline.contexts.len() {
        lay_procedure(asm, alloc, program, graphs, outline, number)?;
    }
    Ok(())
}

/// Lays the code of a unit.
pub fn lay_code(
    asm: &mut Asm,
    alloc: Global,
    program: &Program,
    graphs: &[Graph],
    outline: &Outline,
) -> Result<(), AllocError>
    requires outline { HasOutline program.now graphs.now outline.now }
    requires empty { asm.old.parts ≡ [] }
    requires labels { HaveLabelsIn program.now graphs.now outline.now 0 asm.old.labels }
    ensures whole { OnOk result (IsWholeIn program.now graphs.now outline.now asm.new.labels asm.new.parts) }
{
    lay_procedures(asm, alloc, program, graphs, outline)?;
    lay_limit(asm, outline.targets.limit)?;
    lay_client(asm, outline.targets.client)?;
    Ok(())
}
