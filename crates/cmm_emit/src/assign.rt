//! The code of assignments.

ghost use Rattle.std.specs.Prelude.{◌≡◌, IsTrue, OnOk};
ghost use Rattle.cmm_effects.specs.Pieces.{Adds};
ghost use Rattle.cmm_graph.specs.declared.node.NodeKind.TheVariants as kind;
ghost use Rattle.cmm_graph.specs.declared.operand.Rvalue.TheVariants as rvalue;
ghost use Rattle.cmm_graph.specs.declared.number.NodeId.{NodeId};
ghost use Rattle.cmm_emit.specs.Costs.{rvalue_cost};
ghost use Rattle.cmm_emit.specs.Naming.{has_both, has_destination, has_rvalue};
ghost use Rattle.cmm_emit.specs.Standing.{CodesNode, IsReady, PutsValue};
ghost use Rattle.cmm_select.specs.Destinations.{IsDestination};

use crate::context::{Context, Targets, named_at};
use crate::operand::{code_destination, code_operand};
use cmm_graph::{Comparison, Destination, Rvalue};
use cmm_select::{
    Destination as CodeDestination, assign_binary, assign_comparison, assign_copy, assign_extended,
    assign_global, assign_loaded, assign_low, assign_unary,
};
use rv_asm::Asm;
use std::alloc::AllocError;

/// Assigns a right side, up to where control goes on.
pub(crate) fn assign_body(
    asm: &mut Asm,
    context: &Context,
    targets: &Targets,
    to: &Destination,
    value: &Rvalue,
) -> Result<(), AllocError>
    requires ready { IsReady asm.old.labels context.now targets.now }
    requires to { IsTrue (has_destination context.now targets.now to.now) }
    requires value { IsTrue (has_rvalue context.now targets.now value.now) }
    ensures code { (next : NodeId) → OnOk result (Adds (rvalue_cost context.now targets.now value.now) asm.old.parts asm.new.parts (CodesNode context.now targets.now (kind.Assign to.now value.now next))) }
    ensures labels { asm.new.labels ≡ asm.old.labels }
{
    let into = code_destination(context, targets, *to);
    put_value(asm, context, targets, value, &into)
}

/// Puts the value of a right side where a destination is.
fn put_value(
    asm: &mut Asm,
    context: &Context,
    targets: &Targets,
    value: &Rvalue,
    into: &CodeDestination,
) -> Result<(), AllocError>
    requires ready { IsReady asm.old.labels context.now targets.now }
    requires into { IsDestination asm.old.labels into.now }
    requires value { IsTrue (has_rvalue context.now targets.now value.now) }
    ensures puts { OnOk result (Adds (rvalue_cost context.now targets.now value.now) asm.old.parts asm.new.parts (PutsValue context.now targets.now value.now into.now)) }
    ensures labels { asm.new.labels ≡ asm.old.labels }
{
    match *value {
        Rvalue::Copy(operand) => {
            let from = code_operand(context, targets, operand);
            assign_copy(asm, &from, into)
        }
        Rvalue::Register(register) => {
            let from = named_at(targets.registers.as_slice(), register.number);
            assign_global(asm, from, into)
        }
        Rvalue::Load {
            width,
            aligned,
            address,
        } => {
            let from = code_operand(context, targets, address);
            assign_loaded(asm, width, aligned, &from, into)
        }
        Rvalue::Unary {
            operator,
            width,
            operand,
        } => {
            let from = code_operand(context, targets, operand);
            assign_unary(asm, operator, width, &from, into)
        }
        Rvalue::Binary {
            operator,
            width,
            left,
            right,
        } => {
            let left = code_operand(context, targets, left);
            let right = code_operand(context, targets, right);
            assign_binary(asm, operator, width, &left, &right, into)
        }
        Rvalue::Compare(test) => put_comparison(asm, context, targets, &test, into),
        Rvalue::SignExtend { from, to, operand } => {
            let value = code_operand(context, targets, operand);
            assign_extended(asm, from, to, &value, into)
        }
        Rvalue::LowBits { from, to, operand } => {
            let value = code_operand(context, targets, operand);
            assign_low(asm, from, to, &value, into)
        }
    }
}

/// Puts 1 where a comparison holds, and else 0.
fn put_comparison(
    asm: &mut Asm,
    context: &Context,
    targets: &Targets,
    test: &Comparison,
    into: &CodeDestination,
) -> Result<(), AllocError>
    requires ready { IsReady asm.old.labels context.now targets.now }
    requires into { IsDestination asm.old.labels into.now }
    requires test { IsTrue (has_both context.now targets.now test.now) }
    ensures puts { OnOk result (Adds (rvalue_cost context.now targets.now (rvalue.Compare test.now)) asm.old.parts asm.new.parts (PutsValue context.now targets.now (rvalue.Compare test.now) into.now)) }
    ensures labels { asm.new.labels ≡ asm.old.labels }
{
    let left = code_operand(context, targets, test.left);
    let right = code_operand(context, targets, test.right);
    assign_comparison(asm, test.operator, test.width, &left, &right, into)
}
