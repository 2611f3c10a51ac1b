//! The code by which a procedure begins and is left.

ghost use Rattle.std.specs.Prelude.{◌≡◌, ℕ, IfSome, IsTrue, List, OnOk};
ghost use Rattle.cmm_effects.specs.Pieces.{Adds};
ghost use Rattle.cmm_graph.specs.declared.node.NodeKind.TheVariants as kind;
ghost use Rattle.cmm_graph.specs.declared.number.ContinuationId.{ContinuationId};
ghost use Rattle.cmm_graph.specs.declared.number.NodeId.{NodeId};
ghost use Rattle.cmm_emit.specs.Costs.{begin_cost, copy_cost, cut_cost, jump_to_cost, return_cost};
ghost use Rattle.cmm_emit.specs.Naming.{IsNamed, can_begin, can_go_to, can_land, can_return, has_operand};
ghost use Rattle.cmm_emit.specs.Standing.{CodesNode, CodesOwn, IsReady};

use crate::context::{Context, Targets, named_at};
use crate::operand::{argument_operands, code_operand, target_destinations, variable_places};
use cmm_calls::{begin, copy_in, cut, jump, jump_by, return_values};
use cmm_graph::{Argument, Operand, Variable};
use cmm_program::Target;
use cmm_words::Constant;
use rv_asm::{Asm, Label};
use std::alloc::{AllocError, Global};

/// Begins a procedure: its frame is made, and its formals take the values that came.
pub(crate) fn entry_body(
    asm: &mut Asm,
    alloc: Global,
    context: &Context,
    targets: &Targets,
    formals: &[Variable],
) -> Result<(), AllocError>
    requires ready { IsReady asm.old.labels context.now targets.now }
    requires formals { IsTrue (can_begin context.now formals.now) }
    ensures code { (next : NodeId) → OnOk result (Adds (begin_cost context.now targets.now formals.now) asm.old.parts asm.new.parts (CodesNode context.now targets.now (kind.Entry formals.now next))) }
    ensures labels { asm.new.labels ≡ asm.old.labels }
{
    let places = variable_places(alloc, context, formals)?;
    begin(
        asm,
        &context.frame,
        context.landings.as_slice(),
        context.zeroed.as_slice(),
        places.as_slice(),
        targets.limit,
    )
}

/// Lands: the values that control brings come to what takes them. Where there is none, nothing is to be done.
pub(crate) fn copy_in_body(
    asm: &mut Asm,
    alloc: Global,
    context: &Context,
    targets: &Targets,
    to: &[Target],
) -> Result<(), AllocError>
    requires ready { IsReady asm.old.labels context.now targets.now }
    requires to { IsTrue (can_land context.now targets.now to.now) }
    ensures code { (next : NodeId) → OnOk result (Adds (copy_cost context.now targets.now to.now) asm.old.parts asm.new.parts (CodesOwn context.now targets.now (kind.CopyIn to.now next))) }
    ensures labels { asm.new.labels ≡ asm.old.labels }
{
    let destinations = target_destinations(alloc, context, targets, to)?;
    copy_in(asm, &context.frame, destinations.as_slice())
}

/// Returns values by an exit.
pub(crate) fn return_body(
    asm: &mut Asm,
    alloc: Global,
    context: &Context,
    targets: &Targets,
    exit: u32,
    results: &[Argument],
) -> Result<(), AllocError>
    requires ready { IsReady asm.old.labels context.now targets.now }
    requires results { IsTrue (can_return context.now targets.now exit results.now) }
    ensures code { (alternates : ℕ) → OnOk result (Adds (return_cost context.now targets.now results.now) asm.old.parts asm.new.parts (CodesNode context.now targets.now (kind.Return exit alternates results.now))) }
    ensures labels { asm.new.labels ≡ asm.old.labels }
{
    let operands = argument_operands(alloc, context, targets, results)?;
    return_values(asm, &context.frame, operands.as_slice(), exit)
}

/// The label of the procedure that an operand names.
pub(crate) fn named_label(context: &Context, targets: &Targets, callee: Operand) -> Option<Label>
    requires { IsTrue (has_operand context.now targets.now callee) }
    ensures { IfSome result (IsNamed targets.now callee) }
{
    let Operand::Constant(constant) = callee else {
        return None;
    };
    let Constant::Code { proc, plus } = constant else {
        return None;
    };
    if plus == 0 {
        return Some(named_at(targets.procedures.as_slice(), proc));
    }
    None
}

/// Goes to a procedure in the caller's place, by its label.
fn jump_to_label(
    asm: &mut Asm,
    alloc: Global,
    context: &Context,
    targets: &Targets,
    callee: Operand,
    arguments: &[Argument],
    to: Label,
) -> Result<(), AllocError>
    requires ready { IsReady asm.old.labels context.now targets.now }
    requires goes { IsTrue (can_go_to context.now targets.now callee arguments.now) }
    requires named { IsNamed targets.now callee to }
    ensures code { OnOk result (Adds (jump_to_cost context.now targets.now arguments.now) asm.old.parts asm.new.parts (CodesNode context.now targets.now (kind.Jump callee arguments.now))) }
    ensures labels { asm.new.labels ≡ asm.old.labels }
{
    let operands = argument_operands(alloc, context, targets, arguments)?;
    jump(asm, &context.frame, operands.as_slice(), to)
}

/// Goes to the procedure whose address an operand gives, in the caller's place.
fn jump_to_operand(
    asm: &mut Asm,
    alloc: Global,
    context: &Context,
    targets: &Targets,
    callee: Operand,
    arguments: &[Argument],
) -> Result<(), AllocError>
    requires ready { IsReady asm.old.labels context.now targets.now }
    requires goes { IsTrue (can_go_to context.now targets.now callee arguments.now) }
    ensures code { OnOk result (Adds (jump_to_cost context.now targets.now arguments.now) asm.old.parts asm.new.parts (CodesNode context.now targets.now (kind.Jump callee arguments.now))) }
    ensures labels { asm.new.labels ≡ asm.old.labels }
{
    let operands = argument_operands(alloc, context, targets, arguments)?;
    let to = code_operand(context, targets, callee);
    jump_by(asm, &context.frame, &to, operands.as_slice())
}

/// Goes to a procedure in the caller's place.
pub(crate) fn jump_body(
    asm: &mut Asm,
    alloc: Global,
    context: &Context,
    targets: &Targets,
    callee: Operand,
    arguments: &[Argument],
) -> Result<(), AllocError>
    requires ready { IsReady asm.old.labels context.now targets.now }
    requires goes { IsTrue (can_go_to context.now targets.now callee arguments.now) }
    ensures code { OnOk result (Adds (jump_to_cost context.now targets.now arguments.now) asm.old.parts asm.new.parts (CodesNode context.now targets.now (kind.Jump callee arguments.now))) }
    ensures labels { asm.new.labels ≡ asm.old.labels }
{
    match named_label(context, targets, callee) {
        Some(to) => jump_to_label(asm, alloc, context, targets, callee, arguments, to),
        None => jump_to_operand(asm, alloc, context, targets, callee, arguments),
    }
}

/// Cuts to a continuation.
pub(crate) fn cut_body(
    asm: &mut Asm,
    alloc: Global,
    context: &Context,
    targets: &Targets,
    to: Operand,
    arguments: &[Argument],
) -> Result<(), AllocError>
    requires ready { IsReady asm.old.labels context.now targets.now }
    requires goes { IsTrue (can_go_to context.now targets.now to arguments.now) }
    ensures code { (own : List ContinuationId) → OnOk result (Adds (cut_cost context.now targets.now to arguments.now) asm.old.parts asm.new.parts (CodesNode context.now targets.now (kind.Cut to arguments.now own))) }
    ensures labels { asm.new.labels ≡ asm.old.labels }
{
    let operands = argument_operands(alloc, context, targets, arguments)?;
    let pair = code_operand(context, targets, to);
    cut(asm, &context.frame, &pair, operands.as_slice())
}
