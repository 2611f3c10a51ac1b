//! The code of each kind of node, up to where control goes on at the node that it falls to. Each function's clause says what cmm_emit_laws requires of
//! the node's code, whatever the node is to which it falls. An error is want of memory, and then some of the instructions may be there.

ghost use Rattle.std.specs.Prelude.{◌≡◌, ◌-◌, IsTrue, OnOk, false};
ghost use Rattle.std.specs.List.{list_all};
ghost use Rattle.cmm_graph.specs.declared.number.NodeId.{NodeId};
ghost use Rattle.cmm_graph.specs.declared.node.NodeKind.TheVariants as kind;
ghost use Rattle.cmm_graph.specs.declared.node.HostCall.TheVariants as host;
ghost use Rattle.cmm_effects.specs.Pieces.{Adds};
ghost use Rattle.cmm_emit.specs.Naming.{has_arm, has_both, has_call, has_kind, has_node, has_operand, has_target};
ghost use Rattle.cmm_emit.specs.Costs.{branch_cost, cost_of, host_cost, jump_of, store_cost, switch_cost};
ghost use Rattle.cmm_emit.specs.Standing.{CanWait, CodesNode, CodesOwn, IsReady, SiteStands, inner_count, labels_with};
ghost use Rattle.cmm_select.specs.Switches.{MakesInner, ranges_in};

use crate::assign::assign_body;
use crate::calling::call_body;
use crate::context::{Context, Targets};
use crate::operand::{code_operand, target_destination};
use crate::transfer::{copy_in_body, cut_body, entry_body, jump_body, return_body};
use crate::yielding::yield_body;
use cmm_graph::{Arm, Comparison, HostCall, NodeId, NodeKind, Operand};
use cmm_program::Target;
use cmm_select::{decide, get_byte, put_byte, stop, store, switch};
use cmm_words::Width;
use rv_asm::Asm;
use std::alloc::{AllocError, Global};

/// Goes by a comparison: to `then` where it holds.
fn branch_body(
    asm: &mut Asm,
    context: &Context,
    targets: &Targets,
    test: &Comparison,
    then: NodeId,
) -> Result<(), AllocError>
    requires ready { IsReady asm.old.labels context.now targets.now }
    requires test { IsTrue (has_both context.now targets.now test.now) }
    requires then { IsTrue (has_node context.now then) }
    ensures code { (otherwise : NodeId) → OnOk result (Adds (branch_cost context.now targets.now test.now) asm.old.parts asm.new.parts (CodesNode context.now targets.now (kind.Branch test.now then otherwise))) }
    ensures labels { asm.new.labels ≡ asm.old.labels }
{
    let left = code_operand(context, targets, test.left);
    let right = code_operand(context, targets, test.right);
    let label = context.nodes.as_slice()[then.number as usize];
    decide(asm, test.operator, test.width, &left, &right, label)
}

/// Goes by the arms of a switch.
fn switch_body(
    asm: &mut Asm,
    context: &Context,
    targets: &Targets,
    value: Operand,
    arms: &[Arm],
) -> Result<(), AllocError>
    requires ready { IsReady asm.old.labels context.now targets.now }
    requires value { IsTrue (has_operand context.now targets.now value) }
    requires arms { IsTrue (list_all (has_arm context.now targets.now) arms.now) }
    ensures code { (otherwise : NodeId) → OnOk result (Adds (switch_cost context.now targets.now value arms.now) asm.old.parts asm.new.parts (CodesNode context.now targets.now (kind.Switch value arms.now otherwise))) }
    ensures labels { OnOk result (MakesInner (ranges_in arms.now) asm.old.labels asm.new.labels) }
{
    let operand = code_operand(context, targets, value);
    switch(asm, &operand, arms, context.nodes.as_slice())
}

/// Stores a word at an address that is a multiple of `aligned` bytes.
fn store_body(
    asm: &mut Asm,
    context: &Context,
    targets: &Targets,
    width: Width,
    aligned: u32,
    address: Operand,
    value: Operand,
) -> Result<(), AllocError>
    requires ready { IsReady asm.old.labels context.now targets.now }
    requires address { IsTrue (has_operand context.now targets.now address) }
    requires value { IsTrue (has_operand context.now targets.now value) }
    ensures code { (next : NodeId) → OnOk result (Adds (store_cost context.now targets.now width aligned address value) asm.old.parts asm.new.parts (CodesNode context.now targets.now (kind.Store width aligned address value next))) }
    ensures labels { asm.new.labels ≡ asm.old.labels }
{
    let to = code_operand(context, targets, address);
    let stored = code_operand(context, targets, value);
    store(asm, width, aligned, &to, &stored)
}

/// Puts the low byte of a value.
fn put_byte_body(
    asm: &mut Asm,
    context: &Context,
    targets: &Targets,
    value: Operand,
) -> Result<(), AllocError>
    requires ready { IsReady asm.old.labels context.now targets.now }
    requires value { IsTrue (has_operand context.now targets.now value) }
    ensures code { (next : NodeId) → OnOk result (Adds (host_cost context.now targets.now (host.PutByte value)) asm.old.parts asm.new.parts (CodesNode context.now targets.now (kind.Host (host.PutByte value) next))) }
    ensures labels { asm.new.labels ≡ asm.old.labels }
{
    let operand = code_operand(context, targets, value);
    put_byte(asm, &operand)
}

/// Ends a run that has gone wrong, at the end of a body.
fn stop_body(asm: &mut Asm, context: &Context, targets: &Targets) -> Result<(), AllocError>
    ensures code { OnOk result (Adds 1 asm.old.parts asm.new.parts (CodesNode context.now targets.now kind.Stop)) }
    ensures labels { asm.new.labels ≡ asm.old.labels }
{
    stop(asm)
}

/// Takes the next byte of the input.
fn get_byte_body(
    asm: &mut Asm,
    context: &Context,
    targets: &Targets,
    to: Target,
) -> Result<(), AllocError>
    requires ready { IsReady asm.old.labels context.now targets.now }
    requires to { IsTrue (has_target context.now targets.now to) }
    ensures code { (next : NodeId) → OnOk result (Adds 7 asm.old.parts asm.new.parts (CodesNode context.now targets.now (kind.Host (host.GetByte to) next))) }
    ensures labels { asm.new.labels ≡ asm.old.labels }
{
    let into = target_destination(context, targets, to);
    get_byte(asm, &into)
}

/// The code of a foreign call.
fn host_body(
    asm: &mut Asm,
    context: &Context,
    targets: &Targets,
    call: &HostCall,
) -> Result<(), AllocError>
    requires ready { IsReady asm.old.labels context.now targets.now }
    requires call { IsTrue (has_call context.now targets.now call.now) }
    ensures code { (next : NodeId) → OnOk result (Adds (host_cost context.now targets.now call.now) asm.old.parts asm.new.parts (CodesNode context.now targets.now (kind.Host call.now next))) }
    ensures labels { asm.new.labels ≡ asm.old.labels }
{
    match *call {
        HostCall::PutByte(value) => put_byte_body(asm, context, targets, value),
        HostCall::GetByte(to) => get_byte_body(asm, context, targets, to),
    }
}

/// The code of a node, up to where control goes on at the node to which it falls: none of one that only goes on.
pub(crate) fn body(
    asm: &mut Asm,
    alloc: Global,
    context: &Context,
    targets: &Targets,
    kind: &NodeKind,
) -> Result<(), AllocError>
    requires ready { IsReady asm.old.labels context.now targets.now }
    requires kind { IsTrue (has_kind context.now targets.now kind.now) }
    requires waits { CanWait context.now kind.now asm.old.labels }
    ensures code { OnOk result (Adds (cost_of context.now targets.now kind.now - jump_of kind.now) asm.old.parts asm.new.parts (CodesOwn context.now targets.now kind.now)) }
    ensures labels { OnOk result (MakesInner (inner_count kind.now) (labels_with context.now kind.now asm.old.labels) asm.new.labels) }
    ensures stands { OnOk result (SiteStands false context.now kind.now asm.new.parts) }
{
    match kind {
        NodeKind::Entry { formals, .. } => {
            entry_body(asm, alloc, context, targets, formals.as_slice())
        }
        NodeKind::CopyIn { to, .. } => copy_in_body(asm, alloc, context, targets, to.as_slice()),
        NodeKind::Assign { to, value, .. } => assign_body(asm, context, targets, to, value),
        NodeKind::Store {
            width,
            aligned,
            address,
            value,
            ..
        } => store_body(asm, context, targets, *width, *aligned, *address, *value),
        NodeKind::Branch { test, then, .. } => branch_body(asm, context, targets, test, *then),
        NodeKind::Switch { value, arms, .. } => {
            switch_body(asm, context, targets, *value, arms.as_slice())
        }
        NodeKind::Call {
            site,
            callee,
            arguments,
            exits,
        } => {
            call_body(
                asm,
                alloc,
                context,
                targets,
                *site,
                *callee,
                arguments.as_slice(),
                exits.get(),
            )
        }
        NodeKind::Yield {
            site,
            values,
            exits,
        } => {
            yield_body(
                asm,
                alloc,
                context,
                targets,
                *site,
                values.as_slice(),
                exits.get(),
            )
        }
        NodeKind::Jump { callee, arguments } => {
            jump_body(asm, alloc, context, targets, *callee, arguments.as_slice())
        }
        NodeKind::Cut { to, arguments, .. } => {
            cut_body(asm, alloc, context, targets, *to, arguments.as_slice())
        }
        NodeKind::Return { exit, results, .. } => {
            return_body(asm, alloc, context, targets, *exit, results.as_slice())
        }
        NodeKind::Host { call, .. } => host_body(asm, context, targets, call),
        NodeKind::Goto { .. } => Ok(()),
        NodeKind::Stop => stop_body(asm, context, targets),
    }
}
