//! The code of calls, and of the exits by which control comes back to a site.

ghost use Rattle.std.specs.Prelude.{◌≡◌, ◌+◌, ◌*◌, IsTrue, OnOk, Some, false, length, slice_get, slice_set, true};
ghost use Rattle.std.specs.List.{list_all};
ghost use Rattle.cmm_effects.specs.Pieces.{Adds};
ghost use Rattle.rv_asm.specs.Assembly.{IsTarget};
ghost use Rattle.rv_asm.specs.declared.part.Meaning.TheVariants.{Inner};
ghost use Rattle.cmm_calls.specs.Calls.{HasExits, exits_cost};
ghost use Rattle.rv_asm.specs.Appending.{AddsWords, IsBehind};
ghost use Rattle.cmm_graph.specs.declared.node.NodeKind.TheVariants as kind;
ghost use Rattle.cmm_graph.specs.declared.operand.Operand.{Operand as NodeOperand};
ghost use Rattle.cmm_emit.specs.Costs.{call_cost, callee_cost};
ghost use Rattle.cmm_emit.specs.Naming.{IsNamed, argument_operands, can_call, can_come_back, can_give, can_go_to, has_argument, has_site, landing_labels, site_label};
ghost use Rattle.cmm_emit.specs.Standing.{CodesCall, CodesWhole, IsReady, LeadsBack};

use crate::context::{Context, Targets};
use crate::operand::{argument_operands, code_operand, landing_labels};
use crate::transfer::named_label;
use cmm_calls::{call, call_by, lay_exits};
use cmm_graph::{Argument, Exits, Operand, SiteId};
use cmm_select::stop;
use rv_asm::{Asm, Label};
use std::alloc::{AllocError, Global};

/// Calls a procedure by its label. The site gets its place behind.
fn call_label(
    asm: &mut Asm,
    alloc: Global,
    context: &Context,
    targets: &Targets,
    arguments: &[Argument],
    to: Label,
    site: SiteId,
) -> Result<(), AllocError>
    requires ready { IsReady asm.old.labels context.now targets.now }
    requires arguments { IsTrue (list_all (has_argument context.now targets.now) arguments.now) }
    requires gives { IsTrue (can_give context.now targets.now (argument_operands context.now targets.now arguments.now)) }
    requires target { IsTarget asm.old.labels to }
    requires site { IsTrue (has_site context.now site) }
    requires waits { slice_get asm.old.labels (site_label context.now site).number ≡ Some (Inner false) }
    ensures code { (callee : NodeOperand) → IsNamed targets.now callee to → OnOk result (Adds (12 * length arguments.now + callee_cost) asm.old.parts asm.new.parts (CodesCall context.now targets.now site callee arguments.now)) }
    ensures labels { OnOk result (asm.new.labels ≡ slice_set asm.old.labels (site_label context.now site).number (Inner true)) }
    ensures behind { OnOk result (IsBehind (site_label context.now site) 0 asm.new.parts) }
{
    let operands = argument_operands(alloc, context, targets, arguments)?;
    let back = context.sites.as_slice()[site.number as usize];
    call(asm, &context.frame, operands.as_slice(), to, back)
}

/// Calls the procedure whose address an operand gives. The site gets its place behind.
fn call_operand(
    asm: &mut Asm,
    alloc: Global,
    context: &Context,
    targets: &Targets,
    callee: Operand,
    arguments: &[Argument],
    site: SiteId,
) -> Result<(), AllocError>
    requires ready { IsReady asm.old.labels context.now targets.now }
    requires goes { IsTrue (can_go_to context.now targets.now callee arguments.now) }
    requires site { IsTrue (has_site context.now site) }
    requires waits { slice_get asm.old.labels (site_label context.now site).number ≡ Some (Inner false) }
    ensures code { OnOk result (Adds (12 * length arguments.now + callee_cost) asm.old.parts asm.new.parts (CodesCall context.now targets.now site callee arguments.now)) }
    ensures labels { OnOk result (asm.new.labels ≡ slice_set asm.old.labels (site_label context.now site).number (Inner true)) }
    ensures behind { OnOk result (IsBehind (site_label context.now site) 0 asm.new.parts) }
{
    let operands = argument_operands(alloc, context, targets, arguments)?;
    let to = code_operand(context, targets, callee);
    let back = context.sites.as_slice()[site.number as usize];
    call_by(asm, &context.frame, &to, operands.as_slice(), back)
}

/// Calls a procedure. The site gets its place behind.
fn call_callee(
    asm: &mut Asm,
    alloc: Global,
    context: &Context,
    targets: &Targets,
    callee: Operand,
    arguments: &[Argument],
    site: SiteId,
) -> Result<(), AllocError>
    requires ready { IsReady asm.old.labels context.now targets.now }
    requires goes { IsTrue (can_go_to context.now targets.now callee arguments.now) }
    requires site { IsTrue (has_site context.now site) }
    requires waits { slice_get asm.old.labels (site_label context.now site).number ≡ Some (Inner false) }
    ensures code { OnOk result (Adds (12 * length arguments.now + callee_cost) asm.old.parts asm.new.parts (CodesCall context.now targets.now site callee arguments.now)) }
    ensures labels { OnOk result (asm.new.labels ≡ slice_set asm.old.labels (site_label context.now site).number (Inner true)) }
    ensures behind { OnOk result (IsBehind (site_label context.now site) 0 asm.new.parts) }
{
    match named_label(context, targets, callee) {
        Some(to) => call_label(asm, alloc, context, targets, arguments, to, site),
        None => call_operand(asm, alloc, context, targets, callee, arguments, site),
    }
}

/// Leads from a site on, to the landings of the alternate exits. An error is want of memory, and nothing is changed.
fn lay_landings(
    asm: &mut Asm,
    alloc: Global,
    context: &Context,
    targets: &Targets,
    exits: &Exits,
) -> Result<(), AllocError>
    requires ready { IsReady asm.old.labels context.now targets.now }
    requires exits { IsTrue (can_come_back context.now exits.now) }
    ensures exits { OnOk result (Adds (exits_cost (length exits.now.returns)) asm.old.parts asm.new.parts (HasExits (landing_labels context.now exits.now.returns))) }
    ensures words { OnOk result (AddsWords (length exits.now.returns) asm.old.parts asm.new.parts) }
    ensures labels { asm.new.labels ≡ asm.old.labels }
{
    let landings = landing_labels(alloc, context, exits.returns.as_slice())?;
    lay_exits(asm, landings.as_slice())
}

/// Leads from a site on: to the landings of the alternate exits, and by the normal one to where the code goes on. Where there is no normal exit, a
/// run that takes it has gone wrong, and ends.
pub(crate) fn lead_back(
    asm: &mut Asm,
    alloc: Global,
    context: &Context,
    targets: &Targets,
    exits: &Exits,
) -> Result<(), AllocError>
    requires ready { IsReady asm.old.labels context.now targets.now }
    requires exits { IsTrue (can_come_back context.now exits.now) }
    ensures leads { OnOk result (Adds (exits_cost (length exits.now.returns) + 1) asm.old.parts asm.new.parts (LeadsBack context.now exits.now)) }
    ensures words { OnOk result (AddsWords (length exits.now.returns) asm.old.parts asm.new.parts) }
    ensures labels { asm.new.labels ≡ asm.old.labels }
{
    lay_landings(asm, alloc, context, targets, exits)?;
    match exits.normal {
        Some(_) => Ok(()),
        None => stop(asm),
    }
}

/// Calls a procedure, up to where control goes on by the normal exit.
pub(crate) fn call_body(
    asm: &mut Asm,
    alloc: Global,
    context: &Context,
    targets: &Targets,
    site: SiteId,
    callee: Operand,
    arguments: &[Argument],
    exits: &Exits,
) -> Result<(), AllocError>
    requires ready { IsReady asm.old.labels context.now targets.now }
    requires calls { IsTrue (can_call context.now targets.now site callee arguments.now exits.now) }
    requires waits { slice_get asm.old.labels (site_label context.now site).number ≡ Some (Inner false) }
    ensures code { OnOk result (Adds (call_cost context.now targets.now arguments.now exits.now) asm.old.parts asm.new.parts (CodesWhole context.now targets.now (kind.Call site callee arguments.now exits.now))) }
    ensures labels { OnOk result (asm.new.labels ≡ slice_set asm.old.labels (site_label context.now site).number (Inner true)) }
    ensures behind { OnOk result (IsBehind (site_label context.now site) (length exits.now.returns) asm.new.parts) }
{
    call_callee(asm, alloc, context, targets, callee, arguments, site)?;
    lead_back(asm, alloc, context, targets, exits)
}
