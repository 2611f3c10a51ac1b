//! The code of yields. The values go out as those of a call do, and the unit's call of the client is called, so that register 1 tells the client the site.

ghost use Rattle.std.specs.Prelude.{◌≡◌, ◌+◌, ◌*◌, IsTrue, OnOk, Some, false, length, slice_get, slice_set, true};
ghost use Rattle.rv_asm.specs.Appending.{IsBehind};
ghost use Rattle.rv_asm.specs.declared.part.Meaning.TheVariants.{Inner};
ghost use Rattle.cmm_effects.specs.Pieces.{Adds};
ghost use Rattle.cmm_graph.specs.declared.node.NodeKind.TheVariants as kind;
ghost use Rattle.cmm_emit.specs.Costs.{yield_cost};
ghost use Rattle.cmm_emit.specs.Naming.{can_send, can_yield, has_site, site_label};
ghost use Rattle.cmm_emit.specs.Standing.{CodesWhole, CodesYield, IsReady};

use crate::calling::lead_back;
use crate::context::{Context, Targets};
use crate::operand::code_operands;
use cmm_calls::call;
use cmm_graph::{Exits, Operand, SiteId};
use rv_asm::Asm;
use std::alloc::{AllocError, Global};

/// Yields values to the client. The site gets its place behind.
fn yield_values(
    asm: &mut Asm,
    alloc: Global,
    context: &Context,
    targets: &Targets,
    site: SiteId,
    values: &[Operand],
) -> Result<(), AllocError>
    requires ready { IsReady asm.old.labels context.now targets.now }
    requires values { IsTrue (can_send context.now targets.now values.now) }
    requires site { IsTrue (has_site context.now site) }
    requires waits { slice_get asm.old.labels (site_label context.now site).number ≡ Some (Inner false) }
    ensures code { OnOk result (Adds (12 * length values.now + 2) asm.old.parts asm.new.parts (CodesYield context.now targets.now site values.now)) }
    ensures labels { OnOk result (asm.new.labels ≡ slice_set asm.old.labels (site_label context.now site).number (Inner true)) }
    ensures behind { OnOk result (IsBehind (site_label context.now site) 0 asm.new.parts) }
{
    let operands = code_operands(alloc, context, targets, values)?;
    let back = context.sites.as_slice()[site.number as usize];
    call(
        asm,
        &context.frame,
        operands.as_slice(),
        targets.client,
        back,
    )?;
    Ok(())
}

/// Yields values to the client, up to where control goes on by the normal exit.
pub(crate) fn yield_body(
    asm: &mut Asm,
    alloc: Global,
    context: &Context,
    targets: &Targets,
    site: SiteId,
    values: &[Operand],
    exits: &Exits,
) -> Result<(), AllocError>
    requires ready { IsReady asm.old.labels context.now targets.now }
    requires yields { IsTrue (can_yield context.now targets.now site values.now exits.now) }
    requires waits { slice_get asm.old.labels (site_label context.now site).number ≡ Some (Inner false) }
    ensures code { OnOk result (Adds (yield_cost context.now targets.now values.now exits.now) asm.old.parts asm.new.parts (CodesWhole context.now targets.now (kind.Yield site values.now exits.now))) }
    ensures labels { OnOk result (asm.new.labels ≡ slice_set asm.old.labels (site_label context.now site).number (Inner true)) }
    ensures behind { OnOk result (IsBehind (site_label context.now site) (length exits.now.returns) asm.new.parts) }
{
    yield_values(asm, alloc, context, targets, site, values)?;
    lead_back(asm, alloc, context, targets, exits)
}
