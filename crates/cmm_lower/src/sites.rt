//! Call sites, with their annotations and the spans in force at them (C-- Language Specification 2.0, call-site annotations and spans).

ghost use Rattle.std.specs.Prelude.{◌≡◌, ◌<◌, ◌^◌, ◌∷◌, ◌++◌, [], length, map, Option, Some, IfOk, OnOk};
ghost use Rattle.std.specs.List.{list_any};
ghost use Rattle.cmm_static_semantics.specs.Scopes.{senses};
ghost use Rattle.cmm_lower.specs.Fitting.{FlowsFit, FormFits};
ghost use Rattle.cmm_elaboration.specs.Resolving as resolving;
ghost use Rattle.cmm_elaboration.specs.Sites as meaning;
ghost use Rattle.cmm_proc_scope.specs.Bodies.{scope_of_body};

use crate::exits::{Exits, continuations_by};
use crate::spans::SpanValue;
use cmm_ast::{Actual, Callee, Flow, FlowForm, Ident, Kinded, StmtForm};
use cmm_check_procedure::foreign_callee;
use cmm_items::Items;
use cmm_lower_parts::target_of;
use cmm_proc_scope::BodyNames;
use cmm_program::{Site, Target};
use cmm_static_semantics::Host;
use cmm_typing::Names;
use std::alloc::{AllocError, Global};

fn is_aborts(flow: &Flow) -> bool
    ensures { result ≡ meaning.is_aborts flow.now }
{
    matches!(flow.form, FlowForm::Aborts)
}

fn is_never(flow: &Flow) -> bool
    ensures { result ≡ meaning.is_never flow.now }
{
    matches!(flow.form, FlowForm::NeverReturns)
}

fn has_aborts(flows: &[Flow]) -> bool
    ensures { result ≡ list_any meaning.is_aborts flows.now }
{
    flows.iter().any(|flow| is_aborts(flow))
}

fn has_never(flows: &[Flow]) -> bool
    ensures { result ≡ list_any meaning.is_never flows.now }
{
    flows.iter().any(|flow| is_never(flow))
}

/// A call site with these results and annotations, and the values that it yields, if it does.
pub(crate) fn site_with<'a, N: Names>(
    alloc: Global,
    names: &BodyNames<'a, N>,
    results: Items<Target>,
    yield_values: Option<u8>,
    flows: &[Flow],
    spans: &[SpanValue],
) -> Result<Site, AllocError>
    ensures { FlowsFit (scope_of_body N.senses names.now) flows.now →
        IfOk result (λ site. site ≡ meaning.site_with (scope_of_body N.senses names.now) results yield_values flows.now spans.now) }
{
    let returns = continuations_by(alloc, names, Exits::Returns, flows)?;
    let unwinds = continuations_by(alloc, names, Exits::Unwinds, flows)?;
    let cuts = continuations_by(alloc, names, Exits::Cuts, flows)?;
    let spans = Items::from_slice(alloc, spans)?;
    Ok(Site {
        results,
        returns,
        unwinds,
        cuts,
        aborts: has_aborts(flows),
        never: has_never(flows),
        yield_values,
        spans,
    })
}

/// The variables and registers that take results.
pub(crate) fn results_of<'a, N: Names>(
    alloc: Global,
    names: &BodyNames<'a, N>,
    results: &[Kinded],
) -> Result<Items<Target>, AllocError>
    ensures { IfOk result (λ targets. targets ≡ map (λ k. resolving.target_of (senses (scope_of_body N.senses names.now)) k.name) results.now) }
{
    let mut targets = Items::new(alloc);
    for taken in results {
        targets.push(target_of(names, &taken.name))?;
    }
    Ok(targets)
}

/// Whether `yield` is called.
pub(crate) fn is_yield<'a, N: Names>(names: &BodyNames<'a, N>, callee: &Callee) -> bool
    ensures { result ≡ meaning.is_yield (scope_of_body N.senses names.now) callee.now }
{
    matches!(foreign_callee(names, callee), Some(Host::Yield))
}

/// How many values a call yields, if it does.
pub(crate) fn yielded_by<'a, N: Names>(
    names: &BodyNames<'a, N>,
    callee: &Callee,
    actuals: &[Actual],
) -> Option<u8>
    ensures { length actuals.now < 2 ^ 8 → result ≡ meaning.yielded_by (scope_of_body N.senses names.now) callee.now actuals.now }
{
    if is_yield(names, callee) {
        Some(u8::try_from(actuals.len()).unwrap_or(u8::MAX))
    } else {
        None
    }
}

/// The site of a call within C--.
fn call_site<'a, N: Names>(
    alloc: Global,
    names: &BodyNames<'a, N>,
    results: &[Kinded],
    callee: &Callee,
    actuals: &[Actual],
    flows: &[Flow],
    spans: &[SpanValue],
) -> Result<Site, AllocError>
    ensures { FlowsFit (scope_of_body N.senses names.now) flows.now → length actuals.now < 2 ^ 8 → IfOk result (λ site. site ≡
        meaning.site_with (scope_of_body N.senses names.now) (map (λ k. resolving.target_of (senses (scope_of_body N.senses names.now)) k.name) results.now)
        (meaning.yielded_by (scope_of_body N.senses names.now) callee.now actuals.now) flows.now spans.now) }
{
    let targets = results_of(alloc, names, results)?;
    let yielded = yielded_by(names, callee, actuals);
    site_with(alloc, names, targets, yielded, flows, spans)
}

/// The site of a checked operator, which yields one value.
fn checked_site<'a, N: Names>(
    alloc: Global,
    names: &BodyNames<'a, N>,
    taken: &Ident,
    flows: &[Flow],
    spans: &[SpanValue],
) -> Result<Site, AllocError>
    ensures { FlowsFit (scope_of_body N.senses names.now) flows.now → IfOk result (λ site. site ≡
        meaning.site_with (scope_of_body N.senses names.now) (resolving.target_of (senses (scope_of_body N.senses names.now)) taken.now ∷ []) (Some 1) flows.now spans.now) }
{
    let mut targets = Items::new(alloc);
    targets.push(target_of(names, taken))?;
    site_with(alloc, names, targets, Some(1), flows, spans)
}

/// Adds the site of a statement that is a call site. Fails only for want of memory.
#[inline(never)]
pub(crate) fn add_site<'a, N: Names>(
    alloc: Global,
    names: &BodyNames<'a, N>,
    form: &StmtForm,
    spans: &[SpanValue],
    to: &mut Items<Site>,
) -> Result<(), AllocError>
    ensures { OnOk result (FormFits (scope_of_body N.senses names.now) form.now →
        to.new ≡ to.old ++ meaning.form_sites (scope_of_body N.senses names.now) spans.now form.now) }
{
    match form {
        StmtForm::Call {
            results,
            convention,
            callee,
            actuals,
            flows,
        } => match convention {
            Some(_) => Ok(()),
            None => {
                let (taken, passed) = (results.as_slice(), actuals.as_slice());
                let flows = flows.as_slice();
                to.push(call_site(alloc, names, taken, callee, passed, flows, spans)?)?;
                Ok(())
            }
        },
        StmtForm::Checked { result, flows, .. } => {
            to.push(checked_site(alloc, names, result, flows.as_slice(), spans)?)?;
            Ok(())
        }
        _ => Ok(()),
    }
}
