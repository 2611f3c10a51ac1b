//! The spans in force, by ascending tokens.

ghost use Rattle.std.specs.Prelude.{◌≡◌, ◌++◌, ℕ, ◌∷◌, IfOk, OnOk};
ghost use Rattle.cmm_elaboration.specs.Sites as meaning;

use cmm_items::Items;
use cmm_words::Constant;
use std::alloc::{AllocError, Global};

/// A span in force: its token and its value.
pub type SpanValue = (u64, Constant);

fn add_all(spans: &[SpanValue], to: &mut Items<SpanValue>) -> Result<(), AllocError>
    ensures { OnOk result (to.new ≡ to.old ++ spans.now) }
{
    for span in spans {
        to.push(*span)?;
    }
    Ok(())
}

/// Adds the spans in force inside one more span.
fn add_with(
    span: SpanValue,
    around: &[SpanValue],
    to: &mut Items<SpanValue>,
) -> Result<(), AllocError>
    ensures { OnOk result (to.new ≡ to.old ++ meaning.with_span span around.now) }
{
    match around {
        [] => Ok(to.push(span)?),
        [first, rest @ ..] => {
            if span.0 < first.0 {
                to.push(span)?;
                add_all(around, to)
            } else if span.0 == first.0 {
                to.push(span)?;
                add_all(rest, to)
            } else {
                to.push(*first)?;
                add_with(span, rest, to)
            }
        }
    }
}

/// The spans in force inside one more span, which takes the place of one of its own token. Fails only for want of memory.
#[inline(never)]
pub(crate) fn with_span(
    alloc: Global,
    span: SpanValue,
    around: &[SpanValue],
) -> Result<Items<SpanValue>, AllocError>
    ensures { IfOk result (λ inside. inside ≡ meaning.with_span span around.now) }
{
    let mut inside = Items::new(alloc);
    add_with(span, around, &mut inside)?;
    Ok(inside)
}

/// The innermost span of each token, of spans the innermost first. Fails only for want of memory.
pub(crate) fn innermost(alloc: Global, spans: &[SpanValue]) -> Result<Items<SpanValue>, AllocError>
    ensures { IfOk result (λ inside. inside ≡ meaning.innermost spans.now) }
{
    let mut inside = Items::new(alloc);
    for index in (0..spans.len()).rev() {
        inside = with_span(alloc, spans[index], inside.as_slice())?;
    }
    Ok(inside)
}
