//! Ranges with the labels to which a switch goes for their numbers.

ghost use Rattle.std.specs.Prelude.{◌≡◌, ◌≤◌, ◌+◌, ◌++◌, ◌<◌, length, map, true, false, IfOk, IfNone, IfSome, OnOk};
ghost use Rattle.std.specs.List.{All};
ghost use Rattle.std.specs.List.Sorted.{IsPermutation};
ghost use Rattle.cmm_select.specs.Switches.{AreApart};
ghost use Rattle.cmm_select.specs.inside.Searches.{ascend, behind, first_of, is_run, range_of, spans_in, spans_of};

use cmm_graph::Arm;
use cmm_program::Range;
use rv_asm::{Label, TABLE_LIMIT};
use std::alloc::{AllocError, Global};

/// Numbers from one to another, with the label to which a switch goes for each of them.
#[derive(Clone, Copy)]
pub(crate) struct Span {
    pub from: u64,
    pub to: u64,
    pub label: Label,
}

/// Adds ranges that have a label.
fn add_spans(spans: &mut Vec<Span>, ranges: &[Range], label: Label) -> Result<(), AllocError>
    ensures { OnOk result (spans.new.items ≡ spans.old.items ++ spans_in label ranges.now) }
{
    for range in ranges {
        spans.push(Span {
            from: range.from,
            to: range.to,
            label,
        })?;
    }
    Ok(())
}

/// The ranges of arms, each with the label of the node to which its arm leads.
pub(crate) fn spans_of(
    alloc: Global,
    arms: &[Arm],
    labels: &[Label],
) -> Result<Vec<Span>, AllocError>
    requires { All (λ arm. arm.to.number < length labels.now) arms.now }
    ensures { IfOk result (λ spans. spans.items ≡ spans_of labels.now arms.now) }
{
    let mut spans = Vec::new(alloc);
    for arm in arms {
        add_spans(
            &mut spans,
            arm.ranges.as_slice(),
            labels[arm.to.number as usize],
        )?;
    }
    Ok(spans)
}

/// Whether no span is empty and each begins behind the one before it.
fn ascend(spans: &[Span]) -> bool
    ensures { result ≡ ascend 0 spans.now }
{
    let mut least: u128 = 0;
    for span in spans {
        if u128::from(span.from) < least || span.to < span.from {
            return false;
        }
        least = u128::from(span.to) + 1;
    }
    true
}

/// Spans in ascending order, or nothing where one is empty or two meet.
pub(crate) fn in_order(alloc: Global, spans: &[Span]) -> Result<Option<Vec<Span>>, AllocError>
    ensures found { IfOk result (λ found. IfSome found (λ ordered. IsPermutation spans.now ordered.items × ascend 0 ordered.items ≡ true)) }
    ensures none { IfOk result (λ found. IfNone found (AreApart (map range_of spans.now) → ⊥)) }
{
    let mut ordered = spans.to_vec(alloc)?;
    ordered.sort_by_key(|span| span.from)?;
    if !ascend(&ordered) {
        return Ok(None);
    }
    Ok(Some(ordered))
}

/// From so many numbers on spans are one table, which takes eleven instructions for each: by halves the slowest of sixteen takes twelve.
const LEAST_JUMPS: usize = 16;

/// What is one behind the last number of spans that ascend, where these are of one number each, which follow one another, and a table has room for
/// them and is worth its instructions.
pub(crate) fn end_of_run(spans: &[Span]) -> Option<u64>
    requires { ascend 0 spans.now ≡ true }
    ensures none { IfNone result (is_run spans.now ≡ false) }
    ensures some { IfSome result (λ end. (LEAST_JUMPS ≤ length spans.now) × (length spans.now ≤ TABLE_LIMIT) × (end ≡ behind 0 spans.now) × (end ≡ first_of spans.now + length spans.now)) }
{
    let [first, .., last] = spans else {
        return None;
    };
    let count = spans.len();
    if count < LEAST_JUMPS {
        return None;
    }
    if count > TABLE_LIMIT {
        return None;
    }
    if last.to - first.from >= count as u64 {
        return None;
    }
    if last.to == u64::MAX {
        return None;
    }
    Some(last.to + 1)
}
