//! The code that looks for the span of a value: one by one among few, by a table for numbers that follow one another, and else by halves, in a time that
//! grows with the logarithm of their number.

ghost use Rattle.std.specs.Prelude.{◌≡◌, ℕ, ◌+◌, ◌-◌, ◌*◌, ◌<◌, ◌≤◌, ◌^◌, ◌++◌, length, map, true, IfOk, OnOk};
ghost use Rattle.std.specs.List.{All};
ghost use Rattle.rv_asm.specs.Assembly.{IsInner};
ghost use Rattle.rv_asm.specs.declared.part.TheConstants.{TABLE_LIMIT};
ghost use Rattle.cmm_effects.specs.Pieces.{Adds};
ghost use Rattle.cmm_select.specs.Switches.{MakesInner};
ghost use Rattle.cmm_select.specs.inside.Searches.{GoesInSpan, GoesInSpans, Searches, GoesFrom, ascend, behind, first_of, is_run};

use crate::immediates::measure;
use crate::jump_table::jump_by_table;
use crate::number::load_constant;
use crate::span::{Span, end_of_run};
use cmm_abi::registers::{FIRST_SCRATCH, HELPER, SECOND_SCRATCH};
use cmm_words::Cmp;
use rv_asm::{Asm, Label};
use std::alloc::{AllocError, Global};

/// Among so many spans or fewer each is compared with the value.
const FEW: usize = 4;

/// The most labels that code has.
const MOST_LABELS: usize = 1 << 32;

/// Goes to the label of a span where that has the value in register 5: where it is the one number of it, or above the first number by no more than the
/// last one is.
fn branch_in_span(asm: &mut Asm, span: &Span) -> Result<(), AllocError>
    requires { IsInner asm.old.labels span.now.label }
    ensures goes { OnOk result (Adds 20 asm.old.parts asm.new.parts (GoesInSpan 20 span.now)) }
    ensures labels { asm.new.labels ≡ asm.old.labels }
{
    let Span { from, to, label } = *span;
    if to < from {
        return Ok(());
    }
    if to == from {
        load_constant(asm, from, SECOND_SCRATCH)?;
        return asm.branch(Cmp::Eq, FIRST_SCRATCH, SECOND_SCRATCH, label);
    }
    measure(asm, from)?;
    load_constant(asm, to - from, HELPER)?;
    asm.branch(Cmp::Geu, HELPER, SECOND_SCRATCH, label)
}

/// Goes to the label of the first span that has the value in register 5, by comparing it with each.
pub(crate) fn branch_in_spans(asm: &mut Asm, spans: &[Span]) -> Result<(), AllocError>
    requires { All (λ span. IsInner asm.old.labels span.label) spans.now }
    ensures goes { OnOk result (Adds (20 * length spans.now) asm.old.parts asm.new.parts (GoesInSpans (20 * length spans.now) spans.now)) }
    ensures labels { asm.new.labels ≡ asm.old.labels }
{
    for span in spans {
        branch_in_span(asm, span)?;
    }
    Ok(())
}

/// The labels of spans.
fn labels_of(alloc: Global, spans: &[Span]) -> Result<Vec<Label>, AllocError>
    ensures { IfOk result (λ labels. labels.items ≡ map (λ span. span.label) spans.now) }
{
    let mut labels = Vec::new(alloc);
    for span in spans {
        labels.push(span.label)?;
    }
    Ok(labels)
}

/// Goes to the label of the value in register 5 by a table, where spans are of one number each, and these follow one another up to one before `end`.
fn jump_in_spans(asm: &mut Asm, spans: &[Span], end: u64) -> Result<(), AllocError>
    requires some { 1 ≤ length spans.now }
    requires few { length spans.now ≤ TABLE_LIMIT }
    requires apart { ascend 0 spans.now ≡ true }
    requires behind { end ≡ behind 0 spans.now }
    requires run { end ≡ first_of spans.now + length spans.now }
    requires inner { All (λ span. IsInner asm.old.labels span.label) spans.now }
    ensures goes { OnOk result (Adds (20 * length spans.now) asm.old.parts asm.new.parts (GoesInSpans 20 spans.now)) }
    ensures labels { asm.new.labels ≡ asm.old.labels }
{
    let labels = labels_of(asm.alloc(), spans)?;
    jump_by_table(asm, end, &labels)
}

/// Goes to a label where the value in register 5 is a number or above it.
fn branch_from(asm: &mut Asm, number: u64, to: Label) -> Result<(), AllocError>
    requires { IsInner asm.old.labels to }
    ensures turns { OnOk result (Adds 11 asm.old.parts asm.new.parts (GoesFrom number to)) }
    ensures labels { asm.new.labels ≡ asm.old.labels }
{
    load_constant(asm, number, SECOND_SCRATCH)?;
    asm.branch(Cmp::Geu, FIRST_SCRATCH, SECOND_SCRATCH, to)
}

/// Goes to the label of the span that has the value in register 5, of spans that ascend, and to `end` where none has it: where they are many, the value
/// is compared with the first number of their upper half, and then looked for in one of the halves.
fn search(asm: &mut Asm, spans: &[Span], end: Label) -> Result<(), AllocError>
    requires some { 2 ≤ length spans.now }
    requires apart { ascend 0 spans.now ≡ true }
    requires room { length asm.old.labels + length spans.now ≤ 2 ^ 32 }
    requires inner { All (λ span. IsInner asm.old.labels span.label) spans.now }
    requires end { IsInner asm.old.labels end }
    ensures searches { OnOk result ((k : ℕ) → length spans.now ≤ 4 * 2 ^ k → Adds (27 * length spans.now - 11) asm.old.parts asm.new.parts (Searches (82 + 11 * k) spans.now end)) }
    ensures labels { OnOk result (MakesInner (length spans.now - 2) asm.old.labels asm.new.labels) }
{
    if let Some(last) = end_of_run(spans) {
        jump_in_spans(asm, spans, last)?;
        asm.jump(end)?;
        return Ok(());
    }
    if spans.len() <= FEW {
        branch_in_spans(asm, spans)?;
        asm.jump(end)?;
        return Ok(());
    }
    let (lower, upper) = spans.split_at(spans.len() / 2);
    let above = asm.label()?;
    branch_from(asm, upper[0].from, above)?;
    search(asm, lower, end)?;
    asm.place(above);
    search(asm, upper, end)?;
    Ok(())
}

/// As `search`, and on where no span has the value.
fn search_on(asm: &mut Asm, spans: &[Span]) -> Result<(), AllocError>
    requires some { 2 ≤ length spans.now }
    requires apart { ascend 0 spans.now ≡ true }
    requires room { length asm.old.labels + length spans.now < 2 ^ 32 }
    requires inner { All (λ span. IsInner asm.old.labels span.label) spans.now }
    ensures goes { OnOk result ((k : ℕ) → length spans.now ≤ 4 * 2 ^ k → Adds (27 * length spans.now) asm.old.parts asm.new.parts (GoesInSpans (82 + 11 * k) spans.now)) }
    ensures labels { OnOk result (MakesInner (length spans.now) asm.old.labels asm.new.labels) }
{
    let end = asm.label()?;
    search(asm, spans, end)?;
    asm.place(end);
    Ok(())
}

/// Goes to the label of the span that has the value in register 5, of spans that ascend, and on where none has it.
pub(crate) fn go_among(asm: &mut Asm, spans: &[Span]) -> Result<(), AllocError>
    requires apart { ascend 0 spans.now ≡ true }
    requires inner { All (λ span. IsInner asm.old.labels span.label) spans.now }
    ensures goes { OnOk result (Adds (27 * length spans.now) asm.old.parts asm.new.parts (GoesInSpans (20 * length spans.now) spans.now)) }
    ensures table { OnOk result (is_run spans.now ≡ true → Adds (27 * length spans.now) asm.old.parts asm.new.parts (GoesInSpans 20 spans.now)) }
    ensures halves { OnOk result ((k : ℕ) → length spans.now ≤ 4 * 2 ^ k → length asm.old.labels + length spans.now < 2 ^ 32 →
        Adds (27 * length spans.now) asm.old.parts asm.new.parts (GoesInSpans (82 + 11 * k) spans.now)) }
    ensures labels { OnOk result (MakesInner (length spans.now) asm.old.labels asm.new.labels) }
{
    if let Some(last) = end_of_run(spans) {
        return jump_in_spans(asm, spans, last);
    }
    if spans.len() <= FEW || spans.len() >= MOST_LABELS.saturating_sub(asm.label_count()) {
        return branch_in_spans(asm, spans);
    }
    search_on(asm, spans)
}
