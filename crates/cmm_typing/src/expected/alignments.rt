//! What words in memory are said to be aligned to.
#![tactic(auto, using(crate::proofs::FirstFaults::noted_none, crate::proofs::FirstFaults::noted_append))]

ghost use Rattle.std.specs.Prelude.{◌≡◌, flat_map};
ghost use Rattle.cmm_static_semantics.specs.Expressions.{alignment_spots};
ghost use Rattle.cmm_static_semantics.specs.Mentions.{form_alignments, listed, memory_alignments, prim_alignments};
ghost use Rattle.cmm_static_semantics.specs.Spots.{first_of};
ghost use Rattle.cmm_program.specs.Typing.{is_alignment};
ghost use Rattle.cmm_typing.specs.inside.Noted.{noted_in};

use cmm_ast::{Expr, ExprForm, Int, Memory, PrimForm};
use cmm_rules::Rule;
use cmm_static_semantics::{Spot, unless};

/// Whether something may be aligned to this number of bytes.
pub fn is_alignment(bytes: u64) -> bool
    ensures { result ≡ is_alignment bytes }
{
    matches!(bytes, 1 | 2 | 4 | 8 | 16)
}

/// Notes an alignment that is none: rule 40.
pub fn note_alignment(alignment: &Int, best: &mut Option<Spot>)
    ensures { best.new ≡ first_of best.old (alignment_spots alignment.now) }
{
    unless(
        best,
        is_alignment(alignment.value),
        Rule::Limit,
        alignment.token,
    );
}

/// Notes an alignment, where there is one.
#[tactic(auto, unfolding(crate::specs::inside::Noted::noted_in))]
fn note_some(alignment: &Option<Int>, best: &mut Option<Spot>)
    ensures { best.new ≡ noted_in alignment_spots best.old (listed alignment.now) }
{
    match alignment {
        Some(alignment) => note_alignment(alignment, best),
        None => {}
    }
}

/// Notes alignments in an expression that are none: rule 40.
#[cycle(expression)]
pub(crate) fn note_expr(e: &Expr, best: &mut Option<Spot>)
    ensures { best.new ≡ noted_in alignment_spots best.old (form_alignments e.now.form) }
{
    match &e.form {
        ExprForm::Infix { left, right, .. } => {
            note_expr(left.get(), best);
            note_expr(right.get(), best);
        }
        ExprForm::Prefix { operand, .. } => note_expr(operand.get(), best),
        ExprForm::Prim(prim) => note_prim(prim, best),
        ExprForm::Memory(memory) => note_memory(memory, best),
        ExprForm::Named { operands, .. } => note_operands(operands.as_slice(), best),
    }
}

#[cycle(expression)]
pub(crate) fn note_prim(prim: &PrimForm, best: &mut Option<Spot>)
    ensures { best.new ≡ noted_in alignment_spots best.old (prim_alignments prim.now) }
{
    match prim {
        PrimForm::Literal { .. } => {}
        PrimForm::Name(_) => {}
        PrimForm::Bracketed(inner) => note_expr(inner.get(), best),
    }
}

#[cycle(expression)]
pub(crate) fn note_memory(memory: &Memory, best: &mut Option<Spot>)
    ensures { best.new ≡ noted_in alignment_spots best.old (memory_alignments memory.now) }
{
    note_expr(memory.address.get(), best);
    note_some(&memory.aligned, best);
}

#[cycle(expression)]
fn note_operands(operands: &[Expr], best: &mut Option<Spot>)
    ensures { best.new ≡ noted_in alignment_spots best.old (flat_map (λ e. form_alignments e.form) operands.now) }
{
    for operand in operands {
        note_expr(operand, best);
    }
}
