//! Procedures of the host that stand in expressions: they may be called alone.
#![tactic(auto, using(crate::proofs::FirstFaults::noted_none, crate::proofs::FirstFaults::noted_append))]

ghost use Rattle.std.specs.Prelude.{◌≡◌, [], ◌∷◌, flat_map};
ghost use Rattle.cmm_static_semantics.specs.Expressions.{host_spots, is_not_host};
ghost use Rattle.cmm_static_semantics.specs.Mentions.{expr_names, ident, memory_names, prim_names, values_alone};
ghost use Rattle.cmm_typing.specs.inside.Noted.{noted_in};

use crate::names::Names;
use cmm_ast::{Expr, ExprForm, Memory, PrimForm};
use cmm_rules::Rule;
use cmm_static_semantics::{Sense, Spot, unless};
use cmm_words::Name;

fn is_not_host(sense: Option<Sense>) -> bool
    ensures { result ≡ is_not_host sense }
{
    !matches!(sense, Some(Sense::Host(_)))
}

#[tactic(auto, unfolding(crate::specs::inside::Noted::noted_in))]
fn note_name<N: Names>(names: &N, token: u32, name: &Name, best: &mut Option<Spot>)
    ensures { best.new ≡ noted_in (host_spots (N.senses names.now)) best.old (ident name.now token ∷ []) }
{
    let is_allowed = is_not_host(names.sense(name));
    unless(best, is_allowed, Rule::BadHostCall, token);
}

/// Notes names of the host in an expression: rule 38.
#[cycle(expression)]
pub(crate) fn note_expr<N: Names>(names: &N, e: &Expr, best: &mut Option<Spot>)
    ensures { best.new ≡ noted_in (host_spots (N.senses names.now)) best.old (expr_names values_alone e.now) }
{
    match &e.form {
        ExprForm::Infix { left, right, .. } => {
            note_expr(names, left.get(), best);
            note_expr(names, right.get(), best);
        }
        ExprForm::Prefix { operand, .. } => note_expr(names, operand.get(), best),
        ExprForm::Prim(prim) => note_prim(names, e.token, prim, best),
        ExprForm::Memory(memory) => note_memory(names, memory, best),
        ExprForm::Named { operands, .. } => note_operands(names, operands.as_slice(), best),
    }
}

#[cycle(expression)]
pub(crate) fn note_prim<N: Names>(names: &N, token: u32, prim: &PrimForm, best: &mut Option<Spot>)
    ensures { best.new ≡ noted_in (host_spots (N.senses names.now)) best.old (prim_names values_alone token prim.now) }
{
    match prim {
        PrimForm::Literal { .. } => {}
        PrimForm::Name(name) => note_name(names, token, name, best),
        PrimForm::Bracketed(inner) => note_expr(names, inner.get(), best),
    }
}

#[cycle(expression)]
pub(crate) fn note_memory<N: Names>(names: &N, memory: &Memory, best: &mut Option<Spot>)
    ensures { best.new ≡ noted_in (host_spots (N.senses names.now)) best.old (memory_names values_alone memory.now) }
{
    note_expr(names, memory.address.get(), best);
}

#[cycle(expression)]
fn note_operands<N: Names>(names: &N, operands: &[Expr], best: &mut Option<Spot>)
    ensures { best.new ≡ noted_in (host_spots (N.senses names.now)) best.old (flat_map (expr_names values_alone) operands.now) }
{
    for operand in operands {
        note_expr(names, operand, best);
    }
}
