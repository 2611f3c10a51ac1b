//! Names that are too long, in expressions.
#![tactic(auto, using(crate::proofs::Lengths::long_none, crate::proofs::Lengths::long_more, crate::proofs::Lengths::long_append))]

ghost use Rattle.std.specs.Prelude.{◌≡◌, ◌++◌, [], ◌∷◌, List, flat_map};
ghost use Rattle.cmm_static_semantics.specs.Mentions.{all_names, type_names, prim_names, memory_names, primary_names};
ghost use Rattle.cmm_static_semantics.specs.LongNames.{of_expr};
ghost use Rattle.cmm_symbols.specs.Noted.{long_of};

use crate::long::{HasNames, note_some, note_token};
use cmm_ast::{Expr, ExprForm, Memory, PrimForm, Primary, TypeForm, TypeName};
use cmm_static_semantics::Spot;

impl HasNames for TypeName {
    ghost names = { type_names };

    fn note_long(&self, best: &mut Option<Spot>) {
        match &self.form {
            TypeForm::Named(name) => note_token(name.as_bytes(), self.token, best),
            TypeForm::Bits(_) => {}
        }
    }
}

impl HasNames for Expr {
    ghost names = { of_expr };

    fn note_long(&self, best: &mut Option<Spot>) {
        note_expr(self, best);
    }
}

impl HasNames for Primary {
    ghost names = { primary_names all_names };

    fn note_long(&self, best: &mut Option<Spot>) {
        note_prim(self.token, &self.form, best);
    }
}

impl HasNames for Memory {
    ghost names = { memory_names all_names };

    fn note_long(&self, best: &mut Option<Spot>) {
        note_memory(self, best);
    }
}

#[cycle(expression)]
fn note_expr(e: &Expr, best: &mut Option<Spot>)
    ensures { best.new ≡ long_of best.old (of_expr e.now) }
{
    match &e.form {
        ExprForm::Infix { left, right, .. } => {
            note_expr(left.get(), best);
            note_expr(right.get(), best);
        }
        ExprForm::Prefix { operand, .. } => note_expr(operand.get(), best),
        ExprForm::Prim(prim) => note_prim(e.token, prim, best),
        ExprForm::Memory(memory) => note_memory(memory, best),
        ExprForm::Named { operands, .. } => note_operands(operands.as_slice(), best),
    }
}

#[cycle(expression)]
fn note_prim(token: u32, prim: &PrimForm, best: &mut Option<Spot>)
    ensures { best.new ≡ long_of best.old (prim_names all_names token prim.now) }
{
    match prim {
        PrimForm::Literal { width, .. } => note_some(width, best),
        PrimForm::Name(name) => note_token(name.as_bytes(), token, best),
        PrimForm::Bracketed(inner) => note_expr(inner.get(), best),
    }
}

#[cycle(expression)]
fn note_memory(memory: &Memory, best: &mut Option<Spot>)
    ensures { best.new ≡ long_of best.old (memory_names all_names memory.now) }
{
    memory.width.note_long(best);
    note_expr(memory.address.get(), best);
}

#[cycle(expression)]
fn note_operands(operands: &[Expr], best: &mut Option<Spot>)
    ensures { best.new ≡ long_of best.old (flat_map of_expr operands.now) }
{
    for operand in operands {
        note_expr(operand, best);
    }
}
