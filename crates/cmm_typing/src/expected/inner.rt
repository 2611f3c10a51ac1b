//! What is broken in an expression whatever is wanted of it.
#![tactic(auto, using(cmm_static_semantics::proofs::Shared::first_of_append, crate::proofs::FirstFaults::noted_is))]

ghost use Rattle.std.specs.Prelude.{◌≡◌, ℕ};
ghost use Rattle.cmm_static_semantics.specs.Expressions as expressions;
ghost use Rattle.cmm_static_semantics.specs.Spots.{first_of};
ghost use Rattle.cmm_static_semantics.specs.Typing.{of_memory, of_primary};

use crate::expected::{alignments, hosts};
use crate::names::Names;
use cmm_ast::{Expr, Memory, Primary};
use cmm_static_semantics::Spot;

/// Notes what is broken in an expression whatever is wanted of it: names of the host, rule 38, and alignments, rule 40.
pub fn note_inner<N: Names>(names: &N, e: &Expr, best: &mut Option<Spot>)
    ensures { best.new ≡ first_of best.old (expressions.inner_spots (N.senses names.now) e.now) }
{
    hosts::note_expr(names, e, best);
    alignments::note_expr(e, best);
}

/// Notes what is broken in a primary expression whatever is wanted of it.
pub(crate) fn note_inner_primary<N: Names>(names: &N, primary: &Primary, best: &mut Option<Spot>)
    ensures { best.new ≡ first_of best.old (expressions.inner_spots (N.senses names.now) (of_primary primary.now)) }
{
    hosts::note_prim(names, primary.token, &primary.form, best);
    alignments::note_prim(&primary.form, best);
}

/// Notes what is broken in a word in memory, at any token, whatever is wanted of it.
pub(crate) fn note_inner_memory<N: Names>(names: &N, memory: &Memory, best: &mut Option<Spot>)
    ensures { (token : ℕ) → best.new ≡ first_of best.old (expressions.inner_spots (N.senses names.now) (of_memory token memory.now)) }
{
    hosts::note_memory(names, memory, best);
    alignments::note_memory(memory, best);
}
