//! The first fault of types and of expressions, by what is wanted of them.
#![tactic(auto, using(cmm_static_semantics::proofs::Shared::first_of_append))]

ghost use Rattle.std.specs.Prelude.{◌≡◌};
ghost use Rattle.cmm_static_semantics.specs.Expressions as expressions;
ghost use Rattle.cmm_static_semantics.specs.Judging.{spots};
ghost use Rattle.cmm_static_semantics.specs.Spots.{first_of};
ghost use Rattle.cmm_static_semantics.specs.Typing.{of_memory, of_primary};
ghost use Rattle.cmm_static_semantics.specs.Units.{width_spots};
ghost use Rattle.cmm_typing.specs.Fitting.{AreWords};

use crate::expected::inner::{note_inner, note_inner_memory, note_inner_primary};
use crate::expected::judgements::{
    constant_alone, constant_of, number_alone, number_of, number_of_primary, test_wanted, wanted,
    wanted_of_memory,
};
use crate::leaf::type_width;
use crate::names::Names;
use cmm_ast::{Expr, Memory, Primary, TypeName};
use cmm_operators::Judged;
use cmm_rules::Rule;
use cmm_static_semantics::{Spot, unless};
use cmm_words::Width;

/// Notes where a judgement is broken, if it is and if that is not named elsewhere.
pub fn note_judged<A>(judged: &Judged<A>, best: &mut Option<Spot>)
    ensures { best.new ≡ first_of best.old (spots judged.now) }
{
    let Err(broken) = judged else {
        return;
    };
    if let Some(spot) = broken {
        *best = Spot::sooner_of(*best, Some(*spot));
    }
}

/// Notes what stands as a type and is none: rule 21.
pub fn note_type<N: Names>(names: &N, t: &TypeName, best: &mut Option<Spot>)
    ensures { best.new ≡ first_of best.old (expressions.type_spots (N.senses names.now) t.now) }
{
    note_judged(&type_width(names, t), best);
}

/// Notes what stands at a token and has another width than this one: rule 23.
pub fn note_width(bits: u64, token: u32, width: Option<Width>, best: &mut Option<Spot>)
    ensures { best.new ≡ first_of best.old (width_spots bits token width) }
{
    match width {
        Some(width) => unless(best, width.bits() == bits, Rule::WidthsDiffer, token),
        None => {}
    }
}

/// Notes the faults of an expression of which bits are wanted, of this width where there is one.
pub fn note_bits<N: Names>(names: &N, width: Option<Width>, e: &Expr, best: &mut Option<Spot>)
    requires { AreWords (N.senses names.now) }
    ensures { best.new ≡ first_of best.old (expressions.bits_spots (N.senses names.now) width e.now) }
{
    note_judged(&wanted(names, width, e), best);
    note_inner(names, e, best);
}

/// Notes the faults of a word in memory at a token, of which bits are wanted, of this width where there is one.
pub fn note_bits_of_memory<N: Names>(
    names: &N,
    width: Option<Width>,
    token: u32,
    memory: &Memory,
    best: &mut Option<Spot>,
)
    requires { AreWords (N.senses names.now) }
    ensures { best.new ≡ first_of best.old (expressions.bits_spots (N.senses names.now) width (of_memory token memory.now)) }
{
    note_judged(&wanted_of_memory(names, width, token, memory), best);
    note_inner_memory(names, memory, best);
}

/// Notes the faults of an expression of which a condition is wanted.
pub fn note_test<N: Names>(names: &N, e: &Expr, best: &mut Option<Spot>)
    requires { AreWords (N.senses names.now) }
    ensures { best.new ≡ first_of best.old (expressions.test_spots (N.senses names.now) e.now) }
{
    note_judged(&test_wanted(names, e), best);
    note_inner(names, e, best);
}

/// Notes the faults of an expression that is to be a compile-time constant of 64 bits.
pub fn note_number<N: Names>(names: &N, e: &Expr, best: &mut Option<Spot>)
    requires { AreWords (N.senses names.now) }
    ensures { best.new ≡ first_of best.old (expressions.number_spots (N.senses names.now) e.now) }
{
    note_judged(&number_of(names, e), best);
    note_inner(names, e, best);
}

/// Notes the faults of a primary expression that is to be a compile-time constant of 64 bits.
pub fn note_number_of_primary<N: Names>(names: &N, primary: &Primary, best: &mut Option<Spot>)
    requires { AreWords (N.senses names.now) }
    ensures { best.new ≡ first_of best.old (expressions.number_spots (N.senses names.now) (of_primary primary.now)) }
{
    note_judged(&number_of_primary(names, primary), best);
    note_inner_primary(names, primary, best);
}

/// Notes the faults of an expression that is to be a compile-time constant, of this width where there is one; a literal takes it.
pub fn note_number_alone<N: Names>(
    names: &N,
    width: Option<Width>,
    e: &Expr,
    best: &mut Option<Spot>,
)
    requires { AreWords (N.senses names.now) }
    ensures { best.new ≡ first_of best.old (expressions.number_alone_spots (N.senses names.now) width e.now) }
{
    note_judged(&number_alone(names, width, e), best);
    note_inner(names, e, best);
}

/// Notes the faults of an expression that is to be a link-time constant of any width.
pub fn note_constant<N: Names>(names: &N, e: &Expr, best: &mut Option<Spot>)
    requires { AreWords (N.senses names.now) }
    ensures { best.new ≡ first_of best.old (expressions.constant_spots (N.senses names.now) e.now) }
{
    note_judged(&constant_of(names, e), best);
    note_inner(names, e, best);
}

/// Notes the faults of an expression that is to be a link-time constant, of this width where there is one; a literal takes it.
pub fn note_constant_alone<N: Names>(
    names: &N,
    width: Option<Width>,
    e: &Expr,
    best: &mut Option<Spot>,
)
    requires { AreWords (N.senses names.now) }
    ensures { best.new ≡ first_of best.old (expressions.constant_alone_spots (N.senses names.now) width e.now) }
{
    note_judged(&constant_alone(names, width, e), best);
    note_inner(names, e, best);
}
