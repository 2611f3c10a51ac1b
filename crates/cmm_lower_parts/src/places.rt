//! What is assigned to in a program (C-- Language Specification 2.0, assignments).

ghost use Rattle.std.specs.Prelude.{◌≡◌, ◌-◌, ◌^◌, min, IfOk};
ghost use Rattle.cmm_static_semantics.specs.Algebras.{expressions};
ghost use Rattle.cmm_static_semantics.specs.Typing as typing;
ghost use Rattle.cmm_elaboration.specs.Resolving as resolving;
ghost use Rattle.cmm_lower_parts.specs.Fitting.{PlaceFits};
ghost use Rattle.cmm_typing.specs.Fitting.{AreWords};
ghost use Rattle.cmm_typing.specs.Resolved.{AlignmentsFit};

use crate::constants::width_at;
use crate::values::value_of;
use cmm_ast::{Ident, Int, Lvalue as LvalueTree, Memory};
use cmm_program::{Lvalue, Target};
use cmm_static_semantics::Sense;
use cmm_typing::Names;
use cmm_words::Width;
use std::alloc::{AllocError, Global};

fn target_in(sense: Option<Sense>) -> Target
    ensures { result ≡ resolving.target_in sense }
{
    let nothing = Target::Variable(0, Width::W64);
    let Some(sense) = sense else {
        return nothing;
    };
    match sense {
        Sense::Variable(number, width) => Target::Variable(number, width.unwrap_or(Width::W64)),
        Sense::Register(number, width) => Target::Register(number, width.unwrap_or(Width::W64)),
        Sense::Value(_) => nothing,
        Sense::Broken(_) => nothing,
        Sense::Stackdata(_) => nothing,
        Sense::Continuation(_) => nothing,
        Sense::Host(_) => nothing,
        Sense::Typedef(_) => nothing,
        Sense::CodeLabel => nothing,
    }
}

/// The variable or register that a name means.
pub fn target_of<N: Names>(names: &N, name: &Ident) -> Target
    ensures { result ≡ resolving.target_of (N.senses names.now) name.now }
{
    target_in(names.sense(&name.name))
}

/// What a word of a width in memory is aligned to, in bytes: its width, where it doesn't say to what. What is 2^32 or more is given as 2^32 - 1.
fn alignment(width: Width, aligned: Option<Int>) -> u32
    ensures { result ≡ min (typing.alignment width aligned) (2 ^ 32 - 1) }
{
    match aligned {
        Some(aligned) => aligned.value.min(u64::from(u32::MAX)) as u32,
        None => width.bytes() as u32,
    }
}

/// A word in memory that is assigned to.
fn memory_place<N: Names>(alloc: Global, names: &N, memory: &Memory) -> Result<Lvalue, AllocError>
    requires { AreWords (N.senses names.now) }
    ensures { AlignmentsFit (typing.of_memory 0 memory.now) → IfOk result (λ place. place ≡ resolving.memory_place (N.senses names.now) memory.now) }
{
    let width = width_at(names, &memory.width);
    let aligned = alignment(width, memory.aligned);
    let address = value_of(alloc, names, memory.address.get())?;
    Ok(Lvalue::Memory {
        width,
        aligned,
        address,
    })
}

/// What is assigned to.
pub fn place_of<N: Names>(alloc: Global, names: &N, to: &LvalueTree) -> Result<Lvalue, AllocError>
    requires { AreWords (N.senses names.now) }
    ensures { PlaceFits to.now → IfOk result (λ place. place ≡ resolving.place_of (N.senses names.now) to.now) }
{
    match to {
        LvalueTree::Name(name) => Ok(Lvalue::Target(target_of(names, name))),
        LvalueTree::Memory(memory) => memory_place(alloc, names, memory),
    }
}
