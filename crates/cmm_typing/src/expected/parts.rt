//! What stands as an expression where the grammar takes less: a primary expression, and a word in memory.

ghost use Rattle.std.specs.Prelude.{◌≡◌, IfOk};
ghost use Rattle.cmm_static_semantics.specs.Algebras.{knowns};
ghost use Rattle.cmm_static_semantics.specs.Typing as typing;
ghost use Rattle.cmm_typing.specs.Fitting.{AreWords, FitsTyped};
ghost use Rattle.cmm_typing.specs.inside.Loads.{load_of, loaded_of};

use crate::expected::literal::literal_type;
use crate::judging::{as_wanted, judge, name_type};
use crate::leaf::type_width;
use crate::names::Names;
use cmm_ast::{Memory, PrimForm};
use cmm_operators::Judged;
use cmm_static_semantics::{Bits, Known, Spot, Typed};
use cmm_words::Width;

/// What a primary expression is judged to be, by its first token.
pub(crate) fn prim_type<N: Names>(
    names: &N,
    token: u32,
    prim: &PrimForm,
) -> Judged<Typed<Known, ()>>
    requires { AreWords (N.senses names.now) }
    ensures value { result ≡ typing.prim_type knowns (N.senses names.now) token prim.now }
    ensures fits { IfOk result FitsTyped }
{
    match prim {
        PrimForm::Literal { number, width } => literal_type(names, token, *number, width),
        PrimForm::Name(name) => name_type(token, names.sense(name)),
        PrimForm::Bracketed(inner) => judge(names, inner.get()),
    }
}

/// What is known of a word that is loaded: nothing, where something is known of its address.
fn load(width: Width, token: u32, address: Typed<Known, ()>) -> Judged<Typed<Known, ()>>
    ensures value { result ≡ load_of width token address }
    ensures fits { IfOk result FitsTyped }
{
    let address = as_wanted(Some(Width::W64), token, address)?;
    let value = address.value.map(|_| Known::Nothing);
    Ok(Typed::Bits(Bits { width, value }))
}

/// A load from an address, by its first token. What is broken in the type or in the address is named before what is required of it.
fn loaded(
    width: Judged<Width>,
    token: u32,
    address: Judged<Typed<Known, ()>>,
) -> Judged<Typed<Known, ()>>
    ensures value { result ≡ loaded_of width token address }
    ensures fits { IfOk result FitsTyped }
{
    match (width, address) {
        (Ok(width), Ok(address)) => load(width, token, address),
        (Ok(_), Err(broken)) => Err(broken),
        (Err(broken), Ok(_)) => Err(broken),
        (Err(first), Err(second)) => Err(Spot::sooner_of(first, second)),
    }
}

/// What a word in memory is judged to be.
pub(crate) fn memory_type<N: Names>(names: &N, memory: &Memory) -> Judged<Typed<Known, ()>>
    requires { AreWords (N.senses names.now) }
    ensures value { result ≡ typing.memory_type knowns (N.senses names.now) memory.now }
    ensures fits { IfOk result FitsTyped }
{
    let width = type_width(names, &memory.width);
    let address = judge(names, memory.address.get());
    loaded(width, memory.address.get().token, address)
}
