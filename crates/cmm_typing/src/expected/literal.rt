//! What literals are judged to be.

ghost use Rattle.std.specs.Prelude.{◌≡◌, IfOk};
ghost use Rattle.cmm_static_semantics.specs.Algebras.{knowns};
ghost use Rattle.cmm_static_semantics.specs.Typing as typing;
ghost use Rattle.cmm_typing.specs.Fitting.{FitsTyped};

use crate::leaf::type_width;
use crate::names::Names;
use cmm_ast::{Number, TypeName};
use cmm_operators::{Judged, faulty};
use cmm_rules::Rule;
use cmm_static_semantics::{Bits, Known, Typed};
use cmm_words::Width;

/// A number of this width at a token: rule 25 where it does not fit.
pub(crate) fn literal(token: u32, value: u64, width: Width) -> Judged<Typed<Known, ()>>
    ensures value { result ≡ typing.literal knowns token value width }
    ensures fits { IfOk result FitsTyped }
{
    if value > width.max() {
        return Err(faulty(Rule::LiteralDoesNotFit, token));
    }
    let value = Some(Known::Number(value));
    Ok(Typed::Bits(Bits { width, value }))
}

fn number_value(number: Number) -> u64
    ensures { result ≡ typing.number_value number }
{
    match number {
        Number::Int(value) => value,
        Number::Char(byte) => u64::from(byte),
    }
}

fn number_width(number: Number) -> Width
    ensures { result ≡ typing.number_width number }
{
    match number {
        Number::Int(_) => Width::W64,
        Number::Char(_) => Width::W8,
    }
}

fn literal_width<N: Names>(names: &N, number: Number, width: &Option<TypeName>) -> Judged<Width>
    ensures { result ≡ typing.literal_width (N.senses names.now) number width.now }
{
    match width {
        None => Ok(number_width(number)),
        Some(t) => type_width(names, t),
    }
}

/// A literal, by its first token.
pub(crate) fn literal_type<N: Names>(
    names: &N,
    token: u32,
    number: Number,
    width: &Option<TypeName>,
) -> Judged<Typed<Known, ()>>
    ensures value { result ≡ typing.literal_type knowns (N.senses names.now) token number width.now }
    ensures fits { IfOk result FitsTyped }
{
    let width = literal_width(names, number, width)?;
    literal(token, number_value(number), width)
}
