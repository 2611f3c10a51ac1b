//! What an expression is judged to be where bits, a condition or a constant is wanted.

ghost use Rattle.std.specs.Prelude.{◌≡◌};
ghost use Rattle.cmm_static_semantics.specs.Algebras.{knowns};
ghost use Rattle.cmm_static_semantics.specs.Constants as constants;
ghost use Rattle.cmm_static_semantics.specs.Judging.{as_test, if_ok, with_ok};
ghost use Rattle.cmm_static_semantics.specs.Typing as typing;
ghost use Rattle.cmm_typing.specs.Fitting.{AreWords};

use crate::expected::alone::alone_type;
use crate::expected::parts::{memory_type, prim_type};
use crate::judging::{as_test, as_wanted, judge};
use crate::leaf::type_width;
use crate::names::Names;
use cmm_ast::{Expr, Memory, Primary, TypeName};
use cmm_operators::{Judged, as_constant, as_number};
use cmm_static_semantics::{Bits, Known};
use cmm_words::{Constant, Width};

/// Bits are wanted, of this width where there is one: else rule 24 or 23.
pub fn wanted<N: Names>(names: &N, width: Option<Width>, e: &Expr) -> Judged<Bits<Known>>
    requires { AreWords (N.senses names.now) }
    ensures { result ≡ typing.wanted knowns (N.senses names.now) width e.now }
{
    let typed = judge(names, e)?;
    as_wanted(width, e.token, typed)
}

/// Bits are wanted of a word in memory at a token, of this width where there is one: else rule 23.
pub(crate) fn wanted_of_memory<N: Names>(
    names: &N,
    width: Option<Width>,
    token: u32,
    memory: &Memory,
) -> Judged<Bits<Known>>
    requires { AreWords (N.senses names.now) }
    ensures { result ≡ typing.wanted knowns (N.senses names.now) width (typing.of_memory token memory.now) }
{
    let typed = memory_type(names, memory)?;
    as_wanted(width, token, typed)
}

/// A condition is wanted: else rule 24.
pub fn test_wanted<N: Names>(names: &N, e: &Expr) -> Judged<Option<()>>
    requires { AreWords (N.senses names.now) }
    ensures { result ≡ with_ok (typing.expr_type knowns (N.senses names.now) e.now) (as_test e.now.token) }
{
    let typed = judge(names, e)?;
    as_test(e.token, typed)
}

/// Bits are wanted, of this width where there is one, which a literal that stands alone takes: else rule 25.
fn wanted_alone<N: Names>(names: &N, width: Option<Width>, e: &Expr) -> Judged<Bits<Known>>
    requires { AreWords (N.senses names.now) }
    ensures { result ≡ constants.wanted_alone knowns (N.senses names.now) width e.now }
{
    let Some(width) = width else {
        return wanted(names, None, e);
    };
    match alone_type(e, width) {
        Some(judged) => as_wanted(Some(width), e.token, judged?),
        None => wanted(names, Some(width), e),
    }
}

/// A compile-time constant of 64 bits is wanted: else rule 27.
pub fn number_of<N: Names>(names: &N, e: &Expr) -> Judged<u64>
    requires { AreWords (N.senses names.now) }
    ensures { result ≡ constants.number_of (N.senses names.now) e.now }
{
    let bits = wanted(names, Some(Width::W64), e)?;
    as_number(e.token, bits)
}

/// A compile-time constant of 64 bits is wanted of a primary expression: else rule 27.
pub fn number_of_primary<N: Names>(names: &N, primary: &Primary) -> Judged<u64>
    requires { AreWords (N.senses names.now) }
    ensures { result ≡ constants.number_of (N.senses names.now) (typing.of_primary primary.now) }
{
    let typed = prim_type(names, primary.token, &primary.form)?;
    let bits = as_wanted(Some(Width::W64), primary.token, typed)?;
    as_number(primary.token, bits)
}

/// A compile-time constant is wanted, of this width where there is one, which a literal that stands alone takes: else rule 27.
pub fn number_alone<N: Names>(names: &N, width: Option<Width>, e: &Expr) -> Judged<u64>
    requires { AreWords (N.senses names.now) }
    ensures { result ≡ constants.number_alone (N.senses names.now) width e.now }
{
    let bits = wanted_alone(names, width, e)?;
    as_number(e.token, bits)
}

/// A link-time constant of any width is wanted: else rule 27.
pub fn constant_of<N: Names>(names: &N, e: &Expr) -> Judged<Constant>
    requires { AreWords (N.senses names.now) }
    ensures { result ≡ constants.constant_of (N.senses names.now) e.now }
{
    let bits = wanted(names, None, e)?;
    as_constant(e.token, bits)
}

/// A link-time constant is wanted, of this width where there is one, which a literal that stands alone takes: else rule 27.
pub fn constant_alone<N: Names>(names: &N, width: Option<Width>, e: &Expr) -> Judged<Constant>
    requires { AreWords (N.senses names.now) }
    ensures { result ≡ constants.constant_alone (N.senses names.now) width e.now }
{
    let bits = wanted_alone(names, width, e)?;
    as_constant(e.token, bits)
}

/// The width of a type, if it is not broken.
pub fn width_of<N: Names>(names: &N, t: &TypeName) -> Option<Width>
    ensures { result ≡ if_ok (typing.type_width (N.senses names.now) t.now) }
{
    match type_width(names, t) {
        Ok(width) => Some(width),
        Err(_) => None,
    }
}
