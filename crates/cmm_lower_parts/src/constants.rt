//! The widths and constants of a program, which are known when it is linked (C-- Language Specification 2.0, constant expressions and spans).

ghost use Rattle.std.specs.Prelude.{◌≡◌, Some};
ghost use Rattle.cmm_static_semantics.specs.Constants as constants;
ghost use Rattle.cmm_static_semantics.specs.Limits as limits;
ghost use Rattle.cmm_static_semantics.specs.Typing as typing;
ghost use Rattle.cmm_elaboration.specs.Resolving as resolving;
ghost use Rattle.cmm_elaboration.specs.Sites as sites;
ghost use Rattle.cmm_typing.specs.Fitting.{AreWords};

use cmm_ast::{Expr, Primary, TypeName};
use cmm_typing::{
    Judged, Names, constant_alone, constant_of, number_of, number_of_primary, width_of,
};
use cmm_words::{Constant, Width};

/// The width of a type.
pub fn width_at<N: Names>(names: &N, t: &TypeName) -> Width
    ensures { result ≡ resolving.width_at (N.senses names.now) t.now }
{
    width_of(names, t).unwrap_or(Width::W64)
}

/// A constant of this width, 0 where it is broken.
fn or_zero(width: Width, judged: Judged<Constant>) -> Constant
    ensures { result ≡ resolving.or_zero width judged }
{
    judged.unwrap_or(Constant::Number(0, width))
}

/// A constant of the linker, of any width.
pub fn constant_at<N: Names>(names: &N, e: &Expr) -> Constant
    requires { AreWords (N.senses names.now) }
    ensures { result ≡ resolving.constant_at (N.senses names.now) e.now }
{
    or_zero(Width::W64, constant_of(names, e))
}

/// A constant of the linker of this width, which a literal that stands alone takes.
pub fn constant_alone_at<N: Names>(names: &N, width: Width, e: &Expr) -> Constant
    requires { AreWords (N.senses names.now) }
    ensures { result ≡ resolving.or_zero width (constants.constant_alone (N.senses names.now) (Some width) e.now) }
{
    or_zero(width, constant_alone(names, Some(width), e))
}

/// A number that is known when a unit is compiled.
pub fn number_at<N: Names>(names: &N, e: &Expr) -> u64
    requires { AreWords (N.senses names.now) }
    ensures { result ≡ limits.number_or_zero (N.senses names.now) e.now }
{
    number_of(names, e).unwrap_or(0)
}

/// A number that is known when a unit is compiled, of a primary expression.
pub fn number_of_primary_at<N: Names>(names: &N, primary: &Primary) -> u64
    requires { AreWords (N.senses names.now) }
    ensures { result ≡ limits.number_or_zero (N.senses names.now) (typing.of_primary primary.now) }
{
    number_of_primary(names, primary).unwrap_or(0)
}

/// What a span says, by its token and its value.
pub fn span_value<N: Names>(names: &N, key: &Primary, value: &Expr) -> (u64, Constant)
    requires { AreWords (N.senses names.now) }
    ensures { result ≡ sites.span_value (N.senses names.now) (record { key = key.now; value = value.now }) }
{
    (number_of_primary_at(names, key), constant_at(names, value))
}
