//! The numbers that ranges go from and to.

ghost use Rattle.std.specs.Prelude.{◌≡◌, option_map};
ghost use Rattle.cmm_static_semantics.specs.Switches as switches;
ghost use Rattle.cmm_check_procedure.specs.Extents.{shown};
ghost use Rattle.cmm_typing.specs.Fitting.{AreWords};

use crate::extent::Extent;
use cmm_ast::Expr;
use cmm_typing::{Names, number_alone};
use cmm_words::Width;

/// The number that an expression is, if it is not broken; a literal takes the width.
pub(crate) fn number_at<N: Names>(names: &N, width: Option<Width>, e: &Expr) -> Option<u64>
    requires { AreWords (N.senses names.now) }
    ensures { result ≡ switches.number_at (N.senses names.now) width e.now }
{
    match number_alone(names, width, e) {
        Ok(number) => Some(number),
        Err(_) => None,
    }
}

/// The extent from one number to another, where neither is broken.
pub(crate) fn extent_of(low: Option<u64>, high: Option<u64>) -> Option<Extent>
    ensures { option_map shown result ≡ switches.extent low high }
{
    match low {
        Some(low) => match high {
            Some(high) => Some(Extent { low, high }),
            None => None,
        },
        None => None,
    }
}
