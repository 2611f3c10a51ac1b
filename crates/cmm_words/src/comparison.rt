//! Comparisons of words.

ghost use Rattle.std.specs.Prelude.{◌≡◌};
ghost use Rattle.cmm_words.specs.Widths.{IsWord};
ghost use Rattle.cmm_words.specs.Words.{holds};

use crate::conversion::to_signed;
use crate::operators::Cmp;
use crate::width::Width;

/// Whether a comparison holds of two words: `holds` of specs/Words.antt.
pub fn compare(comparison: Cmp, width: Width, left: u64, right: u64) -> bool
    requires left { IsWord width left }
    requires right { IsWord width right }
    ensures { result ≡ holds comparison width left right }
{
    match comparison {
        Cmp::Eq => left == right,
        Cmp::Ne => left != right,
        Cmp::Lt => to_signed(width, left) < to_signed(width, right),
        Cmp::Le => to_signed(width, left) <= to_signed(width, right),
        Cmp::Gt => to_signed(width, left) > to_signed(width, right),
        Cmp::Ge => to_signed(width, left) >= to_signed(width, right),
        Cmp::Ltu => left < right,
        Cmp::Leu => left <= right,
        Cmp::Gtu => left > right,
        Cmp::Geu => left >= right,
    }
}
