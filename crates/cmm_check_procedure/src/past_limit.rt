//! What a list has past its limit.

ghost use Rattle.std.specs.Prelude.{◌≡◌, ℕ, slice_get, option_copied};
ghost use Rattle.cmm_static_semantics.specs.Calls.{first_token};
ghost use Rattle.cmm_static_semantics.specs.Expressions.{past_limit};
ghost use Rattle.cmm_static_semantics.specs.Spots.{first_of};

use cmm_ast::{Actual, Ident, Kinded, Text};
use cmm_rules::Rule;
use cmm_static_semantics::{Spot, unless};

/// What has a first token.
pub trait Starts {
    ghost token: { Self → ℕ };

    /// The number of its first token.
    fn first_token(&self) -> u32
        ensures { result ≡ token self.now };
}

impl Starts for Ident {
    ghost token = { λ name. name.token };

    fn first_token(&self) -> u32 {
        self.token
    }
}

/// The first token of a kind and what stands after it.
fn token_after(kind: &Option<Text>, token: u32) -> u32
    ensures { result ≡ first_token kind.now token }
{
    match kind {
        Some(kind) => kind.token,
        None => token,
    }
}

impl Starts for Kinded {
    ghost token = { λ name. first_token name.kind name.name.token };

    fn first_token(&self) -> u32 {
        token_after(&self.kind, self.name.token)
    }
}

impl Starts for Actual {
    ghost token = { λ actual. first_token actual.kind actual.value.token };

    fn first_token(&self) -> u32 {
        token_after(&self.kind, self.value.token)
    }
}

/// The item at an index, if there is one.
fn item_at<T>(list: &[T], index: usize) -> Option<&T>
    ensures { option_copied result ≡ slice_get list.now index }
{
    list.get(index)
}

/// Notes that a rule is broken at the first item past the limit, if there is one.
pub fn note_past_limit<T: Starts>(rule: Rule, limit: usize, list: &[T], best: &mut Option<Spot>)
    ensures { best.new ≡ first_of best.old (past_limit rule limit T.token list.now) }
{
    match item_at(list, limit) {
        Some(item) => unless(best, false, rule, item.first_token()),
        None => {}
    }
}
