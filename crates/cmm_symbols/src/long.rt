//! Names and kinds that are too long, in whatever they stand: rule 40.
#![tactic(auto, using(crate::proofs::Lengths::long_none, crate::proofs::Lengths::long_more, crate::proofs::Lengths::long_append))]

ghost use Rattle.std.specs.Prelude.{◌≡◌, ◌++◌, [], ◌∷◌, List, flat_map, map};
ghost use Rattle.cmm_ast.specs.declared.token.Ident.{Ident};
ghost use Rattle.cmm_static_semantics.specs.Mentions.{ident, listed};
ghost use Rattle.cmm_static_semantics.specs.LongNames.{of_text};
ghost use Rattle.cmm_symbols.specs.Noted.{long_of};

use cmm_ast::{Ident, Text};
use cmm_rules::Rule;
use cmm_static_semantics::{Spot, unless};

/// The longest name, in bytes.
pub(crate) const NAME_LIMIT: usize = 255;

/// What names stand in, which contracts see as a list.
pub(crate) trait HasNames {
    ghost names: { Self → List Ident };

    /// Notes those that are too long.
    fn note_long(&self, best: &mut Option<Spot>)
        ensures { best.new ≡ long_of best.old (names self.now) };
}

/// Notes a name of these bytes at a token, if it is too long.
#[tactic(auto, unfolding(crate::specs::Noted::long_of))]
pub(crate) fn note_token(bytes: &[u8], token: u32, best: &mut Option<Spot>)
    ensures { best.new ≡ long_of best.old (ident bytes.now token ∷ []) }
{
    unless(best, bytes.len() <= NAME_LIMIT, Rule::Limit, token);
}

pub(crate) fn note_name(name: &Ident, best: &mut Option<Spot>)
    ensures { best.new ≡ long_of best.old (name.now ∷ []) }
{
    note_token(name.name.as_bytes(), name.token, best);
}

pub(crate) fn note_names(names: &[Ident], best: &mut Option<Spot>)
    ensures { best.new ≡ long_of best.old names.now }
{
    for name in names {
        note_name(name, best);
    }
}

pub(crate) fn note_text(text: &Text, best: &mut Option<Spot>)
    ensures { best.new ≡ long_of best.old (of_text text.now ∷ []) }
{
    note_token(text.bytes.as_slice(), text.token, best);
}

/// Notes a kind, where there is one.
pub(crate) fn note_kind(kind: &Option<Text>, best: &mut Option<Spot>)
    ensures { best.new ≡ long_of best.old (map of_text (listed kind.now)) }
{
    match kind {
        Some(text) => note_text(text, best),
        None => {}
    }
}

pub(crate) fn note_each<T: HasNames>(items: &[T], best: &mut Option<Spot>)
    ensures { best.new ≡ long_of best.old (flat_map T.names items.now) }
{
    for item in items {
        item.note_long(best);
    }
}

pub(crate) fn note_some<T: HasNames>(item: &Option<T>, best: &mut Option<Spot>)
    ensures { best.new ≡ long_of best.old (flat_map T.names (listed item.now)) }
{
    match item {
        Some(item) => item.note_long(best),
        None => {}
    }
}
