//! Bits of 64-bit words, numbered from the lowest bit of the first word on.

ghost use Rattle.std.specs.Prelude.{◌≡◌, ◌≢◌, ℕ, ◌<◌, ◌≤◌, ◌^◌, ◌/◌, ◌==◌, not, length, map, zip, position, bit_or, MatchOption};
ghost use Rattle.std.specs.Bool.{OnTrue, OnFalse};
ghost use Rattle.cmm_bitset.specs.inside.Words.{bit, IsLowest};

/// How many bits a word has.
pub const WORD: usize = 64;

/// Sets each bit that the others have, and answers whether any of them was not set before.
pub fn join(words: &mut Vec<u64>, others: &[u64]) -> bool
    requires { length words.old.items ≡ length others.now }
    ensures joined { words.new.items ≡ map (λ pair. bit_or pair.0 pair.1) (zip words.old.items others.now) }
    ensures grew { OnTrue result ((number : ℕ) × (bit words.new.items number ≢ bit words.old.items number)) }
    ensures settled { OnFalse result (words.new.items ≡ words.old.items) }
{
    let mut grew = false;
    for (i, other) in others.iter().enumerate() {
        let joined = words[i] | other;
        grew |= joined != words[i];
        words[i] = joined;
    }
    grew
}

/// The first word that is not 0, as its index.
fn first_nonzero(words: &[u64]) -> Option<usize>
    ensures { result ≡ position (λ word. not (word == 0)) words.now }
{
    words.iter().position(|word| *word != 0)
}

/// The lowest bit from a number on that is 1.
pub fn lowest_from(words: &[u64], from: usize) -> Option<usize>
    requires within { from / 64 < length words.now }
    requires few { length words.now < 2 ^ 32 }
    ensures { MatchOption result
        ((number : ℕ) → from ≤ number → bit words.now number ≡ 0)
        (IsLowest words.now from) }
{
    let start = from / WORD;
    let first = words[start] & (u64::MAX << (from % WORD));
    if first != 0 {
        return Some(start * WORD + first.trailing_zeros() as usize);
    }
    let skipped = first_nonzero(&words[start + 1..])?;
    let index = start + 1 + skipped;
    Some(index * WORD + words[index].trailing_zeros() as usize)
}
