//! Characters between quotes.

ghost use Rattle.std.specs.Prelude.{◌≡◌, ◌+◌, ◌≤◌, ◌<◌, IfSome, length};
ghost use Rattle.cmm_lexer.specs.Characters.{escaped as escaped_of, hex_pair as hex_pair_of, escape_at, character_at as character_in};

/// A character: the byte that it stands for, and how many bytes spell it.
#[derive(Clone, Copy)]
pub struct Character {
    pub value: u8,
    pub len: usize,
}

/// The character at the front of a text, where it has one, inside these quotes.
pub fn character_at(quote: u8, text: &[u8]) -> Option<Character>
    ensures found { result ≡ character_in quote text.now }
    ensures within { IfSome result (λ c. (0 < c.len) × (c.len ≤ length text.now)) }
{
    let (byte, after) = text.split_first()?;
    if *byte == b'\n' || *byte == quote {
        None
    } else if *byte == b'\\' {
        escape(after)
    } else {
        Some(Character {
            value: *byte,
            len: 1,
        })
    }
}

/// The character that begins with a backslash, from the byte after it.
fn escape(text: &[u8]) -> Option<Character>
    ensures found { result ≡ escape_at text.now }
    ensures within { IfSome result (λ c. (0 < c.len) × (c.len ≤ length text.now + 1)) }
{
    let (byte, after) = text.split_first()?;
    if *byte == b'x' {
        let value = hex_pair(after)?;
        Some(Character { value, len: 4 })
    } else {
        let value = escaped(*byte)?;
        Some(Character { value, len: 2 })
    }
}

/// The byte that a letter after a backslash stands for.
fn escaped(byte: u8) -> Option<u8>
    ensures { result ≡ escaped_of byte }
{
    match byte {
        b'n' => Some(b'\n'),
        b't' => Some(b'\t'),
        b'r' => Some(b'\r'),
        b'0' => Some(0),
        b'\\' | b'"' | b'\'' => Some(byte),
        _ => None,
    }
}

/// The byte that two hexadecimal digits write.
fn hex_pair(text: &[u8]) -> Option<u8>
    ensures found { result ≡ hex_pair_of text.now }
    ensures within { IfSome result (λ _. 2 ≤ length text.now) }
{
    let (high, after) = text.split_first()?;
    let (low, _) = after.split_first()?;
    let high = char::from(*high).to_digit(16)?;
    let low = char::from(*low).to_digit(16)?;
    Some((high * 16 + low) as u8)
}
