//! The bytes and the numbers that a case spells.

use cmm_words::Radix;
use std::alloc::{AllocError, Global};

/// The bytes of a text, in which `\n`, `\t` and `\xHH` stand for one byte. `\*HHHHH` says in hexadecimal how many times the byte behind it comes, and `\+HHHHH` how many
/// lines end.
pub fn bytes_of(alloc: Global, text: &str) -> Result<Vec<u8>, AllocError> {
    let (plain, escaped) = text.split_once('\\').unwrap_or((text, ""));
    let mut bytes = Vec::from_slice(alloc, plain.as_bytes())?;
    for piece in escaped.split('\\') {
        add_piece(&mut bytes, piece.as_bytes())?;
    }
    Ok(bytes)
}

/// Adds the bytes of what stands behind a backslash.
fn add_piece(bytes: &mut Vec<u8>, piece: &[u8]) -> Result<(), AllocError> {
    match piece {
        [b'n', rest @ ..] => add(bytes, 1, b'\n', rest),
        [b't', rest @ ..] => add(bytes, 1, b'\t', rest),
        [b'x', a, b, rest @ ..] => {
            let byte = (hexadecimal(&[*a, *b]) % 256) as u8;
            add(bytes, 1, byte, rest)
        }
        [b'*', a, b, c, d, e, byte, rest @ ..] => {
            let count = hexadecimal(&[*a, *b, *c, *d, *e]);
            add(bytes, count, *byte, rest)
        }
        [b'+', a, b, c, d, e, rest @ ..] => {
            let count = hexadecimal(&[*a, *b, *c, *d, *e]);
            add(bytes, count, b'\n', rest)
        }
        _ => bytes.extend_from_slice(piece),
    }
}

/// Adds a byte so many times, and what stands behind it.
fn add(bytes: &mut Vec<u8>, count: u64, byte: u8, rest: &[u8]) -> Result<(), AllocError> {
    for _ in 0..count {
        bytes.push(byte)?;
    }
    bytes.extend_from_slice(rest)
}

/// The number that digits write, and 0 where they are none.
fn hexadecimal(digits: &[u8]) -> u64 {
    Radix::Hexadecimal.number(digits).unwrap_or(0)
}

/// The number that a word writes in hexadecimal, and 0 where it is none.
pub fn hexadecimal_of(word: &str) -> u64 {
    hexadecimal(word.as_bytes())
}

/// The numbers that the words of a text write in hexadecimal.
pub fn hexadecimals_of(alloc: Global, text: &str) -> Result<Vec<u64>, AllocError> {
    let mut numbers = Vec::new(alloc);
    for word in text.split(' ') {
        if !word.is_empty() {
            numbers.push(hexadecimal_of(word))?;
        }
    }
    Ok(numbers)
}

/// The bytes that pairs of hexadecimal digits write.
pub fn pairs_of(alloc: Global, digits: &str) -> Result<Vec<u8>, AllocError> {
    let mut bytes = Vec::new(alloc);
    for pair in digits.as_bytes().chunks(2) {
        bytes.push((hexadecimal(pair) % 256) as u8)?;
    }
    Ok(bytes)
}

/// The number that decimal digits write, and the greatest there is where a word is none.
pub fn number_of(word: &str) -> u64 {
    Radix::Decimal.number(word.as_bytes()).unwrap_or(u64::MAX)
}

/// The same of numbers below 2^32.
pub fn small_of(word: &str) -> u32 {
    u32::try_from(number_of(word)).unwrap_or(u32::MAX)
}

/// The numbers that commas divide. A word without a digit has none.
pub fn numbers_of(alloc: Global, word: &str) -> Result<Vec<u64>, AllocError> {
    let mut numbers = Vec::new(alloc);
    for part in word.split(',') {
        if let Some(number) = Radix::Decimal.number(part.as_bytes()) {
            numbers.push(number)?;
        }
    }
    Ok(numbers)
}

/// What a word asks for, and on what: `set:3,5` asks for `set` on `3,5`.
pub fn asked(word: &str) -> (&str, &str) {
    word.split_once(':').unwrap_or((word, ""))
}
