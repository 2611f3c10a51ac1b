//! The piece at the front of a text: a separator, a comment, a skipped line or a token, the longest there.

ghost use Rattle.std.specs.Prelude.{◌≡◌, ◌+◌, ◌-◌, ◌<◌, ◌≤◌, not, length, drop, List, ℕ, IfOk};
ghost use Rattle.std.specs.List.{prefix_len};
ghost use Rattle.cmm_lexer.specs.Spellings.{name_len as name_len_of};
ghost use Rattle.cmm_lexer.specs.Pieces.{skipped, lexed, broken, line_len as line_len_of, comment_piece as comment_piece_of, name_piece as name_piece_of, number_piece as number_piece_of, character_piece as character_piece_of, text_piece as text_piece_of, symbol_piece as symbol_piece_of, percent_piece as percent_piece_of, piece_at as piece_in};

use crate::bytes::{is_digit, is_separator};
use crate::character::character_at;
use crate::keyword::Keyword;
use crate::number::{digits_len, digits_start, radix_of};
use crate::spelling::{
    begins_with, begins_with_operator, begins_with_word, name_len, operator_len,
};
use crate::symbol::Symbol;
use cmm_items::Items;
use cmm_rules::Rule;
use std::alloc::{AllocError, Global};

/// What a token is, with its spelling or its value.
#[derive(Drop)]
pub enum Lexeme {
    Name(Items<u8>),
    Int(u64),
    Char(u8),
    /// The bytes after the escapes.
    Text(Items<u8>),
    /// The bytes after the percent sign.
    Op(Items<u8>),
    /// The bytes after the percent signs.
    Checked(Items<u8>),
    /// The number of a reserved word.
    Word(u8),
    /// The number of a symbol.
    Symbol(u8),
}

/// What a piece of a text is.
#[derive(Drop)]
pub enum Part {
    Skipped,
    Lexed(Lexeme),
    Broken(Rule),
}

/// A piece at the front of a text: how many bytes it takes, and what it is.
#[derive(Drop)]
pub struct Piece {
    pub len: usize,
    pub part: Part,
}

impl Piece {
    fn skipped(len: usize) -> Piece
        ensures { result ≡ skipped len }
    {
        Piece {
            len,
            part: Part::Skipped,
        }
    }

    fn lexed(len: usize, lexeme: Lexeme) -> Piece
        ensures { result ≡ lexed len lexeme }
    {
        Piece {
            len,
            part: Part::Lexed(lexeme),
        }
    }

    fn broken(rule: Rule) -> Piece
        ensures { result ≡ broken rule }
    {
        Piece {
            len: 1,
            part: Part::Broken(rule),
        }
    }
}

/// How many bytes stand before the end of the line.
fn line_len(text: &[u8]) -> usize
    ensures len { result ≡ line_len_of text.now }
    ensures within { result ≤ length text.now }
{
    text.iter().take_while(|b| **b != b'\n').count()
}

/// The block comment at the front of a text.
#[tactic(auto, unfolding(crate::specs::Pieces::comment_piece))]
fn comment_piece(text: &[u8]) -> Piece
    requires { 2 ≤ length text.now }
    ensures piece { result ≡ comment_piece_of text.now }
    ensures within { (0 < result.len) × (result.len ≤ length text.now) }
{
    let (_, mut rest) = text.split_at(2);
    while let Some((byte, after)) = rest.split_first() {
        if *byte == b'*' && begins_with(b'/', after) {
            return Piece::skipped(text.len() - (after.len() - 1));
        }
        rest = after;
    }
    Piece::broken(Rule::OpenComment)
}

/// The name or reserved word at the front of a text.
#[tactic(auto, unfolding(crate::specs::Pieces::name_piece))]
fn name_piece(alloc: Global, text: &[u8]) -> Result<Piece, AllocError>
    requires { 0 < name_len_of text.now }
    ensures piece { IfOk result (λ piece. piece ≡ name_piece_of text.now) }
    ensures within { IfOk result (λ piece. (0 < piece.len) × (piece.len ≤ length text.now)) }
{
    let (spelling, _) = text.split_at(name_len(text));
    let lexeme = match Keyword::of_spelling(spelling) {
        Some(word) => Lexeme::Word(word.number()),
        None => Lexeme::Name(Items::from_slice(alloc, spelling)?),
    };
    Ok(Piece::lexed(spelling.len(), lexeme))
}

/// The number at the front of a text.
#[tactic(auto, unfolding(crate::specs::Pieces::number_piece))]
fn number_piece(text: &[u8]) -> Piece
    requires { 0 < length text.now }
    ensures piece { result ≡ number_piece_of text.now }
    ensures within { (0 < result.len) × (result.len ≤ length text.now) }
{
    let radix = radix_of(text);
    let (_, rest) = text.split_at(digits_start(radix));
    let (digits, after) = rest.split_at(digits_len(radix, rest));
    if begins_with_word(after) {
        return Piece::broken(Rule::BadNumber);
    }
    match radix.number(digits) {
        Some(number) => Piece::lexed(digits_start(radix) + digits.len(), Lexeme::Int(number)),
        None => Piece::broken(Rule::BadNumber),
    }
}

/// The character between single quotes at the front of a text.
#[tactic(auto, unfolding(crate::specs::Pieces::character_piece))]
fn character_piece(text: &[u8]) -> Piece
    requires { 0 < length text.now }
    ensures piece { result ≡ character_piece_of text.now }
    ensures within { (0 < result.len) × (result.len ≤ length text.now) }
{
    let Some(character) = character_at(b'\'', &text[1..]) else {
        return Piece::broken(Rule::OpenText);
    };
    if begins_with(b'\'', &text[1 + character.len..]) {
        Piece::lexed(character.len + 2, Lexeme::Char(character.value))
    } else {
        Piece::broken(Rule::OpenText)
    }
}

/// The text between double quotes at the front of a text.
#[tactic(auto, unfolding(crate::specs::Pieces::text_piece))]
fn text_piece(alloc: Global, text: &[u8]) -> Result<Piece, AllocError>
    requires { 0 < length text.now }
    ensures piece { IfOk result (λ piece. piece ≡ text_piece_of text.now) }
    ensures within { IfOk result (λ piece. (0 < piece.len) × (piece.len ≤ length text.now)) }
{
    let mut values = Items::new(alloc);
    let (_, mut rest) = text.split_at(1);
    while let Some((byte, after)) = rest.split_first() {
        if *byte == b'"' {
            return Ok(Piece::lexed(text.len() - after.len(), Lexeme::Text(values)));
        }
        let Some(character) = character_at(b'"', rest) else {
            return Ok(Piece::broken(Rule::OpenText));
        };
        values.push(character.value)?;
        rest = rest.split_at(character.len).1;
    }
    Ok(Piece::broken(Rule::OpenText))
}

/// The symbol at the front of a text.
#[tactic(auto, using(crate::proofs::Taking::take_min), unfolding(crate::specs::Pieces::symbol_piece))]
fn symbol_piece(text: &[u8]) -> Piece
    requires { 0 < length text.now }
    ensures piece { result ≡ symbol_piece_of text.now }
    ensures within { (0 < result.len) × (result.len ≤ length text.now) }
{
    let (longest, _) = text.split_at(text.len().min(2));
    match Symbol::of_spelling(longest) {
        Some(symbol) => Piece::lexed(longest.len(), Lexeme::Symbol(symbol.number())),
        None => match Symbol::of_spelling(text.split_at(1).0) {
            Some(symbol) => Piece::lexed(1, Lexeme::Symbol(symbol.number())),
            None => Piece::broken(Rule::BadByte),
        },
    }
}

/// The name of an operator after one or two percent signs, or the symbol `%`.
#[tactic(auto, unfolding(crate::specs::Pieces::percent_piece))]
fn percent_piece(alloc: Global, text: &[u8]) -> Result<Piece, AllocError>
    requires { 0 < length text.now }
    ensures piece { IfOk result (λ piece. piece ≡ percent_piece_of text.now) }
    ensures within { IfOk result (λ piece. (0 < piece.len) × (piece.len ≤ length text.now)) }
{
    let (_, after) = text.split_at(1);
    if begins_with_operator(after) {
        let (name, _) = after.split_at(operator_len(after));
        let spelling = Items::from_slice(alloc, name)?;
        return Ok(Piece::lexed(1 + name.len(), Lexeme::Op(spelling)));
    }
    if begins_with(b'%', after) && begins_with_operator(&after[1..]) {
        let (name, _) = after[1..].split_at(operator_len(&after[1..]));
        let spelling = Items::from_slice(alloc, name)?;
        return Ok(Piece::lexed(2 + name.len(), Lexeme::Checked(spelling)));
    }
    Ok(symbol_piece(text))
}

/// The piece at the front of a text, at the start of a line or elsewhere.
#[tactic(auto, unfolding(crate::specs::Pieces::piece_at))]
pub fn piece_at(alloc: Global, line_start: bool, text: &[u8]) -> Result<Piece, AllocError>
    requires { 0 < length text.now }
    ensures piece { IfOk result (λ piece. piece ≡ piece_in line_start text.now) }
    ensures within { IfOk result (λ piece. (0 < piece.len) × (piece.len ≤ length text.now)) }
{
    let byte = text[0];
    let (_, after) = text.split_at(1);
    if is_separator(byte) {
        return Ok(Piece::skipped(1));
    }
    if line_start && byte == b'#' || byte == b'/' && begins_with(b'/', after) {
        return Ok(Piece::skipped(line_len(text)));
    }
    if byte == b'/' && begins_with(b'*', after) {
        return Ok(comment_piece(text));
    }
    if is_digit(byte) {
        return Ok(number_piece(text));
    }
    if name_len(text) > 0 {
        return name_piece(alloc, text);
    }
    match byte {
        b'\'' => Ok(character_piece(text)),
        b'"' => text_piece(alloc, text),
        b'%' => percent_piece(alloc, text),
        _ => Ok(symbol_piece(text)),
    }
}
