//! Tokens and rules, and what is written of values.

use crate::text::{bytes_of, number_of, small_of};
use cmm_generated::generate;
use cmm_lexer::{TokenKind, Tokens, lex};
use cmm_outside::MemSink;
use cmm_report::{put_address, put_kind, put_number};
use cmm_rules::Rule;
use cmm_words::{Constant, Name, Quoted, Width};
use std::io;

/// Prints the tokens of a unit with their places and their spellings, and the place behind the last byte, or the fault of bytes that are no unit.
pub fn print_tokens(rt: &(impl AllocGlobal + Print), text: &str) -> io::Result<()> {
    let bytes = bytes_of(rt.alloc(), text)?;
    match lex(rt.alloc(), &bytes) {
        Ok(tokens) => print_list(rt, &tokens),
        Err(fault) => print!(rt; " {fault}"),
    }
}

fn print_list(rt: &impl Print, tokens: &Tokens) -> io::Result<()> {
    for token in tokens.list.as_slice() {
        let kind = token.kind;
        print!(rt;
            " {}:{}:{}-{} {kind:?}",
            token.line, token.column, token.start, token.end
        )?;
        if let TokenKind::Name(number)
        | TokenKind::Text(number)
        | TokenKind::Op(number)
        | TokenKind::Checked(number) = kind
        {
            print!(rt; " {:?}", Quoted(tokens.spelling(number)))?;
        }
    }
    print!(rt; " {}:{}", tokens.line, tokens.column)
}

/// Prints the rule with a number, and what phase it is of.
pub fn print_rule(rt: &impl Print, text: &str) -> io::Result<()> {
    match Rule::of_number((small_of(text) % 256) as u8) {
        Some(rule) => print!(rt; " {rule}, {:?}", rule.phase()),
        None => print!(rt; " none"),
    }
}

/// Prints the bits and the bytes of the width with so many bits, and which of the other words are numbers of it.
pub fn print_width(rt: &impl Print, text: &str) -> io::Result<()> {
    let (bits, words) = text.split_once(' ').unwrap_or((text, ""));
    let Some(width) = Width::from_bits(number_of(bits)) else {
        return print!(rt; " none");
    };
    print!(rt; " {} {}", width.bits(), width.bytes())?;
    for word in words.split(' ') {
        print!(rt; " {}", Constant::Number(number_of(word), width).fits())?;
    }
    Ok(())
}

/// Prints a name as it is shown.
pub fn print_name(rt: &(impl AllocGlobal + Print), text: &str) -> io::Result<()> {
    let bytes = bytes_of(rt.alloc(), text)?;
    print!(rt; " {:?}", Name::from_slice(rt.alloc(), &bytes)?)
}

/// Prints what is written of a number, in decimal and as an address.
pub fn print_number(rt: &(impl AllocGlobal + Print), text: &str) -> io::Result<()> {
    let number = number_of(text);
    let mut sink = MemSink::new(rt.alloc(), 64, Vec::new(rt.alloc()))?;
    let whole = put_number(&mut sink, number).is_ok() && put_address(&mut sink, number).is_ok();
    print!(rt; " {whole} {:?}", Quoted(sink.bytes()))
}

/// Prints what is written of a kind.
pub fn print_kind(rt: &(impl AllocGlobal + Print), text: &str) -> io::Result<()> {
    let bytes = bytes_of(rt.alloc(), text)?;
    let mut sink = MemSink::new(rt.alloc(), 64, Vec::new(rt.alloc()))?;
    let whole = put_kind(&mut sink, &bytes).is_ok();
    print!(rt; " {whole} {:?}", Quoted(sink.bytes()))
}

/// Prints the length and the sum of the unit that is made of a number: 31 times the sum so far plus the byte, modulo 2^32.
pub fn print_generated(rt: &(impl AllocGlobal + Print), text: &str) -> io::Result<()> {
    let unit = generate(rt.alloc(), number_of(text))?;
    let mut sum = 0u32;
    for byte in &unit {
        sum = sum.wrapping_mul(31).wrapping_add(u32::from(*byte));
    }
    print!(rt; " {} {sum}", unit.len())
}
