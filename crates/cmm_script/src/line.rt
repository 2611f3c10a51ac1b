//! One line of a script: the head of a block, or a command.

ghost use Rattle.std.specs.Prelude.{◌≡◌, map, ◌<◌, ◌≤◌};
ghost use Rattle.cmm_script.specs.inside.Reading.{Reads, Gives, alone as alone_of, one as one_of, two as two_of, three as three_of, values_of, each_value as each_value_of, exit_of, cut_of, line_as, line_of as line_in_words};

use crate::fault::Unread;
use crate::keyword::Keyword;
use crate::number::{index, number, value};
use crate::script::{Command, Value};
use cmm_items::Items;
use std::alloc::Global;

/// What a line says.
#[derive(Drop)]
pub enum Line {
    /// A block begins, whose code this is.
    Begins(Option<u64>),
    /// The client does this.
    Does(Command),
}

/// The most values that follow the number of an exit, or the first value of a cut.
pub const VALUES_LIMIT: usize = 64;

/// What the words of a line say.
#[tactic(auto, unfolding(crate::specs::inside::Reading::line_of))]
pub fn line_of(alloc: Global, words: &[&[u8]]) -> Result<Line, Unread>
    ensures { Reads result (line_in_words (map (λ word. word.now) words.now)) }
{
    match words {
        [] => Err(Unread::Form),
        [first, operands @ ..] => {
            let keyword = Keyword::of(first).ok_or(Unread::Form)?;
            line_of_keyword(alloc, keyword, operands)
        }
    }
}

/// What a line says that begins with a keyword.
#[tactic(auto, unfolding(crate::specs::inside::Reading::line_as))]
fn line_of_keyword(alloc: Global, keyword: Keyword, operands: &[&[u8]]) -> Result<Line, Unread>
    ensures { Reads result (line_as keyword (map (λ word. word.now) operands.now)) }
{
    match keyword {
        Keyword::At => Ok(Line::Begins(Some(number(one(operands)?)?))),
        Keyword::Other => alone(operands, Line::Begins(None)),
        Keyword::List => alone(operands, Line::Does(Command::List)),
        Keyword::Youngest => alone(operands, Line::Does(Command::Youngest)),
        Keyword::Next => alone(operands, Line::Does(Command::Next)),
        Keyword::Desc => Ok(Line::Does(Command::Desc(number(one(operands)?)?))),
        Keyword::Seek => {
            let (token, descriptor) = two(operands)?;
            Ok(Line::Does(Command::Seek(number(token)?, value(descriptor)?)))
        }
        Keyword::Var => Ok(Line::Does(Command::Var(index(one(operands)?)?))),
        Keyword::Set => {
            let (variable, given) = two(operands)?;
            Ok(Line::Does(Command::Set(index(variable)?, value(given)?)))
        }
        Keyword::Poke => {
            let (label, offset, given) = three(operands)?;
            let label = Items::from_slice(alloc, label)?;
            Ok(Line::Does(Command::Poke(label, number(offset)?, value(given)?)))
        }
        Keyword::Return => {
            let (exit, values) = exit(alloc, operands)?;
            Ok(Line::Does(Command::Return(exit, values)))
        }
        Keyword::Unwind => {
            let (exit, values) = exit(alloc, operands)?;
            Ok(Line::Does(Command::Unwind(exit, values)))
        }
        Keyword::Cut => {
            let (continuation, values) = cut(alloc, operands)?;
            Ok(Line::Does(Command::Cut(continuation, values)))
        }
        Keyword::Stop => alone(operands, Line::Does(Command::Stop)),
    }
}

/// A line whose keyword has no operands.
fn alone(operands: &[&[u8]], line: Line) -> Result<Line, Unread>
    ensures { Reads result (alone_of (map (λ word. word.now) operands.now) line) }
{
    match operands {
        [] => Ok(line),
        _ => Err(Unread::Form),
    }
}

/// The one operand.
fn one<'a>(operands: &[&'a [u8]]) -> Result<&'a [u8], Unread>
    ensures { Gives (λ word. word.now) result (one_of (map (λ word. word.now) operands.now)) }
{
    match operands {
        [first] => Ok(first),
        _ => Err(Unread::Form),
    }
}

/// The two operands.
fn two<'a>(operands: &[&'a [u8]]) -> Result<(&'a [u8], &'a [u8]), Unread>
    ensures { Gives (λ words. (words.0.now, words.1.now)) result (two_of (map (λ word. word.now) operands.now)) }
{
    match operands {
        [first, second] => Ok((first, second)),
        _ => Err(Unread::Form),
    }
}

/// The three operands.
fn three<'a>(operands: &[&'a [u8]]) -> Result<(&'a [u8], &'a [u8], &'a [u8]), Unread>
    ensures { Gives (λ words. (words.0.now, words.1.now, words.2.now)) result (three_of (map (λ word. word.now) operands.now)) }
{
    match operands {
        [first, second, third] => Ok((first, second, third)),
        _ => Err(Unread::Form),
    }
}

/// The number of an exit, and the values for it.
#[tactic(auto, unfolding(crate::specs::inside::Reading::exit_of))]
fn exit(alloc: Global, operands: &[&[u8]]) -> Result<(u32, Items<Value>), Unread>
    ensures { Reads result (exit_of (map (λ word. word.now) operands.now)) }
{
    match operands {
        [] => Err(Unread::Form),
        [first, rest @ ..] => Ok((index(first)?, values(alloc, rest)?)),
    }
}

/// The continuation that is cut to, and the values for it.
#[tactic(auto, unfolding(crate::specs::inside::Reading::cut_of))]
fn cut(alloc: Global, operands: &[&[u8]]) -> Result<(Value, Items<Value>), Unread>
    ensures { Reads result (cut_of (map (λ word. word.now) operands.now)) }
{
    match operands {
        [] => Err(Unread::Form),
        [first, rest @ ..] => Ok((value(first)?, values(alloc, rest)?)),
    }
}

/// At most `VALUES_LIMIT` values.
#[tactic(auto, unfolding(crate::specs::inside::Reading::values_of))]
fn values(alloc: Global, words: &[&[u8]]) -> Result<Items<Value>, Unread>
    ensures { Reads result (values_of (map (λ word. word.now) words.now)) }
{
    if words.len() > VALUES_LIMIT {
        return Err(Unread::Form);
    }
    each_value(alloc, words)
}

fn each_value(alloc: Global, words: &[&[u8]]) -> Result<Items<Value>, Unread>
    ensures { Reads result (each_value_of (map (λ word. word.now) words.now)) }
{
    let mut values = Items::new(alloc);
    for word in words {
        values.push(value(word)?)?;
    }
    Ok(values)
}
