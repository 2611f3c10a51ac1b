//! Streams in memory, some of whose calls are listed to fail.

use crate::text::{asked, bytes_of, number_of, numbers_of, small_of};
use cmm_outside::{FixedSink, MemSink, MemSource, Sink, Source, write_all};
use cmm_words::Quoted;
use std::io;

/// Prints what reads of a source give: the first word has its bytes, the second which calls fail, and `read:N` asks for so many.
pub fn print_source(rt: &(impl AllocGlobal + Print), text: &str) -> io::Result<()> {
    let (bytes, rest) = text.split_once(' ').unwrap_or((text, ""));
    let (failing, words) = rest.split_once(' ').unwrap_or((rest, ""));
    let bytes = bytes_of(rt.alloc(), bytes)?;
    let mut source = MemSource::new(bytes, numbers_of(rt.alloc(), failing)?);
    for word in words.split(' ') {
        let (_, count) = asked(word);
        print_read(rt, &mut source, small_of(count) as usize)?;
    }
    print!(rt; " {:?}", Quoted(source.left()))
}

/// Prints what a read of at most eight bytes gives.
fn print_read(rt: &impl Print, source: &mut MemSource, count: usize) -> io::Result<()> {
    let mut buffer = [b'-'; 8];
    let room = &mut buffer[..count.min(8)];
    let read = source.read(room);
    print!(rt; " {read:?} {:?}", Quoted(room))
}

/// Prints what writes to a sink answer: the first word has its room, the second which calls fail, `write:TEXT` writes once, and `all:TEXT` to the end.
pub fn print_sink(rt: &(impl AllocGlobal + Print), text: &str) -> io::Result<()> {
    let (room, rest) = text.split_once(' ').unwrap_or((text, ""));
    let (failing, words) = rest.split_once(' ').unwrap_or((rest, ""));
    let failing = numbers_of(rt.alloc(), failing)?;
    let mut sink = MemSink::new(rt.alloc(), number_of(room).min(1000), failing)?;
    for word in words.split(' ') {
        let (what, piece) = asked(word);
        print_write(rt, &mut sink, what, piece.as_bytes())?;
    }
    print!(rt; " {:?}", Quoted(sink.bytes()))
}

/// Prints what writes of pieces to five lent bytes answer, how many are taken, and what the five are then.
pub fn print_lent(rt: &impl Print, text: &str) -> io::Result<()> {
    let mut room = [b'-'; 5];
    let mut sink = FixedSink::new(&mut room);
    for piece in text.split(' ') {
        print!(rt; " {:?}", sink.write(piece.as_bytes()))?;
    }
    print!(rt; " {}", sink.taken())?;
    print!(rt; " {:?}", Quoted(&room))
}

/// Prints what comes of a text that is written to the end of five lent bytes.
pub fn print_lent_whole(rt: &impl Print, text: &str) -> io::Result<()> {
    let mut room = [b'-'; 5];
    let mut sink = FixedSink::new(&mut room);
    let written = write_all(&mut sink, text.as_bytes());
    print!(rt; " {written:?} {}", sink.taken())?;
    print!(rt; " {:?}", Quoted(&room))
}

/// Prints what a write answers.
fn print_write<S: Sink>(rt: &impl Print, sink: &mut S, what: &str, piece: &[u8]) -> io::Result<()> {
    match what {
        "write" => print!(rt; " {:?}", sink.write(piece)),
        "all" => print!(rt; " {:?}", write_all(sink, piece)),
        _ => Ok(()),
    }
}
