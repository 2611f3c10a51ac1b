//! Files in memory, some of whose calls are listed to fail.

ghost use Rattle.std.specs.Prelude.{◌≤◌, length};

use crate::text::{asked, bytes_of, number_of, numbers_of};
use cmm_outside::storage::NAME_LIMIT;
use cmm_outside::{Files, MemFiles, read_file, write_file};
use cmm_words::Quoted;
use std::io;

/// Prints what comes of calls on files: the first word says which calls fail, and each other one is a call, as `append:NAME:TEXT`.
pub fn print_files(rt: &(impl AllocGlobal + Print), text: &str) -> io::Result<()> {
    let (failing, words) = text.split_once(' ').unwrap_or((text, ""));
    let mut files = MemFiles::new(rt.alloc(), numbers_of(rt.alloc(), failing)?);
    for word in words.split(' ') {
        let (what, rest) = asked(word);
        let (name, rest) = asked(rest);
        if name.len() > NAME_LIMIT {
            return print!(rt; " too long a name");
        }
        print_call(rt, &mut files, what, name, rest)?;
    }
    Ok(())
}

/// Prints what comes of a call on the file with a name.
fn print_call(
    rt: &(impl AllocGlobal + Print),
    files: &mut MemFiles,
    what: &str,
    name: &str,
    rest: &str,
) -> io::Result<()>
    requires { length name.now ≤ NAME_LIMIT }
{
    let bytes = bytes_of(rt.alloc(), rest)?;
    match what {
        "put" => Ok(files.put(name, &bytes)?),
        "room" => Ok(files.room(name, number_of(rest).min(1000))?),
        "get" => print!(rt; " {:?}", files.get(name).map(Quoted)),
        "create" => print!(rt; " {:?}", files.create(name)),
        "append" => print!(rt; " {:?}", files.append(name, &bytes)),
        "write" => print!(rt; " {:?}", write_file(files, name, &bytes)),
        "read" => print_read(rt, files, name, rest),
        "whole" => {
            let read = read_file(rt.alloc(), files, name, number_of(rest));
            print!(rt; " {:?}", read.map(|bytes| bytes.len()))
        }
        _ => Ok(()),
    }
}

/// Prints what a read of two bytes from an offset gives, or of none where the offset begins with a minus.
fn print_read(rt: &impl Print, files: &mut MemFiles, name: &str, from: &str) -> io::Result<()>
    requires { length name.now ≤ NAME_LIMIT }
{
    let mut buffer = [b'-'; 2];
    let count = if from.is_empty() { 0 } else { 2 };
    let room = &mut buffer[..count];
    let read = files.read_at(name, number_of(from), room);
    print!(rt; " {read:?} {:?}", Quoted(room))
}
