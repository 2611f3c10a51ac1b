//! Does what the lines of its input say with parts of the compiler and of its run-time interface, and prints what comes of it.
//!
//! It is the test of crates below the compiler, of the code that nodes have, and of stopped programs, on texts, as data: `stdin` has a case a line, a word that
//! says what is tried and what it is tried on, and `stdout` what has to come of it, from `tools/part_rows.py`, which knows nothing of these crates. Each printed
//! line begins with its case. A line `image` is no case: those that begin with `stopped`, below it, are about a program of this image, and what they answer
//! stands in lines of its own.
//!
//! - `cases`: what the lines of the input try.
//! - `text`: the bytes and the numbers that a case spells.
//! - `lists`: lists, sets, moves and graphs. `colours`: lists of nodes, and colours of conflicts. `readings`: tokens, rules and what is written of values. `scripts`: what is read of a script.
//! - `fakes`, `files`: streams and files in memory. `placements`: where a program of two procedures may stand.
//! - `steps`: words of instructions, single steps, and accesses of memory. `instructions`: how an instruction is printed.
//! - `code`: the code of nodes, which is run. `stopped`: stopped programs, which are walked and changed.
#![tactic(auto)]

mod cases;
mod code;
mod colours;
mod fakes;
mod files;
mod instructions;
mod lists;
mod placements;
mod readings;
mod scripts;
mod steps;
mod stopped;
mod text;

use cases::print_case;
use std::io;
use stopped::{Stopped, print_stopped, take_image};

fn main(rt: HostRuntime) -> io::Result<()> {
    let mut stopped: Option<Stopped> = None;
    for line in rt.lines(rt.alloc()) {
        do_line(&rt, &mut stopped, line?.as_str())?;
    }
    Ok(())
}

/// Takes the image of a line, or prints what the line says and what comes of it.
fn do_line(
    rt: &(impl AllocGlobal + Print),
    stopped: &mut Option<Stopped>,
    line: &str,
) -> io::Result<()> {
    let (what, rest) = line.split_once(' ').unwrap_or((line, ""));
    match what {
        "image" => Ok(take_image(rt.alloc(), stopped, rest)?),
        "stopped" => {
            println!(rt; "{line}")?;
            print_stopped(rt, stopped, rest)
        }
        _ => {
            print!(rt; "{line}:")?;
            print_case(rt, what, rest)?;
            println!(rt;)
        }
    }
}
