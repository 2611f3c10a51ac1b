//! The calls that lines of the input say.

use crate::stopped::program::{Stopped, activation_at, put_word, word_at};
use crate::text::hexadecimals_of;
use cmm_outside::StdSink;
use cmm_resume::{
    Refusal, poke, resume_cut, resume_return, resume_unwind, set_local_var, unwind_target,
};
use cmm_walk::{Torn, WalkError, descriptor, stack_label, var_count, write_walk};
use std::io;

/// Does what a line says, and prints what it answers.
pub fn print_call(rt: &(impl AllocGlobal + Print), s: &mut Stopped, line: &str) -> io::Result<()> {
    let (what, rest) = line.split_once(' ').unwrap_or((line, ""));
    if what == "walk" {
        return print_walk(rt, s);
    }
    if what == "poke" {
        return print_poke(rt, s, rest);
    }
    let numbers = hexadecimals_of(rt.alloc(), rest)?;
    match (what, numbers.as_slice()) {
        ("stack", [size]) => print_restart(rt, s, *size),
        ("x", [register, value]) => {
            s.set_register(*register, *value);
            Ok(())
        }
        ("word", [address, value]) => {
            put_word(&mut s.memory, *address, *value);
            Ok(())
        }
        ("read", [address]) => print_option(rt, word_at(&s.memory, *address)),
        ("regs", []) => print_regs(rt, s),
        _ => print_asked(rt, s, what, &numbers),
    }
}

/// Prints what is asked of an activation, or what a change comes to.
fn print_asked(
    rt: &(impl AllocGlobal + Print),
    s: &mut Stopped,
    what: &str,
    numbers: &[u64],
) -> io::Result<()> {
    match (what, numbers) {
        ("desc", [younger, token]) => match activation_at(s, *younger) {
            Some(a) => println!(rt; "{:x}", descriptor(&a, &s.image, *token)),
            None => println!(rt; "none"),
        },
        ("label", [younger, n]) => match activation_at(s, *younger) {
            Some(a) => print_option(rt, stack_label(&a, &s.image, short(*n))),
            None => println!(rt; "none"),
        },
        ("count", [younger]) => match activation_at(s, *younger) {
            Some(a) => println!(rt; "{}", var_count(&a, &s.image)),
            None => println!(rt; "none"),
        },
        ("return", [exit, values @ ..]) => {
            let answer = resume_return(&s.image, &mut s.regs, &mut s.memory, short(*exit), values);
            print_answer(rt, answer)
        }
        ("cut", [to, values @ ..]) => {
            let answer = resume_cut(&s.image, &mut s.regs, &mut s.memory, *to, values);
            print_answer(rt, answer)
        }
        ("set", [younger, n, value]) => print_set(rt, s, *younger, short(*n), *value),
        ("unwind", [younger, exit, values @ ..]) => {
            print_unwind(rt, s, *younger, short(*exit), values)
        }
        ("would", [younger, exit, values @ ..]) => {
            print_would(rt, s, *younger, short(*exit), values)
        }
        _ => println!(rt; "no such call"),
    }
}

fn print_set(rt: &impl Print, s: &mut Stopped, younger: u64, n: u32, value: u64) -> io::Result<()> {
    match activation_at(s, younger) {
        Some(a) => {
            let answer = set_local_var(&a, &s.image, &mut s.regs, &mut s.memory, n, value);
            print_answer(rt, answer)
        }
        None => println!(rt; "none"),
    }
}

fn print_unwind(
    rt: &impl Print,
    s: &mut Stopped,
    younger: u64,
    exit: u32,
    values: &[u64],
) -> io::Result<()> {
    match activation_at(s, younger) {
        Some(a) => {
            let answer = resume_unwind(&a, &s.image, &mut s.regs, &mut s.memory, exit, values);
            print_answer(rt, answer)
        }
        None => println!(rt; "none"),
    }
}

/// Prints where an unwinding would go, without doing it.
fn print_would(
    rt: &impl Print,
    s: &Stopped,
    younger: u64,
    exit: u32,
    values: &[u64],
) -> io::Result<()> {
    match activation_at(s, younger) {
        Some(a) => match unwind_target(&a, &s.image, exit, values) {
            Ok(landing) => println!(rt; "{landing:x}"),
            Err(rule) => println!(rt; "refused {}", rule.number()),
        },
        None => println!(rt; "none"),
    }
}

/// Prints what `poke` comes to: a name, and how far behind it which value is written.
fn print_poke(rt: &(impl AllocGlobal + Print), s: &mut Stopped, rest: &str) -> io::Result<()> {
    let (name, rest) = rest.split_once(' ').unwrap_or((rest, ""));
    let numbers = hexadecimals_of(rt.alloc(), rest)?;
    match numbers.as_slice() {
        [offset, value] => {
            let answer = poke(&s.image, &mut s.memory, name.as_bytes(), *offset, *value);
            print_answer(rt, answer)
        }
        _ => println!(rt; "no such call"),
    }
}

fn print_walk(rt: &impl Print, s: &Stopped) -> io::Result<()> {
    let mut out = StdSink::new(io::writer(rt));
    match write_walk(&s.image, &s.regs, &s.memory, &mut out) {
        Ok(()) => Ok(()),
        Err(WalkError::Torn(torn)) => print_torn(rt, torn),
        Err(WalkError::Failed) => println!(rt; "failed"),
    }
}

fn print_restart(rt: &(impl AllocGlobal + Print), s: &mut Stopped, size: u64) -> io::Result<()> {
    match s.restart(rt.alloc(), size) {
        Ok(()) => Ok(()),
        Err(_) => println!(rt; "out of memory"),
    }
}

fn print_answer(rt: &impl Print, answer: Result<(), Refusal>) -> io::Result<()> {
    match answer {
        Ok(()) => println!(rt; "ok"),
        Err(Refusal::ByRule(rule)) => println!(rt; "refused {}", rule.number()),
        Err(Refusal::Torn(torn)) => print_torn(rt, torn),
    }
}

fn print_torn(rt: &impl Print, torn: Torn) -> io::Result<()> {
    println!(rt; "torn {:x} {:x}", torn.frame, torn.address)
}

fn print_option(rt: &impl Print, number: Option<u64>) -> io::Result<()> {
    match number {
        Some(number) => println!(rt; "{number:x}"),
        None => println!(rt; "none"),
    }
}

/// Prints pc, and each register that is not 0.
fn print_regs(rt: &impl Print, s: &Stopped) -> io::Result<()> {
    print!(rt; "pc {:x}", s.regs.pc)?;
    for register in 1..32 {
        let value = s.regs.read(register);
        if value != 0 {
            print!(rt; " x{register} {value:x}")?;
        }
    }
    println!(rt;)
}

fn short(n: u64) -> u32 {
    u32::try_from(n).unwrap_or(u32::MAX)
}
