//! The machine: words of instructions, single steps, and accesses of memory. All numbers of these cases are hexadecimal.

ghost use Rattle.std.specs.Prelude.{IsTrue};
ghost use Rattle.rv_table.specs.Bounds.{is_size};

use crate::instructions::print_instruction;
use crate::text::{asked, bytes_of, hexadecimal_of, hexadecimals_of};
use rv_code::{decode, encode};
use rv_memory::Memory;
use rv_sim::{Event, step};
use rv_table::memory_map::{CODE_BASE, DATA_BASE};
use rv_table::{Instr, Regs, valid};
use std::alloc::{AllocError, Global};
use std::io;

/// More steps than a program makes.
const STEPS: u32 = 10_000;

/// How many bytes of data a program has.
const DATA: u64 = 1280;

/// Prints the instruction of a word, and whether it is encoded as this word.
pub fn print_word(rt: &impl Print, text: &str) -> io::Result<()> {
    let word = (hexadecimal_of(text) % 0x1_0000_0000) as u32;
    match decode(word) {
        Some(instruction) => {
            let again = valid(instruction) && is_encoded(instruction, word);
            print_instruction(rt, instruction)?;
            print!(rt; " {again}")
        }
        None => print!(rt; " none"),
    }
}

/// Whether an instruction is encoded as a word.
fn is_encoded(instruction: Instr, word: u32) -> bool {
    valid(instruction) && encode(instruction) == word
}

/// Prints what a step leaves: the words are that of the instruction, two registers with their values, and the register that is written. It is the value of
/// that and how far pc is behind the code's beginning, or what other event comes of the step.
pub fn print_step(rt: &(impl AllocGlobal + Print), text: &str) -> io::Result<()> {
    let numbers = hexadecimals_of(rt.alloc(), text)?;
    let [word, first, x, second, y, written] = numbers.as_slice() else {
        return print!(rt; " no step");
    };
    let mut memory = memory_with(rt.alloc(), *word)?;
    let mut registers = holding((*first, *x), (*second, *y));
    let event = step(&mut registers, &mut memory);
    let distance = registers.pc.wrapping_sub(CODE_BASE);
    match event {
        Event::Next => print!(rt; " {:x} {distance:x}", value_in(&registers, *written)),
        other => print!(rt; " {other:?} {distance:x}"),
    }
}

/// Prints what a load or a store leaves: behind the words of a step stand the address of eight bytes and what they hold before. It is the value of the register
/// that is written and what these bytes hold after.
pub fn print_access(rt: &(impl AllocGlobal + Print), text: &str) -> io::Result<()> {
    let numbers = hexadecimals_of(rt.alloc(), text)?;
    let [word, first, x, second, y, written, address, before] = numbers.as_slice() else {
        return print!(rt; " no access");
    };
    let mut memory = memory_with(rt.alloc(), *word)?;
    let stored = memory.store(*address, 8, *before);
    let mut registers = holding((*first, *x), (*second, *y));
    let event = step(&mut registers, &mut memory);
    if stored.is_err() || event != Event::Next {
        return print!(rt; " {stored:?} {event:?}");
    }
    let after = memory.load(*address, 8).unwrap_or(0);
    print!(rt; " {:x} {after:x}", value_in(&registers, *written))
}

/// Prints what comes of a step at an address, where the code is one instruction that does nothing.
pub fn print_fetch(rt: &(impl AllocGlobal + Print), text: &str) -> io::Result<()> {
    let mut memory = memory_with(rt.alloc(), 0x13)?;
    let mut registers = holding((0, 0), (0, 0));
    registers.pc = hexadecimal_of(text);
    print!(rt; " {:?}", step(&mut registers, &mut memory))
}

/// Prints what a program leaves in the data, in words of eight bytes, and the event that ends it. The words of the case are those of the code.
pub fn print_run(rt: &(impl AllocGlobal + Print), text: &str) -> io::Result<()> {
    let mut memory = memory_of(rt.alloc(), &hexadecimals_of(rt.alloc(), text)?)?;
    let event = run(&mut memory);
    print!(rt; " {event:?}")?;
    for index in 0..DATA / 8 {
        let address = DATA_BASE.saturating_add(index.saturating_mul(8));
        print!(rt; " {:x}", memory.load(address, 8).unwrap_or(0))?;
    }
    Ok(())
}

/// Runs until something other than the next instruction comes of a step.
fn run(memory: &mut Memory) -> Event {
    let mut registers = holding((0, 0), (0, 0));
    for _ in 0..STEPS {
        let event = step(&mut registers, memory);
        if event != Event::Next {
            return event;
        }
    }
    Event::Next
}

/// A memory with the code of these words, and as much data as a program has.
fn memory_of(alloc: Global, words: &[u64]) -> Result<Memory, AllocError> {
    let mut code = Vec::new(alloc);
    for word in words.iter().take(1024) {
        code.extend_from_slice(&((*word % 0x1_0000_0000) as u32).to_le_bytes())?;
    }
    code.truncate(4096);
    Memory::new(alloc, &code, &[0; 1280], 0)
}

/// A memory with the code of one word, and 4,096 bytes each of data and stack.
fn memory_with(alloc: Global, word: u64) -> Result<Memory, AllocError> {
    let code = ((word % 0x1_0000_0000) as u32).to_le_bytes();
    Memory::new(alloc, &code, &[0; 4096], 4096)
}

/// Registers at the beginning of the code, two of which hold a value.
fn holding(first: (u64, u64), second: (u64, u64)) -> Regs {
    let mut registers = Regs {
        x: [0; 32],
        pc: CODE_BASE,
    };
    give(&mut registers, first.0, first.1);
    give(&mut registers, second.0, second.1);
    registers
}

fn give(registers: &mut Regs, register: u64, value: u64) {
    if register < 32 {
        registers.write(register as u8, value);
    }
}

fn value_in(registers: &Regs, register: u64) -> u64 {
    if register < 32 {
        registers.read(register as u8)
    } else {
        0
    }
}

/// Prints what accesses of a memory answer: the first three words have its code, its data and the size of its stack, and each other is an access, as
/// `store:ADDRESS:SIZE:VALUE`.
pub fn print_memory(rt: &(impl AllocGlobal + Print), text: &str) -> io::Result<()> {
    let (code, rest) = text.split_once(' ').unwrap_or((text, ""));
    let (data, rest) = rest.split_once(' ').unwrap_or((rest, ""));
    let (stack, words) = rest.split_once(' ').unwrap_or((rest, ""));
    let code = bytes_of(rt.alloc(), code)?;
    let data = bytes_of(rt.alloc(), data)?;
    let stack = hexadecimal_of(stack);
    if code.len() > 4096 || data.len() > 4096 || stack > 0x1000_0000 {
        return print!(rt; " no memory");
    }
    let mut memory = Memory::new(rt.alloc(), &code, &data, stack)?;
    for word in words.split(' ') {
        print_answer(rt, &mut memory, word)?;
    }
    print!(rt; " {:x} {:x}", memory.base(), memory.top())
}

/// Prints what an access answers.
fn print_answer(rt: &impl Print, memory: &mut Memory, word: &str) -> io::Result<()> {
    let (what, rest) = asked(word);
    let (address, rest) = asked(rest);
    let (size, value) = asked(rest);
    let address = hexadecimal_of(address);
    let size = size_of(hexadecimal_of(size));
    match what {
        "load" => print!(rt; " {:?}", memory.load(address, size)),
        "store" => print!(rt; " {:?}", memory.store(address, size, hexadecimal_of(value))),
        "fetch" => print!(rt; " {:?}", memory.fetch(address)),
        _ => Ok(()),
    }
}

/// The size of an access.
fn size_of(number: u64) -> u8
    ensures { IsTrue (is_size result) }
{
    match number {
        1 => 1,
        2 => 2,
        4 => 4,
        _ => 8,
    }
}
