//! Finished code that runs.

ghost use Rattle.std.specs.Prelude.{◌≡◌, ◌≤◌, ◌^◌, length};
ghost use Rattle.rv_asm.specs.Sizes.{all_longest};

use cmm_abi::registers::{FRAME, REGION};
use cmm_chain::Location;
use rv_asm::{Asm, CodeFix, fill};
use rv_memory::Memory;
use rv_sim::{Event, step};
use rv_table::Regs;
use rv_table::memory_map::{CODE_BASE, REGION_BASE, STACK_BASE};
use std::alloc::{AllocError, Global};

/// More steps than what is tried makes.
const STEPS: u32 = 100_000;

/// Registers and memory, and how many bytes of code there are.
#[derive(Drop)]
pub struct Machine {
    pub registers: Regs,
    pub memory: Memory,
    pub size: usize,
}

impl Machine {
    /// A machine that stands at the beginning of code, with these numbers for symbols, first bytes of data and a stack of `stack` bytes. The frame is at
    /// the stack's lowest address, and each other register has a number of its own.
    pub fn new(
        alloc: Global,
        asm: Asm,
        symbols: &[u64],
        initial: &[u8],
        stack: u32,
    ) -> Result<Machine, AllocError>
        requires code { all_longest asm.parts ≤ 2 ^ 20 }
        requires few { length initial.now ≤ 2 ^ 20 }
        requires small { stack ≤ 2 ^ 28 }
    {
        let placed = asm.finish(CODE_BASE)?;
        let mut code = placed.bytes.into_vec();
        for fix in placed.fixes.as_slice() {
            fill_in(&mut code, fix, symbols);
        }
        let memory = Memory::new(alloc, &code, initial, u64::from(stack))?;
        let size = code.len();
        Ok(Machine {
            registers: registers(),
            memory,
            size,
        })
    }

    /// Runs until something other than the next instruction comes of a step.
    pub fn run(&mut self) -> Event {
        for _ in 0..STEPS {
            let event = step(&mut self.registers, &mut self.memory);
            if event != Event::Next {
                return event;
            }
        }
        Event::Next
    }

    /// How many instructions there are.
    pub fn instructions(&self) -> usize {
        self.size / 4
    }

    /// The instruction with an index, and 0 where there is none.
    pub fn instruction(&self, index: usize) -> u32 {
        let address = CODE_BASE.saturating_add((index as u64).saturating_mul(4));
        self.memory.fetch(address).unwrap_or(0)
    }

    /// What a register has.
    pub fn register(&self, register: u8) -> u64 {
        if register < 32 {
            self.registers.read(register)
        } else {
            0
        }
    }

    /// The word of 64 bits at an address, and 0 where there is none.
    pub fn word(&self, address: u64) -> u64 {
        self.memory.load(address, 8).unwrap_or(0)
    }

    /// The byte at an address, and 0 where there is none.
    pub fn byte(&self, address: u64) -> u8 {
        (self.memory.load(address, 1).unwrap_or(0) % 256) as u8
    }

    /// Gives a place a number.
    pub fn put(&mut self, place: Location, number: u64) {
        match place {
            Location::Slot(offset) => {
                let _ = self.memory.store(slot(offset), 8, number);
            }
            Location::Saved(register) | Location::Temp(register) => {
                if register < 32 {
                    self.registers.write(register, number);
                }
            }
        }
    }

    /// What a place has.
    pub fn at(&self, place: Location) -> u64 {
        match place {
            Location::Slot(offset) => self.word(slot(offset)),
            Location::Saved(register) | Location::Temp(register) => self.register(register),
        }
    }
}

/// The address of a slot of the frame at the stack's lowest address.
fn slot(offset: u32) -> u64 {
    STACK_BASE + u64::from(offset)
}

/// The registers at the beginning.
fn registers() -> Regs {
    let mut registers = Regs {
        x: [0; 32],
        pc: CODE_BASE,
    };
    for register in 1..32u8 {
        registers.write(register, u64::from(register) * 0x0101_0101_0101_0101);
    }
    registers.write(FRAME, STACK_BASE);
    registers.write(REGION, REGION_BASE);
    registers
}

/// Gives a place in code the number of its symbol.
#[tactic(auto, using(crate::proofs::Fitting::filled_length))]
fn fill_in(code: &mut Vec<u8>, fix: &CodeFix, symbols: &[u64])
    ensures { length code.new.items ≡ length code.old.items }
{
    let place = fix.place as usize;
    if place + 8 > code.len() {
        return;
    }
    let symbol = symbols.get(fix.symbol as usize).copied().unwrap_or(0);
    fill(code, place, fix.number(symbol, CODE_BASE + place as u64));
}
