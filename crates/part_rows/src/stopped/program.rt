//! A stopped program: an image with registers and a memory.
ghost use Rattle.std.specs.Prelude.{IfSome};
ghost use Rattle.rv_memory.specs.Regions.{region_of};
ghost use Rattle.cmm_walk.specs.Activations.{Fits};

use cmm_image::Image;
use cmm_walk::{Activation, next_activation, youngest};
use rv_memory::{Memory, NoMemory};
use rv_table::Regs;
use rv_table::memory_map::{CODE_LENGTH_LIMIT, DATA_LENGTH_LIMIT, STACK_SIZE_LIMIT};
use std::alloc::{AllocError, Global};

/// A stopped program.
#[derive(Drop)]
pub struct Stopped {
    pub image: Image,
    pub regs: Regs,
    pub memory: Memory,
}

impl Stopped {
    /// The program of an image, with registers of 0, its first data and a stack of `stack` bytes.
    pub fn new(alloc: Global, image: Image, stack: u64) -> Result<Stopped, NoMemory> {
        let memory = memory_of(alloc, &image, stack)?;
        let regs = Regs { x: [0; 32], pc: 0 };
        Ok(Stopped {
            image,
            regs,
            memory,
        })
    }

    /// Its words anew, with a stack of `stack` bytes.
    pub fn restart(&mut self, alloc: Global, stack: u64) -> Result<(), NoMemory> {
        self.memory = memory_of(alloc, &self.image, stack)?;
        self.regs = Regs { x: [0; 32], pc: 0 };
        Ok(())
    }

    /// Gives a register a value.
    pub fn set_register(&mut self, register: u64, value: u64) {
        if register < 32 {
            self.regs.write(register as u8, value);
        }
    }
}

/// The memory of an image at its start.
fn memory_of(alloc: Global, image: &Image, stack: u64) -> Result<Memory, NoMemory> {
    let parts = image.parts();
    let code = parts.code.as_slice();
    let data = parts.initial.as_slice();
    if code.len() as u64 <= CODE_LENGTH_LIMIT
        && data.len() as u64 <= DATA_LENGTH_LIMIT
        && stack <= STACK_SIZE_LIMIT
    {
        Memory::new(alloc, code, data, stack)
    } else {
        Err(AllocError)
    }
}

/// Writes 8 bytes at an address of the stack, or elsewhere at a multiple of 8.
pub fn put_word(memory: &mut Memory, address: u64, value: u64) {
    if is_in_stack(memory, address) {
        memory.set_word(address, value);
    } else {
        let _ = memory.store(address, 8, value);
    }
}

/// The number in 8 bytes of the stack, or elsewhere at a multiple of 8.
pub fn word_at(memory: &Memory, address: u64) -> Option<u64> {
    if is_in_stack(memory, address) {
        Some(memory.word(address))
    } else {
        memory.load(address, 8).ok()
    }
}

ghost use Rattle.std.specs.Prelude.{◌≡◌, ◌≤◌, ◌+◌, IsTrue};
ghost use Rattle.rv_table.specs.Machine.{bottom, top};

/// Whether 8 bytes lie in the stack.
fn is_in_stack(memory: &Memory, address: u64) -> bool
    ensures low { IsTrue result → bottom (region_of memory.now) ≤ address }
    ensures high { IsTrue result → address + 8 ≤ top (region_of memory.now) }
{
    let top = memory.top();
    memory.base() <= address && address <= top && 8 <= top - address
}

/// The activation that has so many younger ones, if the chain goes so far.
pub fn activation_at(s: &Stopped, younger: u64) -> Option<Activation>
    ensures { IfSome result (Fits s.now.image (region_of s.now.memory)) }
{
    let Ok(mut found) = youngest(&s.image, &s.regs, &s.memory) else {
        return None;
    };
    for step in 0..younger {
        let Some(a) = found else {
            return None;
        };
        let Ok(next) = next_activation(&a, &s.image, &s.memory) else {
            return None;
        };
        found = next;
    }
    found
}
