//! The memory and its calls.
ghost use Rattle.std.specs.Prelude.{◌≡◌, ◌≤◌, ◌+◌, ◌*◌, ◌/◌, ◌%◌, length, IfOk, Ok, Err, IsTrue, IsFalse};
ghost use Rattle.std.specs.Option.{ok_or};
ghost use Rattle.rv_table.specs.Bounds.{is_size};
ghost use Rattle.rv_table.specs.Memory.{code_base, data_base, fetched, is_accessible, loaded, stored, LiesIn, bottom as bottom_of, top as top_of};
ghost use Rattle.rv_memory.specs.Regions.{Fits, data_word_of, map_of, memory_of, region_of, restored, started};

use crate::numbers::{offset_in, read, read_word, write};
use rv_table::TrapKind;
use rv_table::memory_map::{
    BELOW_STACK, CODE_BASE, CODE_LENGTH_LIMIT, DATA_BASE, DATA_LENGTH_LIMIT, REGION_BASE,
    STACK_BASE, STACK_SIZE_LIMIT,
};
use std::alloc::{AllocError, Global};
use std::marker::Model;

/// No memory could be taken.
pub type NoMemory = AllocError;

/// The memory of a run, by regions.
#[derive(Debug)]
pub struct Memory {
    code: Vec<u8>,
    data: Vec<u8>,
    /// Argument area and global registers, and then the stack.
    region: Vec<u8>,
    /// The bytes of the stack.
    stack: u64,
}

/// In one place, so that whoever lets one go has one call to prove.
impl Drop for Memory {
    fn drop(self) {
        let Self {
            code: _,
            data: _,
            region: _,
            stack: _,
        } = self;
    }
}

impl Model for Memory {
    ghost use Rattle.rv_memory.specs.Regions.{Regions, Fits};

    ghost Value = { Regions };

    ghost view = { λ a. record { code_bytes = a.code.items; data_bytes = a.«data».items; region_bytes = a.region.items; stack_size = a.stack } };

    ghost invariant = { λ a. Fits (record { code_bytes = a.code.items; data_bytes = a.«data».items; region_bytes = a.region.items; stack_size = a.stack }) };
}

impl Memory {
    /// A memory with this code and these first bytes of data, a region of zeros, and a stack of `stack_size` bytes.
    pub fn new(alloc: Global, code: &[u8], initial: &[u8], stack: u64) -> Result<Memory, NoMemory>
        requires code { length code.now ≤ CODE_LENGTH_LIMIT }
        requires initial { length initial.now ≤ DATA_LENGTH_LIMIT }
        requires stack { stack ≤ STACK_SIZE_LIMIT }
        ensures { IfOk result (λ m. m ≡ started code.now initial.now stack) }
    {
        Ok(Memory {
            code: code.to_vec(alloc)?,
            data: initial.to_vec(alloc)?,
            region: vec![in alloc; 0; (BELOW_STACK + stack) as usize]?,
            stack,
        })
    }

    /// A memory with this code, this data, and these bytes of the region, as a run left them. What is behind argument area and global
    /// registers is the stack.
    pub fn restored(
        alloc: Global,
        code: &[u8],
        initial: &[u8],
        region: &[u8],
    ) -> Result<Memory, NoMemory>
        requires code { length code.now ≤ CODE_LENGTH_LIMIT }
        requires initial { length initial.now ≤ DATA_LENGTH_LIMIT }
        requires low { BELOW_STACK ≤ length region.now }
        requires high { length region.now ≤ BELOW_STACK + STACK_SIZE_LIMIT }
        ensures { IfOk result (λ m. m ≡ restored code.now initial.now region.now) }
    {
        Ok(Memory {
            code: code.to_vec(alloc)?,
            data: initial.to_vec(alloc)?,
            region: region.to_vec(alloc)?,
            stack: region.len() as u64 - BELOW_STACK,
        })
    }

    /// The number in the `size` bytes at an address. The error is the kind of its trap, `BadLoad`.
    pub fn load(&self, address: u64, size: u8) -> Result<u64, TrapKind>
        requires { IsTrue (is_size size) }
        ensures value { IsTrue (is_accessible (map_of self.now) address size) → result ≡ Ok (loaded (memory_of self.now) address size) }
        ensures refused { IsFalse (is_accessible (map_of self.now) address size) → result ≡ Err TrapKind.BadLoad }
    {
        if let Some(at) = offset_in(DATA_BASE, &self.data, address, size) {
            return Ok(read(&self.data, at, size));
        }
        match offset_in(REGION_BASE, &self.region, address, size) {
            Some(at) => Ok(read(&self.region, at, size)),
            None => Err(TrapKind::BadLoad),
        }
    }

    /// Writes the low `size` bytes of the value at an address. The error is the kind of its trap, `BadStore`, and
    /// then nothing is written.
    pub fn store(&mut self, address: u64, size: u8, value: u64) -> Result<(), TrapKind>
        requires { IsTrue (is_size size) }
        ensures done { IsTrue (is_accessible (map_of self.old) address size) → result ≡ Ok tt }
        ensures memory { IsTrue (is_accessible (map_of self.old) address size) → memory_of self.new ≡ stored (memory_of self.old) address size value }
        ensures map { map_of self.new ≡ map_of self.old }
        ensures region { region_of self.new ≡ region_of self.old }
        ensures refused { IsFalse (is_accessible (map_of self.old) address size) → result ≡ Err TrapKind.BadStore }
        ensures unchanged { IsFalse (is_accessible (map_of self.old) address size) → self.new ≡ self.old }
    {
        if let Some(at) = offset_in(DATA_BASE, &self.data, address, size) {
            write(&mut self.data, at, size, value);
            return Ok(());
        }
        match offset_in(REGION_BASE, &self.region, address, size) {
            Some(at) => {
                write(&mut self.region, at, size, value);
                Ok(())
            }
            None => Err(TrapKind::BadStore),
        }
    }

    /// The word at an address of the code. The error is the kind of its trap, `BadTarget`.
    pub fn fetch(&self, pc: u64) -> Result<u32, TrapKind>
        ensures word { result ≡ ok_or (fetched (map_of self.now).code pc) TrapKind.BadTarget }
        ensures within { IfOk result (λ _. pc + 4 ≤ data_base) }
    {
        match offset_in(CODE_BASE, &self.code, pc, 4) {
            Some(at) => Ok(read_word(&self.code, at)),
            None => Err(TrapKind::BadTarget),
        }
    }

    /// The number in the 8 bytes from an address of the stack on, aligned or not.
    pub fn word(&self, address: u64) -> u64
        requires low { bottom_of (region_of self.now) ≤ address }
        requires high { address + 8 ≤ top_of (region_of self.now) }
        ensures { result ≡ loaded (memory_of self.now) address 8 }
    {
        read(&self.region, (address - REGION_BASE) as usize, 8)
    }

    /// Writes a number to the 8 bytes from an address of the stack on, aligned or not.
    pub fn set_word(&mut self, address: u64, value: u64)
        requires low { bottom_of (region_of self.old) ≤ address }
        requires high { address + 8 ≤ top_of (region_of self.old) }
        ensures memory { memory_of self.new ≡ stored (memory_of self.old) address 8 value }
        ensures map { map_of self.new ≡ map_of self.old }
        ensures region { region_of self.new ≡ region_of self.old }
    {
        let at = (address - REGION_BASE) as usize;
        write(&mut self.region, at, 8, value);
    }

    /// The number in the 8 bytes from an address on, where that is a multiple of 8 and they lie wholly in the data.
    pub fn data_word(&self, address: u64) -> Option<u64>
        ensures { result ≡ data_word_of self.now address }
    {
        let at = offset_in(DATA_BASE, &self.data, address, 8)?;
        Some(read(&self.data, at, 8))
    }

    /// Writes a number to the 8 bytes of data from an address on, which is a multiple of 8.
    pub fn set_data_word(&mut self, address: u64, value: u64)
        requires aligned { address % 8 ≡ 0 }
        requires low { data_base ≤ address }
        requires high { address + 8 ≤ data_base + (map_of self.old).data_length }
        ensures memory { memory_of self.new ≡ stored (memory_of self.old) address 8 value }
        ensures map { map_of self.new ≡ map_of self.old }
        ensures region { region_of self.new ≡ region_of self.old }
    {
        let at = (address - DATA_BASE) as usize;
        write(&mut self.data, at, 8, value);
    }

    /// The bytes of the data, from `DATA_BASE` on.
    pub fn data(&self) -> &[u8]
        ensures { result.now ≡ self.now.data_bytes }
    {
        &self.data
    }

    /// The address after the last byte of the data.
    pub fn data_end(&self) -> u64
        ensures { result ≡ data_base + (map_of self.now).data_length }
    {
        DATA_BASE + self.data.len() as u64
    }

    /// The bytes of argument area, global registers and stack, from the region's address on.
    pub fn region_bytes(&self) -> &[u8]
        ensures same { result.now ≡ self.now.region_bytes }
        ensures kept { Fits self.now }
    {
        &self.region
    }

    /// How many whole words the code has.
    pub fn code_words(&self) -> u64
        ensures count { result ≡ length (map_of self.now).code / 4 }
        ensures short { code_base + 4 * result ≤ data_base }
    {
        self.code.len() as u64 / 4
    }

    /// The address of the region of argument area, global registers and stack. All of it can be loaded and stored.
    pub fn region(&self) -> u64
        ensures address { result ≡ (region_of self.now).address }
        ensures lies { LiesIn (region_of self.now) (map_of self.now) }
    {
        // by the invariant, which is known where a field is named
        let _ = &self.region;
        REGION_BASE
    }

    /// The stack's lowest address.
    pub fn base(&self) -> u64
        ensures { result ≡ bottom_of (region_of self.now) }
    {
        STACK_BASE
    }

    /// The address after the stack's last byte.
    pub fn top(&self) -> u64
        ensures { result ≡ top_of (region_of self.now) }
    {
        self.base() + self.stack
    }
}
