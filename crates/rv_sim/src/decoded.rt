//! Code that is decoded once, so that a run neither fetches nor decodes.
ghost use Rattle.std.specs.Prelude.{◌≡◌, ℕ, ◌+◌, ◌≤◌, List, IfOk, IfSome};
ghost use Rattle.rv_memory.specs.Regions.{map_of};
ghost use Rattle.rv_sim.specs.Standing.{IsTableOf, found_at};
ghost use Rattle.rv_table.specs.Memory.{data_base};
ghost use Rattle.rv_table.specs.Stands.{standing};
ghost use Rattle.rv_table.specs.Table.{IsValid};

use rv_code::decode;
use rv_memory::{Memory, NoMemory};
use rv_table::memory_map::CODE_BASE;
use rv_table::{Instr, TrapKind};
use std::alloc::Global;
use std::marker::Model;

/// The instructions of code by their words, in the code's order; none for a word that is no instruction.
#[derive(Drop)]
pub struct Decoded {
    table: Vec<Option<Instr>>,
}

impl Model for Decoded {
    ghost use Rattle.std.specs.Prelude.{List, Option};
    ghost use Rattle.rv_sim.specs.inside.Tables.{IsTable};
    ghost use Rattle.rv_table.specs.declared.instruction.Instr.{Instr};

    ghost Value = { List (Option Instr) };

    ghost view = { λ d. d.table.items };

    ghost invariant = { λ d. IsTable d.table.items };
}

impl Decoded {
    /// Decodes the code of a memory.
    pub fn new(alloc: Global, m: &Memory) -> Result<Decoded, NoMemory>
        ensures { IfOk result (IsTableOf (map_of m.now).code) }
    {
        let words = m.code_words();
        let mut table = Vec::with_capacity(alloc, words as usize)?;
        for index in 0..words {
            table.push(instruction_in(m, CODE_BASE + 4 * index))?;
        }
        Ok(Decoded { table })
    }

    /// The instruction at an address. The error is the kind of the trap that is in its place.
    pub fn at(&self, pc: u64) -> Result<Instr, TrapKind>
        ensures found { (code : List ℕ) → IsTableOf code self.now → result ≡ found_at code pc }
        ensures valid { IfOk result IsValid }
        ensures within { IfOk result (λ _. pc + 4 ≤ data_base) }
    {
        if pc % 4 != 0 || pc < CODE_BASE {
            return Err(TrapKind::BadTarget);
        }
        let index = ((pc - CODE_BASE) / 4) as usize;
        let word = self.table.get(index).ok_or(TrapKind::BadTarget)?;
        word.ok_or(TrapKind::NoInstruction)
    }
}

/// The instruction of the word at an address, if there is one.
fn instruction_in(m: &Memory, pc: u64) -> Option<Instr>
    ensures stands { result ≡ standing (map_of m.now).code pc }
    ensures valid { IfSome result IsValid }
{
    match m.fetch(pc) {
        Ok(word) => decode(word),
        Err(_) => None,
    }
}
