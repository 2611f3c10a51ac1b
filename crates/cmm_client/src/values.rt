//! The values of a yield, which are those of the thread that runs.
ghost use Rattle.std.specs.Prelude.{◌≡◌, ◌≤◌, ◌<◌, ◌+◌, ◌*◌, ℕ, length, slice_index, IfSome};
ghost use Rattle.rv_memory.specs.Regions.{memory_of, region_of as region_of_memory};
ghost use Rattle.rv_memory.specs.States.{state_of as state_with};
ghost use Rattle.rv_table.specs.Machine.{loaded as number_at};
ghost use Rattle.cmm_abi.specs.Regions.{value_place, word_at};
ghost use Rattle.cmm_image.specs.Images.{IsImage};
ghost use Rattle.cmm_walk.specs.Activations.{IsIn};
ghost use Rattle.cmm_client.specs.Stops.{region_of, state_of};
ghost use Rattle.cmm_client.specs.inside.Counting.{count_at};

use crate::stopped::{Stopped, Thread};
use cmm_abi::registers::FIRST_VALUE;
use cmm_abi::values::IN_REGISTERS;
use cmm_image::Image;
use cmm_walk::{Activation, site_at};
use rv_memory::Memory;
use rv_table::memory_map::ARGUMENT_WORDS;

/// How many values the youngest activation yields: none where there is none or its site does not yield.
pub(crate) fn yield_count(youngest: Option<Activation>, i: &Image) -> usize
    requires there { IfSome youngest (IsIn i.now) }
    requires kept { IsImage i.now }
    ensures count { result ≡ count_at i.now youngest }
    ensures few { result ≤ 64 }
{
    let Some(a) = youngest else {
        return 0;
    };
    match site_at(i, a.site).yield_values {
        Some(count) => usize::from(count),
        None => 0,
    }
}

/// What stands at the places of the values.
pub(crate) fn values_of(stopped: &Stopped) -> [u64; 64]
    ensures count { length result ≡ 64 }
    ensures each { (k : ℕ) → k < 64 → slice_index result k ≡ word_at (state_of stopped.now) (value_place (region_of stopped.now) k) }
{
    let thread = stopped.running();
    let mut values = [0; 64];
    for (k, value) in values.iter_mut().enumerate() {
        *value = value_at(thread, k);
    }
    values
}

/// What stands at the place of the value of this number.
fn value_at(thread: &Thread, k: usize) -> u64
    requires { k < 64 }
    ensures { result ≡ word_at (state_with thread.now.regs thread.now.memory) (value_place (region_of_memory thread.now.memory) k) }
{
    let in_registers = IN_REGISTERS as usize;
    if k < in_registers {
        thread.regs.read(FIRST_VALUE + k as u8)
    } else {
        argument(&thread.memory, (k - in_registers) as u64)
    }
}

/// The word of this number of the argument area.
fn argument(m: &Memory, index: u64) -> u64
    requires { index < ARGUMENT_WORDS }
    ensures { result ≡ number_at (memory_of m.now) ((region_of_memory m.now).address + 8 * index) 8 }
{
    match m.load(m.region() + 8 * index, 8) {
        Ok(value) => value,
        Err(_) => unreachable!(),
    }
}
