//! Words of memory at operands' addresses.

ghost use Rattle.std.specs.Prelude.{◌≡◌, ◌+◌, ◌-◌, ◌*◌, OnOk};
ghost use Rattle.cmm_effects.specs.Pieces.{Adds};
ghost use Rattle.cmm_select.specs.Destinations.{IsDestination};
ghost use Rattle.cmm_select.specs.Memory.{AssignsLoaded, StoresWord, accesses};
ghost use Rattle.cmm_select.specs.Operands.{IsOperand, most_for};

use crate::accesses::{is_whole, load_word, store_word};
use crate::cell::{load_cell, store_cell};
use crate::destination::{Destination, put};
use crate::in_place::{finish, locate, locate_both, target};
use crate::operand::{Operand, bring_both, bring_operand};
use cmm_abi::registers::FIRST_SCRATCH;
use cmm_words::Width;
use rv_asm::Asm;
use std::alloc::AllocError;

/// Assigns the word of a width at an address that is a multiple of `aligned` bytes.
pub fn assign_loaded(
    asm: &mut Asm,
    width: Width,
    aligned: u32,
    address: &Operand,
    to: &Destination,
) -> Result<(), AllocError>
    requires operand { IsOperand asm.old.labels address.now }
    requires destination { IsDestination asm.old.labels to.now }
    ensures assigns { OnOk result (Adds (most_for address.now + (3 * accesses width aligned - 2) + 4) asm.old.parts asm.new.parts (AssignsLoaded (most_for address.now + (3 * accesses width aligned - 2) + 4) width aligned address.now to.now)) }
    ensures labels { asm.new.labels ≡ asm.old.labels }
{
    if is_whole(width, aligned) {
        let base = locate(asm, address, FIRST_SCRATCH)?;
        load_cell(asm, width, target(to), base)?;
        return finish(asm, to);
    }
    bring_operand(asm, address, FIRST_SCRATCH)?;
    load_word(asm, width, aligned)?;
    put(asm, FIRST_SCRATCH, to)
}

/// Stores the low bytes of an operand, as many as a width has, at an address that is a multiple of `aligned` bytes.
pub fn store(
    asm: &mut Asm,
    width: Width,
    aligned: u32,
    address: &Operand,
    value: &Operand,
) -> Result<(), AllocError>
    requires address { IsOperand asm.old.labels address.now }
    requires value { IsOperand asm.old.labels value.now }
    ensures stores { OnOk result (Adds (most_for address.now + most_for value.now + (2 * accesses width aligned - 1)) asm.old.parts asm.new.parts (StoresWord (most_for address.now + most_for value.now + (2 * accesses width aligned - 1)) width aligned address.now value.now)) }
    ensures labels { asm.new.labels ≡ asm.old.labels }
{
    if is_whole(width, aligned) {
        let pair = locate_both(asm, address, value)?;
        return store_cell(asm, width, pair.first, pair.second);
    }
    bring_both(asm, address, value)?;
    store_word(asm, width, aligned)
}
