//! Where nodes put numbers.

ghost use Rattle.std.specs.Prelude.{◌≡◌, ◌≢◌, ◌+◌, ◌<◌, ◌≤◌, OnOk};
ghost use Rattle.rv_asm.specs.Assembly.{IsLabel};
ghost use Rattle.rv_table.specs.Words.{sum};
ghost use Rattle.cmm_effects.specs.Accesses.{CanReachGlobal, PutsGlobal, global_at};
ghost use Rattle.cmm_effects.specs.Changes.{Sets};
ghost use Rattle.cmm_effects.specs.Pieces.{Adds, Always, Leads};
ghost use Rattle.cmm_select.specs.Destinations.{IsDestination, PutsFrom};
ghost use Rattle.cmm_select.specs.inside.InPlace.{IsTarget};

use crate::place::write;
use cmm_abi::registers::{FIRST_SCRATCH, HELPER, REGION};
use cmm_chain::Location;
use rv_asm::{Asm, Label};
use rv_table::Instr;
use std::alloc::AllocError;

/// Where a number is put.
#[derive(Clone, Copy)]
pub enum Destination {
    /// A place of the activation.
    Place(Location),
    /// The global register whose offset in the region a label stands for.
    Register(Label),
}

/// Puts what a register other than 6 has where it is to be.
pub(crate) fn put(asm: &mut Asm, register: u8, to: &Destination) -> Result<(), AllocError>
    requires destination { IsDestination asm.old.labels to.now }
    requires register { register < 32 }
    requires other { register ≢ HELPER }
    ensures puts { OnOk result (Adds 4 asm.old.parts asm.new.parts (PutsFrom register to.now)) }
    ensures labels { asm.new.labels ≡ asm.old.labels }
{
    match *to {
        Destination::Place(place) => write(asm, register, place),
        Destination::Register(of) => put_global(asm, register, of),
    }
}

/// Puts what a register other than 6 has into a global register, whose offset in the region a label stands for.
pub fn put_global(asm: &mut Asm, register: u8, of: Label) -> Result<(), AllocError>
    requires label { IsLabel asm.old.labels of }
    requires register { register < 32 }
    requires other { register ≢ HELPER }
    ensures puts { OnOk result (Adds 4 asm.old.parts asm.new.parts (λ x. Leads 4 (CanReachGlobal (x.at of.number)) (λ s t. PutsGlobal (x.at of.number) (s.registers register) s t) x)) }
    ensures labels { asm.new.labels ≡ asm.old.labels }
{
    find_global(asm, of, HELPER)?;
    asm.emit(Instr::Sd {
        rs1: HELPER,
        rs2: register,
        imm: 0,
    })
}

/// Gives register `rd` what a global register has.
pub(crate) fn read_global(asm: &mut Asm, of: Label, rd: u8) -> Result<(), AllocError>
    requires label { IsLabel asm.old.labels of }
    requires register { IsTarget rd }
    ensures reads { OnOk result (Adds 4 asm.old.parts asm.new.parts (λ x. Leads 4 (CanReachGlobal (x.at of.number)) (λ s t. Sets rd (global_at (x.at of.number) s) s t) x)) }
    ensures labels { asm.new.labels ≡ asm.old.labels }
{
    find_global(asm, of, rd)?;
    asm.emit(Instr::Ld {
        rd,
        rs1: rd,
        imm: 0,
    })
}

/// Gives register `rd` the address of a global register.
fn find_global(asm: &mut Asm, of: Label, rd: u8) -> Result<(), AllocError>
    requires label { IsLabel asm.old.labels of }
    requires low { FIRST_SCRATCH ≤ rd }
    requires high { rd < 32 }
    ensures sets { OnOk result (Adds 3 asm.old.parts asm.new.parts (λ x. Leads 3 Always (λ s t. Sets rd (sum (x.at of.number) (s.registers REGION)) s t) x)) }
    ensures labels { asm.new.labels ≡ asm.old.labels }
{
    asm.address(rd, of)?;
    asm.emit(Instr::Add {
        rd,
        rs1: rd,
        rs2: REGION,
    })
}
