//! `resume_unwind`, and where an unwinding goes.
ghost use Rattle.std.specs.Prelude.{◌≡◌, ◌≤◌, ◌<◌, ℕ, true, false, length, slice_index, OnErr, OnOk};
ghost use Rattle.rv_table.specs.Registers.{registers_of, with_register};
ghost use Rattle.rv_memory.specs.Regions.{map_of, region_of};
ghost use Rattle.rv_memory.specs.States.{state_of};
ghost use Rattle.cmm_abi.specs.Registers.{is_callee_saves};
ghost use Rattle.cmm_abi.specs.Regions.{word_at as word_in};
ghost use Rattle.cmm_program.specs.Commands.{unwinding as unwinding_to};
ghost use Rattle.cmm_image.specs.declared.parts.ImageParts.{ImageParts};
ghost use Rattle.cmm_image_machine.specs.Machine.{askable};
ghost use Rattle.cmm_walk.specs.Activations.{Fits, IsIn, SavedFit, element_of, order_of, places_of, register_in};
ghost use Rattle.cmm_resume.specs.Answering.{Answers};
ghost use Rattle.cmm_resume.specs.Finding.{landed, landing_of};
ghost use Rattle.cmm_resume.specs.inside.Restoring.{had_registers};

use crate::refusal::Refusal;
use crate::values::{check_continuation, resume_at};
use cmm_abi::registers::FRAME;
use cmm_image::Image;
use cmm_rules::Rule;
use cmm_walk::{Activation, procedure_of, register_of, site_at, word_at};
use rv_memory::Memory;
use rv_table::Regs;

/// Resumes an activation at an unwind exit of its site; the younger ones are gone. The callee-saves registers get the values that the
/// activation had.
pub fn resume_unwind(
    a: &Activation,
    i: &Image,
    r: &mut Regs,
    m: &mut Memory,
    exit: u32,
    values: &[u64],
) -> Result<(), Refusal>
    requires { Fits i.now (region_of m.old) a.now }
    ensures unwinds { Answers (unwinding_to (askable i.now (region_of m.old)) (state_of r.old m.old) (element_of i.now a.now) exit values.now)
        (state_of r.old m.old) (state_of r.new m.new) result }
    ensures map { map_of m.new ≡ map_of m.old }
    ensures region { region_of m.new ≡ region_of m.old }
    ensures unchanged { OnErr result ((r.new ≡ r.old) × (m.new ≡ m.old)) }
{
    match unwind_target(a, i, exit, values) {
        Ok(landing) => {
            unwind_to(a, r, m, landing, values);
            Ok(())
        }
        Err(rule) => Err(Refusal::ByRule(rule)),
    }
}

/// The address at which an activation goes on after an unwinding to an exit, which takes the values. The error is the rule by which it
/// does not.
pub fn unwind_target(a: &Activation, i: &Image, exit: u32, values: &[u64]) -> Result<u64, Rule>
    requires { IsIn i.now a.now }
    ensures landing { result ≡ landing_of (element_of i.now a.now) exit values.now }
    ensures few { OnOk result (length values.now ≤ 64) }
{
    match site_at(i, a.site).unwinds.get(exit as usize) {
        Some(unwind) => {
            match check_continuation(procedure_of(a, i), unwind.continuation, values) {
                Ok(()) => Ok(unwind.landing),
                Err(rule) => Err(rule),
            }
        }
        None => Err(Rule::NoExit),
    }
}

/// Lets an activation go on at a landing, with its values of the callee-saves registers and its frame.
pub fn unwind_to(a: &Activation, r: &mut Regs, m: &mut Memory, landing: u64, values: &[u64])
    requires fits { SavedFit (region_of m.old) a.now.saved }
    requires few { length values.now ≤ 64 }
    ensures state { (i : ImageParts) → state_of r.new m.new ≡ landed (region_of m.old) (state_of r.old m.old) (element_of i a.now) landing values.now }
    ensures map { map_of m.new ≡ map_of m.old }
    ensures region { region_of m.new ≡ region_of m.old }
{
    restore(a, r, m);
    resume_at(r, m, landing, values);
}

/// Gives the callee-saves registers the values that they had in an activation, and the frame's register its frame.
fn restore(a: &Activation, r: &mut Regs, m: &Memory)
    requires { SavedFit (region_of m.now) a.now.saved }
    ensures registers { registers_of r.new ≡ with_register (had_registers (places_of a.now.saved) (state_of r.old m.now)) FRAME a.now.frame }
    ensures pc { r.new.pc ≡ r.old.pc }
{
    let had = had_by(a, r, m);
    restore_saved(&had, r);
    r.write(FRAME, a.frame);
}

/// Gives the callee-saves registers these values.
fn restore_saved(had: &[u64; 11], r: &mut Regs)
    ensures each { (n : ℕ) → registers_of r.new n ≡ elim (is_callee_saves n) [ true ↦ slice_index had.now (order_of n) | false ↦ registers_of r.old n ] }
    ensures pc { r.new.pc ≡ r.old.pc }
{
    for (k, word) in had.iter().enumerate() {
        r.write(register_of(k), *word);
    }
}

/// The values of the callee-saves registers that an activation had.
fn had_by(a: &Activation, r: &Regs, m: &Memory) -> [u64; 11]
    requires { SavedFit (region_of m.now) a.now.saved }
    ensures { (k : ℕ) → k < 11 → slice_index result k ≡ word_in (state_of r.now m.now) (places_of a.now.saved (register_in k)) }
{
    let mut had = [0; 11];
    for (k, word) in had.iter_mut().enumerate() {
        *word = word_at(a.kept(register_of(k)), r, m);
    }
    had
}
