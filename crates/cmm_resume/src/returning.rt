//! `resume_return`, and where a return goes.
ghost use Rattle.std.specs.Prelude.{◌≡◌, ◌≤◌, length, OnErr, OnOk};
ghost use Rattle.rv_table.specs.Machine.{State};
ghost use Rattle.rv_memory.specs.Regions.{map_of, region_of};
ghost use Rattle.rv_memory.specs.States.{state_of};
ghost use Rattle.cmm_abi.specs.Regions.{Region, with_values};
ghost use Rattle.cmm_program.specs.Commands.{resumed, returning as returning_to};
ghost use Rattle.cmm_image_machine.specs.Changes.{at_pc, return_exit, return_widths};
ghost use Rattle.cmm_image_machine.specs.Machine.{askable};
ghost use Rattle.cmm_walk.specs.Activations.{IsIn, element_of};
ghost use Rattle.cmm_resume.specs.Answering.{Answers};
ghost use Rattle.cmm_resume.specs.Finding.{Finds, checked};

use crate::refusal::Refusal;
use crate::values::{check_continuation, check_widths, resume_at};
use cmm_abi::registers::RETURN_ADDRESS;
use cmm_image::Image;
use cmm_rules::Rule;
use cmm_walk::{Activation, procedure_of, site_at, youngest};
use rv_memory::Memory;
use rv_table::Regs;

/// Resumes the youngest activation at an exit of its site, as a return of the procedure that it calls takes it.
pub fn resume_return(
    i: &Image,
    r: &mut Regs,
    m: &mut Memory,
    exit: u32,
    values: &[u64],
) -> Result<(), Refusal>
    ensures returns { Answers (returning_to (askable i.now (region_of m.old)) (state_of r.old m.old) exit values.now) (state_of r.old m.old) (state_of r.new m.new) result }
    ensures map { map_of m.new ≡ map_of m.old }
    ensures region { region_of m.new ≡ region_of m.old }
    ensures unchanged { OnErr result ((r.new ≡ r.old) × (m.new ≡ m.old)) }
{
    match return_target(i, r, m, exit, values) {
        Ok(address) => {
            resume_at(r, m, address, values);
            Ok(())
        }
        Err(refusal) => Err(refusal),
    }
}

/// The address at which the youngest activation goes on after a return to an exit, which takes the values.
pub fn return_target(
    i: &Image,
    r: &Regs,
    m: &Memory,
    exit: u32,
    values: &[u64],
) -> Result<u64, Refusal>
    ensures finds { Finds (returning_to (askable i.now (region_of m.now)) (state_of r.now m.now) exit values.now)
        (λ address. at_pc address (with_values (region_of m.now) values.now (state_of r.now m.now))) result }
    ensures few { OnOk result (length values.now ≤ 64) }
{
    match youngest(i, r, m) {
        Ok(Some(a)) => exit_address(&a, i, exit, values),
        Ok(None) => Err(Refusal::ByRule(Rule::NoActivation)),
        Err(torn) => Err(Refusal::Torn(torn)),
    }
}

/// The address behind the call of an activation's site at which an exit stands, which takes the values.
fn exit_address(a: &Activation, i: &Image, exit: u32, values: &[u64]) -> Result<u64, Refusal>
    requires { IsIn i.now a.now }
    ensures finds { (r : Region) (s : State) → (element_of i.now a.now).site.return_address ≡ s.registers RETURN_ADDRESS →
        Finds (resumed (return_exit r s (element_of i.now a.now) exit) values.now) (λ address. at_pc address (with_values r values.now s)) result }
    ensures few { OnOk result (length values.now ≤ 64) }
{
    match check_return(a, i, exit, values) {
        Ok(()) => Ok(site_at(i, a.site).return_address + 4 * u64::from(exit)),
        Err(rule) => Err(Refusal::ByRule(rule)),
    }
}

/// Whether an activation takes values at an exit of its site. The error is the rule by which it does not.
fn check_return(a: &Activation, i: &Image, exit: u32, values: &[u64]) -> Result<(), Rule>
    requires { IsIn i.now a.now }
    ensures checked { result ≡ checked (return_widths (element_of i.now a.now) exit) values.now }
    ensures few { OnOk result (length values.now ≤ 64) }
    ensures near { OnOk result (exit ≤ 64) }
{
    let site = site_at(i, a.site);
    match site.returns.get(exit as usize) {
        Some(continuation) => check_continuation(procedure_of(a, i), *continuation, values),
        None => {
            if exit as usize == site.returns.len() && !site.never_returns {
                check_widths(site.results.as_slice(), values)
            } else {
                Err(Rule::NoExit)
            }
        }
    }
}
