//! `resume_cut`, and where a cut goes.
ghost use Rattle.std.specs.Prelude.{◌≡◌, ◌≤◌, ℕ, Some, length, OnErr, OnOk};
ghost use Rattle.rv_table.specs.Machine.{State};
ghost use Rattle.rv_memory.specs.Regions.{map_of, region_of};
ghost use Rattle.rv_memory.specs.States.{state_of};
ghost use Rattle.cmm_abi.specs.Regions.{Region};
ghost use Rattle.cmm_program.specs.Commands.{cutting as cutting_to, resumed};
ghost use Rattle.cmm_image_machine.specs.Changes.{cut_exit};
ghost use Rattle.cmm_image_machine.specs.Machine.{askable};
ghost use Rattle.cmm_walk.specs.Activations.{IsIn, element_of};
ghost use Rattle.cmm_resume.specs.Answering.{Answers};
ghost use Rattle.cmm_resume.specs.Cuts.{gone};
ghost use Rattle.cmm_resume.specs.Finding.{Finds};
ghost use Rattle.cmm_resume.specs.inside.CutPaths.{CutsTo, code_in, has_pair, number_in};

use crate::refusal::Refusal;
use crate::values::{check_continuation, resume_at};
use cmm_abi::registers::FRAME;
use cmm_image::{ContinuationNumber, Image, ProcRow};
use cmm_rules::Rule;
use cmm_walk::{Activation, Torn, next_activation, procedure_of, site_at, youngest};
use rv_memory::Memory;
use rv_table::Regs;

/// Where control goes at a cut.
#[derive(Clone, Copy)]
pub struct CutTarget {
    /// The address of the frame of the activation that goes on.
    pub frame: u64,
    /// The address at which it does.
    pub code: u64,
}

/// The continuation that a cut goes to.
#[derive(Clone, Copy)]
pub(crate) struct Continuation {
    /// The activation that goes on.
    pub(crate) activation: Activation,
    /// The continuation of its procedure, by number.
    pub(crate) number: ContinuationNumber,
}

/// Cuts to a continuation: control goes there, the younger activations are gone, and nothing is restored.
pub fn resume_cut(
    i: &Image,
    r: &mut Regs,
    m: &mut Memory,
    to: u64,
    values: &[u64],
) -> Result<(), Refusal>
    ensures cuts { Answers (cutting_to (askable i.now (region_of m.old)) (state_of r.old m.old) to values.now) (state_of r.old m.old) (state_of r.new m.new) result }
    ensures map { map_of m.new ≡ map_of m.old }
    ensures region { region_of m.new ≡ region_of m.old }
    ensures unchanged { OnErr result ((r.new ≡ r.old) × (m.new ≡ m.old)) }
{
    match cut_target(i, r, m, to, values) {
        Ok(target) => {
            cut_to(&target, r, m, values);
            Ok(())
        }
        Err(refusal) => Err(refusal),
    }
}

/// Where a cut to a value goes: to the first activation, youngest first, whose site also cuts to a continuation of this value, if that takes
/// the values.
pub fn cut_target(
    i: &Image,
    r: &Regs,
    m: &Memory,
    to: u64,
    values: &[u64],
) -> Result<CutTarget, Refusal>
    ensures finds { Finds (cutting_to (askable i.now (region_of m.now)) (state_of r.now m.now) to values.now)
        (λ target. gone (region_of m.now) (state_of r.now m.now) target values.now) result }
    ensures few { OnOk result (length values.now ≤ 64) }
{
    match continuation_of(i, r, m, to) {
        Ok(Some(continuation)) => code_of(&continuation, i, values),
        Ok(None) => Err(Refusal::ByRule(Rule::NoCut)),
        Err(torn) => Err(Refusal::Torn(torn)),
    }
}

/// Lets the program go on where a cut goes.
pub fn cut_to(target: &CutTarget, r: &mut Regs, m: &mut Memory, values: &[u64])
    requires { length values.now ≤ 64 }
    ensures state { state_of r.new m.new ≡ gone (region_of m.old) (state_of r.old m.old) target.now values.now }
    ensures map { map_of m.new ≡ map_of m.old }
    ensures region { region_of m.new ≡ region_of m.old }
{
    r.write(FRAME, target.frame);
    resume_at(r, m, target.code, values);
}

/// The continuation of a value: that of the first activation, youngest first, whose site also cuts to one of this value.
fn continuation_of(i: &Image, r: &Regs, m: &Memory, to: u64) -> Result<Option<Continuation>, Torn>
    ensures { CutsTo i.now (region_of m.now) (state_of r.now m.now) to result }
{
    let mut found = youngest(i, r, m)?;
    while let Some(activation) = found {
        if let Some(number) = number_of(&activation, i, to) {
            return Ok(Some(Continuation { activation, number }));
        }
        found = next_activation(&activation, i, m)?;
    }
    Ok(None)
}

/// The first continuation of this value to which the site of an activation also cuts.
fn number_of(a: &Activation, i: &Image, to: u64) -> Option<ContinuationNumber>
    requires { IsIn i.now a.now }
    ensures { result ≡ number_in (element_of i.now a.now) to }
{
    let procedure = procedure_of(a, i);
    for number in site_at(i, a.site).cuts.as_slice() {
        if is_pair(a.frame, procedure, *number, to) {
            return Some(*number);
        }
    }
    None
}

/// Whether the pair of a continuation of a procedure has an address, in this frame.
fn is_pair(frame: u64, procedure: &ProcRow, number: ContinuationNumber, to: u64) -> bool
    ensures { result ≡ has_pair frame procedure.now to number }
{
    match procedure.continuations.get(usize::from(number.0)) {
        Some(continuation) => frame.checked_add(u64::from(continuation.pair)) == Some(to),
        None => false,
    }
}

/// Where control goes at a continuation, if it takes the values.
fn code_of(continuation: &Continuation, i: &Image, values: &[u64]) -> Result<CutTarget, Refusal>
    requires { IsIn i.now continuation.now.activation }
    ensures finds { (r : Region) (s : State) (to : ℕ) → number_in (element_of i.now continuation.now.activation) to ≡ Some continuation.now.number →
        Finds (resumed (cut_exit r s (element_of i.now continuation.now.activation) to) values.now) (λ target. gone r s target values.now) result }
    ensures few { OnOk result (length values.now ≤ 64) }
{
    let procedure = procedure_of(&continuation.activation, i);
    match check_continuation(procedure, continuation.number, values) {
        Ok(()) => Ok(CutTarget {
            frame: continuation.activation.frame,
            code: code_at(procedure, continuation.number),
        }),
        Err(rule) => Err(Refusal::ByRule(rule)),
    }
}

/// The code of a continuation of a procedure; 0 where it has no such continuation.
fn code_at(procedure: &ProcRow, number: ContinuationNumber) -> u64
    ensures { result ≡ code_in procedure.now number }
{
    match procedure.continuations.get(usize::from(number.0)) {
        Some(continuation) => continuation.code,
        None => 0,
    }
}
