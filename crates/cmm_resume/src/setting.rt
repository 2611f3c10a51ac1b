//! `set_local_var`, and where a variable is that may be set.
ghost use Rattle.std.specs.Prelude.{◌≡◌, ◌^◌, nat_lt, IfOk, OnErr};
ghost use Rattle.rv_memory.specs.Regions.{map_of, region_of};
ghost use Rattle.rv_memory.specs.States.{state_of};
ghost use Rattle.cmm_words.specs.Widths.{bits};
ghost use Rattle.cmm_abi.specs.Regions.{Region, with_word};
ghost use Rattle.cmm_program.specs.Asking.{Cursor};
ghost use Rattle.cmm_program.specs.Commands.{setting as setting_to};
ghost use Rattle.cmm_image.specs.Images.{IsImage};
ghost use Rattle.cmm_image_machine.specs.Frames.{Element};
ghost use Rattle.cmm_image_machine.specs.Laws.{IsInStack};
ghost use Rattle.cmm_image_machine.specs.Machine.{askable};
ghost use Rattle.cmm_walk.specs.Activations.{Fits, HasRoom, IsIn, element_of, place_of};
ghost use Rattle.cmm_resume.specs.Answering.{Answers};
ghost use Rattle.cmm_resume.specs.Finding.{FindsPlace, settable};

use crate::refusal::Refusal;
use cmm_image::Image;
use cmm_rules::Rule;
use cmm_walk::{Activation, Place, procedure_of, variable_place};
use cmm_words::Width;
use rv_memory::Memory;
use rv_table::Regs;

/// Gives a variable of an activation a value.
pub fn set_local_var(
    a: &Activation,
    i: &Image,
    r: &mut Regs,
    m: &mut Memory,
    n: u32,
    v: u64,
) -> Result<(), Refusal>
    requires { Fits i.now (region_of m.old) a.now }
    ensures sets { (cursor : Cursor Element) →
        Answers (setting_to (askable i.now (region_of m.old)) cursor (state_of r.old m.old) (element_of i.now a.now) n v) (state_of r.old m.old) (state_of r.new m.new) result }
    ensures map { map_of m.new ≡ map_of m.old }
    ensures region { region_of m.new ≡ region_of m.old }
    ensures unchanged { OnErr result ((r.new ≡ r.old) × (m.new ≡ m.old)) }
{
    match place_to_set(a, i, n, v) {
        Ok(place) => {
            set_word_at(place, r, m, v);
            Ok(())
        }
        Err(rule) => Err(Refusal::ByRule(rule)),
    }
}

/// Where a variable of an activation is that may be given a value. The error is the rule by which it may not.
pub fn place_to_set(a: &Activation, i: &Image, n: u32, v: u64) -> Result<Place, Rule>
    requires there { IsIn i.now a.now }
    requires room { HasRoom i.now a.now }
    ensures place { FindsPlace (settable (element_of i.now a.now) n v) result }
    ensures fits { (r : Region) → Fits i.now r a.now → IfOk result (λ place. IsInStack r (place_of place)) }
    ensures kept { IsImage i.now }
{
    let Some(variable) = procedure_of(a, i).variables.get(n as usize) else {
        return Err(Rule::NoVariable);
    };
    if variable.invariant {
        return Err(Rule::InvariantVariable);
    }
    let Some(place) = variable_place(a, i, n) else {
        return Err(Rule::DeadVariable);
    };
    if fits(variable.width, v) {
        Ok(place)
    } else {
        Err(Rule::DoesNotFit)
    }
}

/// Whether a value fits a width.
pub(crate) fn fits(width: Width, value: u64) -> bool
    ensures { result ≡ nat_lt value (2 ^ bits width) }
{
    match width {
        Width::W8 => value < 1 << 8,
        Width::W16 => value < 1 << 16,
        Width::W32 => value < 1 << 32,
        Width::W64 => true,
    }
}

/// Gives the word at a place a value.
pub fn set_word_at(place: Place, r: &mut Regs, m: &mut Memory, value: u64)
    requires { IsInStack (region_of m.old) (place_of place) }
    ensures state { state_of r.new m.new ≡ with_word (place_of place) value (state_of r.old m.old) }
    ensures map { map_of m.new ≡ map_of m.old }
    ensures region { region_of m.new ≡ region_of m.old }
{
    match place {
        Place::InRegister(register) => r.write(register, value),
        Place::InMemory(address) => m.set_word(address, value),
    }
}
