//! What is shown of an activation.
ghost use Rattle.std.specs.Prelude.{◌≡◌, length, slice_get, IfSome};
ghost use Rattle.std.specs.Option.{option_map};
ghost use Rattle.cmm_image.specs.Images.{IsImage};
ghost use Rattle.cmm_program.specs.Commands.{span_value};
ghost use Rattle.cmm_program.specs.Errors.{with_some};
ghost use Rattle.cmm_image_machine.specs.Laws.{IsInStack};
ghost use Rattle.cmm_abi.specs.Regions.{Region};
ghost use Rattle.cmm_image_machine.specs.Walks.{element_shown, place_in};
ghost use Rattle.cmm_walk.specs.Activations.{Fits, HasRoom, IsIn, element_of, place_of};
ghost use Rattle.cmm_walk.specs.Shown.{Shows, label_address, spans_of};
ghost use Rattle.rv_memory.specs.Regions.{region_of};
ghost use Rattle.rv_memory.specs.States.{state_of};

use crate::activation::Activation;
use crate::place::{Place, word_at};
use crate::rows::{procedure_of, site_at};
use cmm_image::{Image, VariablePlace};
use cmm_words::{Width, low};
use rv_memory::Memory;
use rv_table::Regs;

/// A variable of a suspended activation.
#[derive(Clone, Copy)]
pub enum Var {
    /// No exit of the site leads to a read of it.
    Dead,
    /// It has this value.
    Live { value: u64, width: Width },
}

/// The procedure has no variable of the number.
#[derive(Clone, Copy)]
pub struct NoVar;

/// What the innermost span with a token gives the site of an activation; 0 where no span has the token.
pub fn descriptor(a: &Activation, i: &Image, token: u64) -> u64
    requires { IsIn i.now a.now }
    ensures { result ≡ span_value token (spans_of (element_of i.now a.now)) }
{
    match site_at(i, a.site)
        .spans
        .iter()
        .find(|span| token == span.token)
    {
        Some(span) => span.value,
        None => 0,
    }
}

/// How many variables the procedure of an activation has.
pub fn var_count(a: &Activation, i: &Image) -> u32
    requires { IsIn i.now a.now }
    ensures count { result ≡ length (element_of i.now a.now).procedure.variables }
    ensures kept { IsImage i.now }
{
    procedure_of(a, i).variables.len() as u32
}

/// A variable of an activation. The error is that its procedure has no variable of this number.
pub fn local_var(a: &Activation, i: &Image, r: &Regs, m: &Memory, n: u32) -> Result<Var, NoVar>
    requires { Fits i.now (region_of m.now) a.now }
    ensures { Shows (slice_get (element_shown (state_of r.now m.now) (element_of i.now a.now)).variables n) result }
{
    let Some(variable) = procedure_of(a, i).variables.get(n as usize) else {
        return Err(NoVar);
    };
    let width = variable.width;
    match variable_place(a, i, n) {
        Some(place) => Ok(Var::Live {
            value: low(width, word_at(place, r, m)),
            width,
        }),
        None => Ok(Var::Dead),
    }
}

/// Where a variable of an activation is, if it is live.
pub fn variable_place(a: &Activation, i: &Image, n: u32) -> Option<Place>
    requires there { IsIn i.now a.now }
    requires room { HasRoom i.now a.now }
    ensures place { option_map place_of result ≡ with_some (slice_get (element_of i.now a.now).site.variables n) (place_in (element_of i.now a.now)) }
    ensures fits { (r : Region) → Fits i.now r a.now → IfSome result (λ place. IsInStack r (place_of place)) }
{
    match site_at(i, a.site).variables.get(n as usize) {
        Some(VariablePlace::Slot(offset)) => Some(Place::InMemory(a.frame + u64::from(*offset))),
        Some(VariablePlace::Register(register)) => Some(a.kept(*register)),
        Some(VariablePlace::Dead) | None => None,
    }
}

/// The address of a stackdata label of the procedure of an activation. There is none exactly past the last.
pub fn stack_label(a: &Activation, i: &Image, n: u32) -> Option<u64>
    requires there { IsIn i.now a.now }
    requires room { HasRoom i.now a.now }
    ensures { result ≡ label_address (element_of i.now a.now) n }
{
    match procedure_of(a, i).stack_labels.get(n as usize) {
        Some(label) => Some(a.frame + u64::from(label.offset)),
        None => None,
    }
}
