//! The values that are given to an exit.
ghost use Rattle.std.specs.Prelude.{◌≡◌, ◌+◌, ◌*◌, ◌≤◌, ◌<◌, length};
ghost use Rattle.rv_table.specs.Machine.{stored};
ghost use Rattle.rv_memory.specs.Regions.{map_of, memory_of, region_of};
ghost use Rattle.rv_memory.specs.States.{state_of};
ghost use Rattle.cmm_abi.specs.Regions.{value_place, with_values, with_word};
ghost use Rattle.cmm_image_machine.specs.Changes.{at_pc, parameter_widths, variable_width};
ghost use Rattle.cmm_resume.specs.Finding.{checked, continuation_widths, taken};

use crate::setting::fits;
use cmm_abi::registers::FIRST_VALUE;
use cmm_abi::values::IN_REGISTERS;
use cmm_image::{ContinuationNumber, ContinuationRow, ProcRow, VariableNumber};
use cmm_rules::Rule;
use cmm_words::Width;
use rv_memory::Memory;
use rv_table::Regs;
use rv_table::memory_map::ARGUMENT_WORDS;

/// Whether values fit these widths. The error is the rule by which they do not.
pub(crate) fn check_widths(widths: &[Width], values: &[u64]) -> Result<(), Rule>
    ensures { result ≡ taken widths.now values.now }
{
    if widths.len() != values.len() {
        return Err(Rule::OtherCount);
    }
    for (k, value) in values.iter().enumerate() {
        if !fits(widths[k], *value) {
            return Err(Rule::DoesNotFit);
        }
    }
    Ok(())
}

/// Whether values fit the parameters of a continuation of a procedure, which is to be there.
pub(crate) fn check_continuation(
    procedure: &ProcRow,
    number: ContinuationNumber,
    values: &[u64],
) -> Result<(), Rule>
    ensures { result ≡ checked (continuation_widths procedure.now number) values.now }
{
    match procedure.continuations.get(usize::from(number.0)) {
        Some(continuation) => check_parameters(procedure, continuation, values),
        None => Err(Rule::NoExit),
    }
}

/// Whether values fit the parameters of a continuation of a procedure.
fn check_parameters(
    procedure: &ProcRow,
    continuation: &ContinuationRow,
    values: &[u64],
) -> Result<(), Rule>
    ensures { result ≡ taken (parameter_widths procedure.now continuation.now) values.now }
{
    let parameters = continuation.parameters.as_slice();
    if parameters.len() != values.len() {
        return Err(Rule::OtherCount);
    }
    for (k, value) in values.iter().enumerate() {
        if !fits(width_of(procedure, parameters[k]), *value) {
            return Err(Rule::DoesNotFit);
        }
    }
    Ok(())
}

/// The width of a variable of a procedure; 64 bits where it has no such variable.
fn width_of(procedure: &ProcRow, number: VariableNumber) -> Width
    ensures { result ≡ variable_width procedure.now number }
{
    match procedure.variables.get(usize::from(number.0)) {
        Some(variable) => variable.width,
        None => Width::W64,
    }
}

/// Brings values to their places, and lets the program go on at an address.
pub fn resume_at(r: &mut Regs, m: &mut Memory, address: u64, values: &[u64])
    requires { length values.now ≤ 64 }
    ensures state { state_of r.new m.new ≡ at_pc address (with_values (region_of m.old) values.now (state_of r.old m.old)) }
    ensures map { map_of m.new ≡ map_of m.old }
    ensures region { region_of m.new ≡ region_of m.old }
{
    put_values(r, m, values);
    r.pc = address;
}

/// Brings values to their places.
fn put_values(r: &mut Regs, m: &mut Memory, values: &[u64])
    requires { length values.now ≤ 64 }
    ensures state { state_of r.new m.new ≡ with_values (region_of m.old) values.now (state_of r.old m.old) }
    ensures map { map_of m.new ≡ map_of m.old }
    ensures region { region_of m.new ≡ region_of m.old }
{
    for (k, value) in values.iter().enumerate() {
        put_value(r, m, k, *value);
    }
}

/// Brings the value of this number to its place.
fn put_value(r: &mut Regs, m: &mut Memory, k: usize, value: u64)
    requires { k < 64 }
    ensures state { state_of r.new m.new ≡ with_word (value_place (region_of m.old) k) value (state_of r.old m.old) }
    ensures map { map_of m.new ≡ map_of m.old }
    ensures region { region_of m.new ≡ region_of m.old }
{
    let in_registers = IN_REGISTERS as usize;
    if k < in_registers {
        r.write(FIRST_VALUE + k as u8, value);
    } else {
        put_argument(m, (k - in_registers) as u64, value);
    }
}

/// Gives the word of this number of the argument area a value.
fn put_argument(m: &mut Memory, index: u64, value: u64)
    requires { index < ARGUMENT_WORDS }
    ensures memory { memory_of m.new ≡ stored (memory_of m.old) ((region_of m.old).address + 8 * index) 8 value }
    ensures map { map_of m.new ≡ map_of m.old }
    ensures region { region_of m.new ≡ region_of m.old }
{
    let address = m.region() + 8 * index;
    let _ = m.store(address, 8, value);
}
