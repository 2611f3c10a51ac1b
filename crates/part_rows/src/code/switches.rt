//! A switch of many arms.

ghost use Rattle.std.specs.Prelude.{◌≡◌, ◌≤◌, ◌<◌, ◌+◌, ◌*◌, ◌^◌, ◌++◌, ◌∷◌, [], true, length, IfOk, OnOk};
ghost use Rattle.std.specs.List.{All};
ghost use Rattle.rv_asm.specs.Assembly.{IsInner};
ghost use Rattle.rv_asm.specs.Sizes.{all_longest};
ghost use Rattle.rv_asm.specs.declared.part.Meaning.TheVariants.{Inner};
ghost use Rattle.cmm_select.specs.Switches.{ranges_in};
ghost use Rattle.part_rows.specs.Labels.{placed};

use crate::code::machine::Machine;
use cmm_chain::Location;
use cmm_graph::{Arm, NodeId};
use cmm_items::Items;
use cmm_program::Range;
use cmm_select::{Destination, Operand, Source, assign_copy, go_to, stop, switch};
use rv_asm::{Asm, Label};
use std::alloc::{AllocError, Global};

/// How many arms there are at most.
pub const MOST: u32 = 1000;

/// The place of the value.
const VALUE: Location = Location::Saved(9);

/// The place of the number of the arm that is taken.
const TAKEN: Location = Location::Temp(12);

/// The arm with a number: for two values from three times the number on, and for two far behind.
fn arm(alloc: Global, number: u32) -> Result<Arm, AllocError>
    requires { number < MOST }
    ensures to { IfOk result (λ arm. arm.to.number ≡ number) }
    ensures ranges { IfOk result (λ arm. length arm.ranges ≡ 2) }
{
    let near = 3 * u64::from(number);
    let far = u64::from(number) * 0x100_0000_0000 + 0x8000_0000;
    let ranges = Items::from_slice(
        alloc,
        &[
            Range {
                from: near,
                to: near + 1,
            },
            Range {
                from: far,
                to: far + 1,
            },
        ],
    )?;
    Ok(Arm {
        ranges,
        to: NodeId { number },
    })
}

/// A list of `count` arms.
fn arms(alloc: Global, count: u32) -> Result<Vec<Arm>, AllocError>
    requires { count ≤ MOST }
    ensures to { IfOk result (λ arms. All (λ arm. arm.to.number < count) arms.items) }
    ensures ranges { IfOk result (λ arms. ranges_in arms.items ≡ 2 * count) }
{
    let mut arms = Vec::new(alloc);
    for number in 0..count {
        arms.push(arm(alloc, number)?)?;
    }
    Ok(arms)
}

/// Adds code that ends with a number.
fn end(asm: &mut Asm, number: u64) -> Result<(), AllocError>
    ensures labels { asm.new.labels ≡ asm.old.labels }
    ensures few { OnOk result (all_longest asm.new.parts ≤ all_longest asm.old.parts + 60) }
{
    assign_copy(
        asm,
        &Operand::Held(Source::Number(number)),
        &Destination::Place(TAKEN),
    )?;
    stop(asm)?;
    Ok(())
}

/// Adds the code of an arm, which ends with a number, and gives its label.
fn add_arm(asm: &mut Asm, number: u64) -> Result<Label, AllocError>
    requires { length asm.old.labels < 2 ^ 32 }
    ensures inner { IfOk result (IsInner asm.new.labels) }
    ensures labels { OnOk result (asm.new.labels ≡ asm.old.labels ++ Inner true ∷ []) }
    ensures few { OnOk result (all_longest asm.new.parts ≤ all_longest asm.old.parts + 60) }
{
    let label = asm.label()?;
    asm.place(label);
    end(asm, number)?;
    Ok(label)
}

/// Adds the code of a count of arms, and gives their labels.
fn add_arms(alloc: Global, asm: &mut Asm, count: u32) -> Result<Vec<Label>, AllocError>
    requires { length asm.old.labels + count < 2 ^ 32 }
    ensures inner { IfOk result (λ labels. All (IsInner asm.new.labels) labels.items) }
    ensures count { IfOk result (λ labels. length labels.items ≡ count) }
    ensures labels { OnOk result (asm.new.labels ≡ asm.old.labels ++ placed count) }
    ensures few { OnOk result (all_longest asm.new.parts ≤ all_longest asm.old.parts + 60 * count) }
{
    let mut labels = Vec::new(alloc);
    for number in 0..count {
        labels.push(add_arm(asm, u64::from(number))?)?;
    }
    Ok(labels)
}

/// The number of the arm that a switch takes for a value, and the count of arms where it takes none.
pub fn run_switch(alloc: Global, count: u32, value: u64) -> Result<u64, AllocError>
    requires { count ≤ MOST }
{
    let mut asm = Asm::new(alloc);
    let start = asm.label()?;
    go_to(&mut asm, start)?;
    let labels = add_arms(alloc, &mut asm, count)?;
    asm.place(start);
    switch(
        &mut asm,
        &Operand::Held(Source::Place(VALUE)),
        &arms(alloc, count)?,
        &labels,
    )?;
    end(&mut asm, u64::from(count))?;
    let mut machine = Machine::new(alloc, asm, &[], &[], 0)?;
    machine.put(VALUE, value);
    let _ = machine.run();
    Ok(machine.at(TAKEN))
}
