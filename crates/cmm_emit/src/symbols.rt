//! The labels of what a unit names that is not in its code.

ghost use Rattle.std.specs.Prelude.{◌≡◌, ℕ, ◌+◌, ◌<◌, ◌≤◌, ◌^◌, ◌∷◌, [], ◌++◌, cond, length, map, Some, None, IfOk, OnOk};
ghost use Rattle.cmm_bitset.specs.Sets.{has, members};
ghost use Rattle.cmm_emit.specs.Labels.{is_reached, reference_of, symbol_labels};
ghost use Rattle.cmm_emit.specs.Symbols.{AreLabelsOf, AreSymbols, IsWithout};

use crate::mentions::mentions_of;
use cmm_bitset::BitSet;
use cmm_graph::Graph;
use cmm_items::Items;
use cmm_program::Program;
use cmm_unit_code::Reference;
use rv_asm::{Asm, Label};
use std::alloc::{AllocError, Global};

/// What code names by symbols.
#[derive(Clone, Copy)]
pub enum Sort {
    /// Global registers.
    Register,
    /// Data labels.
    Label,
    /// Procedures.
    Procedure,
}

impl Sort {
    /// The one of this sort that has a number.
    fn reference(self, number: u32) -> Reference
        ensures { result ≡ reference_of self number }
    {
        match self {
            Sort::Register => Reference::Register(number),
            Sort::Label => Reference::Label(number),
            Sort::Procedure => Reference::Procedure(number),
        }
    }

    /// Whether it is reached from where the code stands that names it, as code is, or stands for a number.
    fn is_reached(self) -> bool
        ensures { (n : ℕ) → result ≡ is_reached (reference_of self n) }
    {
        match self {
            Sort::Register | Sort::Label => false,
            Sort::Procedure => true,
        }
    }
}

/// What a unit names, and the labels of it. A number of the program that the unit does not name has none.
#[derive(Drop)]
pub struct Symbols {
    /// What is named, each once. The label of each has the number of its place in this list.
    pub references: Items<Reference>,
    /// The labels of global registers.
    pub registers: Items<Option<Label>>,
    /// Those of data labels.
    pub data_labels: Items<Option<Label>>,
    /// Those of procedures, but for the unit's own.
    pub procedures: Items<Option<Label>>,
}

/// Makes a label for a number of a sort, if it is a member of what is named, behind those of `references`. An error is want of memory.
fn symbol(
    asm: &mut Asm,
    sort: Sort,
    named: &BitSet,
    number: u32,
    references: &mut Items<Reference>,
) -> Result<Option<Label>, AllocError>
    requires few { length references.old < 2 ^ 32 }
    requires within { number < length named.now }
    requires labels { asm.old.labels ≡ symbol_labels references.old }
    ensures made { IfOk result (λ made. made ≡ cond (has named.now number) (Some (record { number = length references.old })) None) }
    ensures references { OnOk result (references.new ≡ references.old ++ cond (has named.now number) (reference_of sort number ∷ []) []) }
    ensures labels { OnOk result (asm.new.labels ≡ symbol_labels references.new) }
    ensures parts { asm.new.parts ≡ asm.old.parts }
{
    if !named.has(number) {
        return Ok(None);
    }
    let place = references.len() as u32;
    references.push(sort.reference(number))?;
    let made = asm.outer(place, sort.is_reached())?;
    Ok(Some(made))
}

/// Makes a label for each number of a sort that is named, behind those of `references`. An error is want of memory.
fn symbols_of_sort(
    asm: &mut Asm,
    alloc: Global,
    sort: Sort,
    named: &BitSet,
    references: &mut Items<Reference>,
) -> Result<Items<Option<Label>>, AllocError>
    requires few { length references.old + length named.now ≤ 2 ^ 32 }
    requires labels { asm.old.labels ≡ symbol_labels references.old }
    ensures made { IfOk result (AreLabelsOf (reference_of sort) (has named.now) (length named.now) references.new) }
    ensures references { OnOk result (references.new ≡ references.old ++ map (reference_of sort) (members named.now)) }
    ensures labels { OnOk result (asm.new.labels ≡ symbol_labels references.new) }
    ensures parts { asm.new.parts ≡ asm.old.parts }
{
    let mut made = Items::new(alloc);
    for number in 0..named.size() {
        made.push(symbol(asm, sort, named, number, references)?)?;
    }
    Ok(made)
}

/// Takes `count` numbers away from a set, from one on.
fn forget(set: &mut BitSet, first: usize, count: usize)
    requires within { first + count ≤ length set.old }
    requires few { length set.old < 2 ^ 32 }
    ensures { IsWithout first count set.old set.new }
{
    for number in first..first + count {
        set.remove(number as u32);
    }
}

/// Makes a label for all that the graphs of a unit name and the unit does not have, in empty code: global registers, then data labels, then procedures. The unit has `count`
/// procedures, from one on. An error is want of memory.
pub fn make_symbols(
    asm: &mut Asm,
    alloc: Global,
    program: &Program,
    graphs: &[Graph],
    first: usize,
    count: usize,
) -> Result<Symbols, AllocError>
    requires empty { asm.old.labels ≡ [] }
    requires within { first + count ≤ length program.now.procs }
    requires few { length program.now.globals + length program.now.labels + length program.now.procs < 2 ^ 32 }
    ensures made { IfOk result (AreSymbols program.now graphs.now first count) }
    ensures labels { IfOk result (λ symbols. asm.new.labels ≡ symbol_labels symbols.references) }
    ensures parts { asm.new.parts ≡ asm.old.parts }
{
    let mut named = mentions_of(alloc, program, graphs)?;
    forget(&mut named.procedures, first, count);
    let mut references = Items::new(alloc);
    let registers = symbols_of_sort(
        asm,
        alloc,
        Sort::Register,
        &named.registers,
        &mut references,
    )?;
    let data_labels = symbols_of_sort(asm, alloc, Sort::Label, &named.labels, &mut references)?;
    let procedures = symbols_of_sort(
        asm,
        alloc,
        Sort::Procedure,
        &named.procedures,
        &mut references,
    )?;
    Ok(Symbols {
        references,
        registers,
        data_labels,
        procedures,
    })
}
