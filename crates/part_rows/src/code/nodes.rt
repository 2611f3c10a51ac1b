//! What is tried, and its code.

ghost use Rattle.std.specs.Prelude.{◌≡◌, ◌≤◌, ◌+◌, IfOk, OnOk};
ghost use Rattle.rv_asm.specs.Sizes.{all_longest};
ghost use Rattle.cmm_select.specs.Destinations.{IsDestination};
ghost use Rattle.cmm_select.specs.Operands.{IsOperand};
ghost use Rattle.part_rows.specs.Labels.{at_first};

use cmm_select::laws::code_is_short;
use cmm_select::{
    Destination, Operand, Source, assign_binary, assign_comparison, assign_copy, assign_extended,
    assign_loaded, assign_low, assign_unary, decide, go_to, store,
};
use cmm_words::{Cmp, Op1, Op2, Width};
use rv_asm::{Asm, Label};
use std::alloc::{AllocError, Global};

/// Where a branch leads.
const THEN: Label = Label { number: 3 };

/// Where its two ways meet.
const END: Label = Label { number: 4 };

/// A node on a left and a right operand, with a destination.
#[derive(Clone, Copy)]
pub enum Node {
    Binary(Op2, Width),
    Comparison(Cmp, Width),
    /// A branch alone.
    Decision(Cmp, Width),
    /// 1 is assigned where the comparison holds, and 0 elsewhere, by a branch.
    Branch(Cmp, Width),
    Unary(Op1, Width),
    Extended(Width, Width),
    Low(Width, Width),
    Copy,
    /// The word at the left operand, a multiple of these bytes.
    Load(Width, u32),
    /// The right operand is stored at the left one, a multiple of these bytes.
    Store(Width, u32),
}

/// An assembler with the labels that are tried.
pub fn with_labels(alloc: Global) -> Result<Asm, AllocError>
    ensures labels { IfOk result (λ asm. asm.labels ≡ at_first) }
    ensures parts { IfOk result (λ asm. all_longest asm.parts ≡ 0) }
{
    let mut asm = Asm::new(alloc);
    asm.outer(0, false)?;
    asm.outer(1, false)?;
    asm.outer(2, false)?;
    asm.label()?;
    asm.label()?;
    Ok(asm)
}

/// Adds the code of a node. An error is want of memory.
pub fn add(
    asm: &mut Asm,
    node: Node,
    left: &Operand,
    right: &Operand,
    to: &Destination,
) -> Result<(), AllocError>
    requires labels { asm.old.labels ≡ at_first }
    requires left { IsOperand at_first left.now }
    requires right { IsOperand at_first right.now }
    requires to { IsDestination at_first to.now }
    ensures few { OnOk result (all_longest asm.new.parts ≤ all_longest asm.old.parts + 1000) }
{
    match node {
        Node::Binary(operator, width) => assign_binary(asm, operator, width, left, right, to),
        Node::Comparison(comparison, width) => {
            assign_comparison(asm, comparison, width, left, right, to)
        }
        Node::Decision(comparison, width) => decide(asm, comparison, width, left, right, END),
        Node::Branch(comparison, width) => add_branch(asm, comparison, width, left, right, to),
        Node::Unary(operator, width) => assign_unary(asm, operator, width, left, to),
        Node::Extended(from, width) => assign_extended(asm, from, width, left, to),
        Node::Low(from, width) => assign_low(asm, from, width, left, to),
        Node::Copy => assign_copy(asm, left, to),
        Node::Load(width, aligned) => assign_loaded(asm, width, aligned, left, to),
        Node::Store(width, aligned) => store(asm, width, aligned, left, right),
    }
}

/// Adds a branch that assigns 1 or 0.
fn add_branch(
    asm: &mut Asm,
    comparison: Cmp,
    width: Width,
    left: &Operand,
    right: &Operand,
    to: &Destination,
) -> Result<(), AllocError>
    requires labels { asm.old.labels ≡ at_first }
    requires left { IsOperand at_first left.now }
    requires right { IsOperand at_first right.now }
    requires to { IsDestination at_first to.now }
    ensures few { OnOk result (all_longest asm.new.parts ≤ all_longest asm.old.parts + 1000) }
{
    code_is_short();
    decide(asm, comparison, width, left, right, THEN)?;
    assign_copy(asm, &Operand::Held(Source::Number(0)), to)?;
    go_to(asm, END)?;
    asm.place(THEN);
    assign_copy(asm, &Operand::Held(Source::Number(1)), to)?;
    asm.place(END);
    Ok(())
}
