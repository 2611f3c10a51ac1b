//! Which constants are worth a register: those of nodes in loops that an instruction does not hold.

ghost use Rattle.std.specs.Prelude.{◌≡◌, ◌≤◌, Contains, IfOk, IfSome, List, OnOk, length};
ghost use Rattle.cmm_graph.specs.Paths.{operands, operands_of_rvalue, operands_of_test};
ghost use Rattle.cmm_graph.specs.declared.operand.Operand.TheVariants.{Constant as OfConstant};
ghost use Rattle.cmm_graph.specs.declared.operand.Operand.{Operand};
ghost use Rattle.cmm_hoist.specs.Graphs.{all_operands};
ghost use Rattle.cmm_hoist.specs.inside.Worth.{AreAmong, AreNamed, IsWithin};

use crate::keeping::position;
use crate::loops::in_loops;
use cmm_graph::{Comparison, Graph, Node, NodeKind, Operand, Rvalue};
use cmm_items::Items;
use cmm_words::{Constant, Op2};
use std::alloc::{AllocError, Global};

/// Numbers below this are held by one instruction.
const SMALL: u64 = 2048;

/// At most two constants of a node.
#[derive(Clone, Copy)]
struct Worthy {
    first: Option<Constant>,
    second: Option<Constant>,
}

/// The constant that an operand is, unless it is 0, which a register has.
fn constant_in(operand: Operand) -> Option<Constant>
    ensures { IfSome result (λ constant. operand ≡ OfConstant constant) }
{
    match operand {
        Operand::Constant(Constant::Number(0, _)) => None,
        Operand::Constant(constant) => Some(constant),
        _ => None,
    }
}

/// The constant that an operand is, unless it is a small number.
fn dear_in(operand: Operand) -> Option<Constant>
    ensures { IfSome result (λ constant. operand ≡ OfConstant constant) }
{
    match operand {
        Operand::Constant(Constant::Number(word, _)) if word < SMALL => None,
        _ => constant_in(operand),
    }
}

/// What the second operand of an operator is worth: that by which a word is shifted, rotated or divided says more as a number, and a sum holds a small one.
fn second_of(operator: Op2, right: Operand) -> Option<Constant>
    ensures { IfSome result (λ constant. right ≡ OfConstant constant) }
{
    match operator {
        Op2::Add | Op2::Sub | Op2::And | Op2::Or | Op2::Xor => dear_in(right),
        Op2::Mul => constant_in(right),
        _ => None,
    }
}

/// The constants of a comparison.
fn of_test(test: Comparison) -> Worthy
    ensures { AreAmong (operands_of_test test) result }
{
    Worthy {
        first: constant_in(test.left),
        second: constant_in(test.right),
    }
}

/// The constants of a right side. An instruction compares a word with a small number at once where the result is put somewhere.
fn of_value(value: Rvalue) -> Worthy
    ensures { AreAmong (operands_of_rvalue value) result }
{
    match value {
        Rvalue::Copy(operand) => Worthy {
            first: dear_in(operand),
            second: None,
        },
        Rvalue::Load { address, .. } => Worthy {
            first: constant_in(address),
            second: None,
        },
        Rvalue::Binary {
            operator,
            left,
            right,
            ..
        } => Worthy {
            first: constant_in(left),
            second: second_of(operator, right),
        },
        Rvalue::Compare(test) => Worthy {
            first: constant_in(test.left),
            second: dear_in(test.right),
        },
        _ => Worthy {
            first: None,
            second: None,
        },
    }
}

/// The constants of a node that are worth a register.
fn of_node(kind: &NodeKind) -> Worthy
    ensures { AreAmong (operands kind.now) result }
{
    match kind {
        NodeKind::Assign { value, .. } => of_value(*value),
        NodeKind::Store { address, value, .. } => Worthy {
            first: constant_in(*address),
            second: constant_in(*value),
        },
        NodeKind::Branch { test, .. } => of_test(*test),
        _ => Worthy {
            first: None,
            second: None,
        },
    }
}

/// Adds a constant, if there is one that is not there yet, up to a limit.
fn keep(
    kept: &mut Items<Constant>,
    constant: Option<Constant>,
    limit: usize,
) -> Result<(), AllocError>
    ensures named { OnOk result ((among : List Operand) → IfSome constant (λ c. Contains among (OfConstant c)) → AreNamed among kept.old → AreNamed among kept.new) }
    ensures few { OnOk result (length kept.old ≤ limit → length kept.new ≤ limit) }
{
    let Some(constant) = constant else {
        return Ok(());
    };
    if kept.len() >= limit || position(kept.as_slice(), constant).is_some() {
        return Ok(());
    }
    kept.push(constant)?;
    Ok(())
}

/// Adds the constants of a node.
fn keep_of(kept: &mut Items<Constant>, node: &Node, limit: usize) -> Result<(), AllocError>
    ensures named { OnOk result ((among : List Operand) → IsWithin (operands node.now.kind) among → AreNamed among kept.old → AreNamed among kept.new) }
    ensures few { OnOk result (length kept.old ≤ limit → length kept.new ≤ limit) }
{
    let worthy = of_node(&node.kind);
    keep(kept, worthy.first, limit)?;
    keep(kept, worthy.second, limit)?;
    Ok(())
}

/// The constants of nodes in loops that are worth a register, each once and as they come in the text, up to a limit.
pub fn constants_in_loops(
    alloc: Global,
    g: &Graph,
    limit: usize,
) -> Result<Items<Constant>, AllocError>
    ensures named { IfOk result (λ kept. AreNamed (all_operands g.now) kept) }
    ensures few { IfOk result (λ kept. length kept ≤ limit) }
{
    let mut kept = Items::new(alloc);
    if limit == 0 {
        return Ok(kept);
    }
    let inside = in_loops(alloc, g)?;
    let nodes = g.nodes.as_slice();
    for before in 0..nodes.len() {
        let index = nodes.len() - 1 - before;
        if inside.get(index).copied() == Some(true) {
            keep_of(&mut kept, &nodes[index], limit)?;
        }
    }
    Ok(kept)
}
