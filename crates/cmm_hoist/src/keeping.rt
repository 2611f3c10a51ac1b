//! What nodes have in place of the constants that are kept.

ghost use Rattle.std.specs.Prelude.{◌≡◌, ◌≢◌, ◌↔◌, ℕ, ◌+◌, ◌^◌, ◌<◌, length, slice_get, IfNone, IfSome, IsTrue, Some, true};
ghost use Rattle.cmm_words.specs.declared.constant.Constant.{Constant};
ghost use Rattle.cmm_graph.specs.declared.operand.Operand.TheVariants.{Constant as OfConstant};
ghost use Rattle.cmm_hoist.specs.Keeping.{IsKept, NodeStandsFor, OperandStandsFor, RvalueStandsFor, TestStandsFor, is_left};

use cmm_graph::{Comparison, Local, Node, NodeKind, Operand, Rvalue, Temporary};
use cmm_words::{Constant, Op2};

/// Whether two constants are the same.
pub fn is_same(a: Constant, b: Constant) -> bool
    ensures { IsTrue result ↔ (a ≡ b) }
{
    match (a, b) {
        (Constant::Number(word, width), Constant::Number(other, also)) => {
            word == other && width == also
        }
        (
            Constant::Code { proc, plus },
            Constant::Code {
                proc: other,
                plus: more,
            },
        ) => { proc == other && plus == more }
        (
            Constant::Address { label, plus },
            Constant::Address {
                label: other,
                plus: more,
            },
        ) => { label == other && plus == more }
        _ => false,
    }
}

/// The number of a constant among those that are kept, if it is one of them.
pub fn position(kept: &[Constant], constant: Constant) -> Option<usize>
    ensures some { IfSome result (λ index. slice_get kept.now index ≡ Some constant) }
    ensures none { IfNone result ((index : ℕ) → slice_get kept.now index ≢ Some constant) }
{
    for index in 0..kept.len() {
        if is_same(kept[index], constant) {
            return Some(index);
        }
    }
    None
}

/// The temporary that keeps an operand, where one does, and else the operand. `first` is the number of the first temporary that keeps one.
fn operand_for(first: u32, kept: &[Constant], operand: Operand) -> Operand
    requires { first + length kept.now < 2 ^ 32 }
    ensures stands { OperandStandsFor first kept.now operand result }
    ensures kept { (index : ℕ) (constant : Constant) → operand ≡ OfConstant constant → slice_get kept.now index ≡ Some constant → IsKept first kept.now operand result }
{
    match operand {
        Operand::Constant(constant) => match position(kept, constant) {
            Some(index) => Operand::Local(Local::Temporary(Temporary {
                number: first + index as u32,
            })),
            None => operand,
        },
        _ => operand,
    }
}

/// A comparison over the temporaries that keep its constants.
fn test_for(first: u32, kept: &[Constant], test: Comparison) -> Comparison
    requires { first + length kept.now < 2 ^ 32 }
    ensures { TestStandsFor first kept.now test result }
{
    Comparison {
        operator: test.operator,
        width: test.width,
        left: operand_for(first, kept, test.left),
        right: operand_for(first, kept, test.right),
    }
}

/// Whether an operator shifts, rotates or divides: the number by which it does so stays, since instructions know more of a number.
fn is_by_number(operator: Op2) -> bool {
    matches!(
        operator,
        Op2::Shl
            | Op2::Shrl
            | Op2::Shra
            | Op2::Rotl
            | Op2::Rotr
            | Op2::Divu
            | Op2::Modu
            | Op2::Div
            | Op2::Mod
            | Op2::Quot
            | Op2::Rem
    )
}

/// A right side over the temporaries that keep its constants.
fn rvalue_for(first: u32, kept: &[Constant], value: Rvalue) -> Rvalue
    requires { first + length kept.now < 2 ^ 32 }
    ensures { RvalueStandsFor first kept.now value result }
{
    match value {
        Rvalue::Copy(operand) => Rvalue::Copy(operand_for(first, kept, operand)),
        Rvalue::Load {
            width,
            aligned,
            address,
        } => Rvalue::Load {
            width,
            aligned,
            address: operand_for(first, kept, address),
        },
        Rvalue::Binary {
            operator,
            width,
            left,
            right,
        } => Rvalue::Binary {
            operator,
            width,
            left: operand_for(first, kept, left),
            right: if is_by_number(operator) {
                right
            } else {
                operand_for(first, kept, right)
            },
        },
        Rvalue::Compare(test) => Rvalue::Compare(test_for(first, kept, test)),
        _ => value,
    }
}

/// The node over the temporaries that keep its constants, if it may name any.
pub fn node_for(first: u32, kept: &[Constant], node: &Node) -> Option<Node>
    requires { first + length kept.now < 2 ^ 32 }
    ensures some { IfSome result (λ n. NodeStandsFor first kept.now node.now n) }
    ensures none { IfNone result (is_left node.now.kind ≡ true) }
{
    let kind = match node.kind {
        NodeKind::Assign { to, value, next } => NodeKind::Assign {
            to,
            value: rvalue_for(first, kept, value),
            next,
        },
        NodeKind::Store {
            width,
            aligned,
            address,
            value,
            next,
        } => NodeKind::Store {
            width,
            aligned,
            address: operand_for(first, kept, address),
            value: operand_for(first, kept, value),
            next,
        },
        NodeKind::Branch {
            test,
            then,
            otherwise,
        } => NodeKind::Branch {
            test: test_for(first, kept, test),
            then,
            otherwise,
        },
        _ => return None,
    };
    Some(Node {
        tokens: node.tokens,
        kind,
    })
}
