//! Counts of tokens.

ghost use Rattle.std.specs.Prelude.{◌≡◌, ◌+◌, ◌≤◌, ℕ, max, slice_get};
ghost use Rattle.cmm_graph.specs.Covering.{access_tokens, is_constant_operand, is_label_operand, operator_tokens as operator_tokens_of};
ghost use Rattle.cmm_flow.specs.Operands.{nodes, nodes_of_all as nodes_of_list, operand_of as operand_at};
ghost use Rattle.cmm_flow.specs.Statements.{operator_nodes as operator_nodes_of, normal_tokens as normal_tokens_of, remaining as remaining_of};
ghost use Rattle.cmm_flow.specs.inside.Counts.{capped};

use crate::expression::operand_of;
use cmm_graph::Operand;
use cmm_program::{Expression, Proc, Site};
use cmm_words::{Constant, Width};

/// The tokens of a node that moves a word in memory: two more where that need not be aligned to its size, and is moved in parts.
pub fn access_tokens(width: Width, aligned: u32) -> u32
    ensures { result ≡ access_tokens width aligned }
{
    if (aligned as u64) < width.bytes() {
        3
    } else {
        1
    }
}

/// Whether an operand is a constant.
fn is_constant(operand: &Operand) -> bool
    ensures { result ≡ is_constant_operand operand.now }
{
    matches!(operand, Operand::Constant(_))
}

/// Whether it is a label of a procedure or of data, with a number added.
fn is_label(operand: &Operand) -> bool
    ensures { result ≡ is_label_operand operand.now }
{
    match operand {
        Operand::Constant(constant) => !matches!(constant, Constant::Number(..)),
        _ => false,
    }
}

/// The tokens of a node that computes an operator of two operands: two where both are constants, as their code is longer, and each has a
/// token of its own in the text. So has a label, which is a word of 64 bits, at a smaller width.
pub fn operator_tokens(width: Width, left: &Operand, right: &Operand) -> u32
    ensures { result ≡ operator_tokens_of width left.now right.now }
{
    if (is_constant(left) && is_constant(right))
        || (width.bits() < 64 && (is_label(left) || is_label(right)))
    {
        2
    } else {
        1
    }
}

/// The tokens of the node of an operator, of expressions that leave their values at the bases 0 and 1.
pub fn tokens_of_operator(width: Width, left: &Expression, right: &Expression) -> u32
    ensures { result ≡ operator_tokens_of width (operand_at 0 left.now) (operand_at 1 right.now) }
{
    operator_tokens(width, &operand_of(left, 0), &operand_of(right, 1))
}

/// The tokens of the nodes of an expression.
pub fn nodes_of(e: &Expression) -> u32
    ensures { result ≡ capped (nodes e.now) }
{
    match e {
        Expression::Known(_)
        | Expression::Variable(..)
        | Expression::Stackdata(_)
        | Expression::Continuation(_) => 0,
        Expression::Register(..) => 1,
        Expression::Load {
            width,
            aligned,
            address,
        } => sum(nodes_of(address.get()), access_tokens(*width, *aligned)),
        Expression::Unary(_, _, operand) => sum(nodes_of(operand.get()), 1),
        Expression::SignExtend(_, _, operand) => sum(nodes_of(operand.get()), 1),
        Expression::LowBits(_, _, operand) => sum(nodes_of(operand.get()), 1),
        Expression::ZeroExtend(_, _, operand) => nodes_of(operand.get()),
        Expression::Binary(_, width, left, right) => sum(
            sum(nodes_of(left.get()), nodes_of(right.get())),
            tokens_of_operator(*width, left.get(), right.get()),
        ),
    }
}

/// The tokens of the nodes of an operator of two operands, and of these.
pub fn operator_nodes(width: Width, left: &Expression, right: &Expression) -> u32
    ensures { result ≡ capped (operator_nodes_of width left.now right.now) }
{
    sum(
        sum(nodes_of(left), nodes_of(right)),
        tokens_of_operator(width, left, right),
    )
}

/// The tokens of the nodes of some expressions.
pub fn nodes_of_all(es: &[Expression]) -> u32
    ensures { result ≡ capped (nodes_of_list es.now) }
{
    match es.split_first() {
        None => 0,
        Some((first, rest)) => sum(nodes_of(first), nodes_of_all(rest)),
    }
}

/// The sum of two counts, where each is exact or the greatest.
pub fn sum(a: u32, b: u32) -> u32
    ensures { (m n : ℕ) → a ≡ capped m → b ≡ capped n → result ≡ capped (m + n) }
{
    a.saturating_add(b)
}

/// The tokens that the other nodes of a statement leave, and one at least.
pub fn remaining(tokens: u32, used: u32) -> u32
    ensures { (n : ℕ) → used ≡ capped n → result ≡ remaining_of tokens n }
{
    tokens.saturating_sub(used).max(1)
}

/// A count of things, or the greatest number of 32 bits in place of any greater one.
fn count_of(count: usize) -> u32
    ensures { result ≡ capped count }
{
    match u32::try_from(count) {
        Ok(number) => number,
        Err(_) => u32::MAX,
    }
}

/// The tokens of the CopyIn of a site's normal exit, if it has one.
fn normal_tokens(site: &Site) -> u32
    ensures { result ≡ capped (normal_tokens_of (Some site.now)) }
{
    if site.never {
        0
    } else {
        sum(count_of(site.results.len()), 1)
    }
}

/// The tokens of the CopyIn of the normal exit of a site by its number, if it has one.
pub fn normal_tokens_at(q: &Proc, site: u32) -> u32
    ensures { result ≡ capped (normal_tokens_of (slice_get q.now.sites site)) }
{
    match q.sites.get(site as usize) {
        Some(site) => normal_tokens(site),
        None => 0,
    }
}
