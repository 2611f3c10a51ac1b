//! Expressions: their operands, and the nodes that compute these.
//!
//! The value of an operator goes into a temporary. The operands of one that puts its value into the temporary `base` have
//! theirs from `base` on, so temporaries are used as a stack.

ghost use Rattle.std.specs.Prelude.{◌≡◌, ◌∷◌, [], IfOk};
ghost use Rattle.cmm_program.specs.Values.{known_width as width_of_constant, width_of as width_of_expression};
ghost use Rattle.cmm_graph.specs.Covering.{least_for};
ghost use Rattle.cmm_flow.specs.Code.{OperandCode, OperandsCode, ValueCode, to_temporary};
ghost use Rattle.cmm_flow.specs.Operands.{arguments_of as arguments_from, is_plain as is_operand, operand_of as operand_at, operands_of as operands_from, temporary as from_temporary};
ghost use Rattle.cmm_flow.specs.inside.Laying.{Lays};
ghost use Rattle.cmm_flow.specs.inside.Nodes.{nodes_of_operand, nodes_of_operands, nodes_of_parts, nodes_of_value};
ghost use Rattle.cmm_flow.specs.inside.Parts.{PartsCode, rvalue_of as rvalue_at};

use crate::builder::{Builder, following};
use crate::counts::{access_tokens, operator_tokens};
use cmm_graph::{
    Argument, ContinuationId, Destination, Local, NodeId, NodeKind, Operand, Register, Rvalue,
    StackLabel, Temporary, Variable,
};
use cmm_items::Items;
use cmm_program::Expression;
use cmm_words::{Constant, Width};
use std::alloc::{AllocError, Global};

/// A temporary, as an operand.
pub fn temporary(number: u32) -> Operand
    ensures { result ≡ from_temporary number }
{
    Operand::Local(Local::Temporary(Temporary { number }))
}

/// What has the value of an expression behind its nodes.
pub fn operand_of(e: &Expression, base: u32) -> Operand
    ensures { result ≡ operand_at base e.now }
{
    match e {
        Expression::Known(constant) => Operand::Constant(*constant),
        Expression::Variable(number, _) => {
            Operand::Local(Local::Variable(Variable { number: *number }))
        }
        Expression::Stackdata(number) => Operand::Stackdata(StackLabel { number: *number }),
        Expression::Continuation(number) => {
            Operand::Continuation(ContinuationId { number: *number })
        }
        Expression::ZeroExtend(_, _, operand) => operand_of(operand.get(), base),
        _ => temporary(base),
    }
}

/// The outermost operator of an expression, over the operands that have the values of its parts.
pub fn rvalue_of(e: &Expression, base: u32) -> Result<Rvalue, AllocError>
    ensures { IfOk result (λ value. value ≡ rvalue_at base e.now) }
{
    match e {
        Expression::Register(number, _) => Ok(Rvalue::Register(Register { number: *number })),
        Expression::Load {
            width,
            aligned,
            address,
        } => Ok(Rvalue::Load {
            width: *width,
            aligned: *aligned,
            address: operand_of(address.get(), base),
        }),
        Expression::Unary(operator, width, operand) => Ok(Rvalue::Unary {
            operator: *operator,
            width: *width,
            operand: operand_of(operand.get(), base),
        }),
        Expression::Binary(operator, width, left, right) => Ok(Rvalue::Binary {
            operator: *operator,
            width: *width,
            left: operand_of(left.get(), base),
            right: operand_of(right.get(), following(base)?),
        }),
        Expression::SignExtend(from, to, operand) => Ok(Rvalue::SignExtend {
            from: *from,
            to: *to,
            operand: operand_of(operand.get(), base),
        }),
        Expression::LowBits(from, to, operand) => Ok(Rvalue::LowBits {
            from: *from,
            to: *to,
            operand: operand_of(operand.get(), base),
        }),
        Expression::ZeroExtend(_, _, operand) => rvalue_of(operand.get(), base),
        _ => Ok(Rvalue::Copy(operand_of(e, base))),
    }
}

/// The tokens of a node that assigns a right side.
fn right_tokens(value: &Rvalue) -> u32
    ensures { result ≡ least_for value.now }
{
    match value {
        Rvalue::Load { width, aligned, .. } => access_tokens(*width, *aligned),
        Rvalue::Binary {
            width,
            left,
            right,
            ..
        } => operator_tokens(*width, left, right),
        Rvalue::Compare(test) => operator_tokens(test.width, &test.left, &test.right),
        _ => 1,
    }
}

/// Whether an expression is an operand as it stands.
fn is_plain(e: &Expression) -> bool
    ensures { result ≡ is_operand e.now }
{
    match e {
        Expression::Known(_)
        | Expression::Variable(..)
        | Expression::Stackdata(_)
        | Expression::Continuation(_) => true,
        Expression::ZeroExtend(_, _, operand) => is_plain(operand.get()),
        _ => false,
    }
}

fn constant_width(constant: Constant) -> Width
    ensures { result ≡ width_of_constant constant }
{
    match constant {
        Constant::Number(_, width) => width,
        Constant::Code { .. } | Constant::Address { .. } => Width::W64,
    }
}

/// The width of an expression's value.
pub fn width_of(e: &Expression) -> Width
    ensures { result ≡ width_of_expression e.now }
{
    match e {
        Expression::Known(constant) => constant_width(*constant),
        Expression::Variable(_, width)
        | Expression::Register(_, width)
        | Expression::Load { width, .. }
        | Expression::Unary(_, width, _)
        | Expression::Binary(_, width, _, _)
        | Expression::SignExtend(_, width, _)
        | Expression::ZeroExtend(_, width, _)
        | Expression::LowBits(_, width, _) => *width,
        Expression::Stackdata(_) | Expression::Continuation(_) => Width::W64,
    }
}

/// The operands of some expressions, from the temporary `base` on.
pub fn operands_of(
    alloc: Global,
    es: &[Expression],
    base: u32,
) -> Result<Items<Operand>, AllocError>
    ensures { IfOk result (λ operands. operands ≡ operands_from base es.now) }
{
    let mut operands = Items::new(alloc);
    let mut base = base;
    for e in es {
        operands.push(operand_of(e, base))?;
        base = following(base)?;
    }
    Ok(operands)
}

/// Some expressions as they are passed, from the temporary `base` on.
pub fn arguments_of(
    alloc: Global,
    es: &[Expression],
    base: u32,
) -> Result<Items<Argument>, AllocError>
    ensures { IfOk result (λ arguments. arguments ≡ arguments_from base es.now) }
{
    let mut arguments = Items::new(alloc);
    let mut base = base;
    for e in es {
        arguments.push(Argument {
            width: width_of(e),
            value: operand_of(e, base),
        })?;
        base = following(base)?;
    }
    Ok(arguments)
}

impl Builder {
    /// Lays the nodes of an operand of an operator: behind them `operand_of` has the value of an expression.
    #[cycle(expression)]
    pub fn operand(&mut self, e: &Expression, base: u32, next: NodeId) -> Result<NodeId, AllocError>
        ensures { IfOk result (λ n. Lays (nodes_of_operand base e.now) (next ∷ []) self.old self.new (λ nodes. OperandCode nodes e.now base n next)) }
    {
        if is_plain(e) {
            Ok(next)
        } else {
            self.into_temporary(e, base, next)
        }
    }

    /// Lays the nodes by which a temporary takes the value of an expression.
    #[cycle(expression)]
    pub fn into_temporary(
        &mut self,
        e: &Expression,
        base: u32,
        next: NodeId,
    ) -> Result<NodeId, AllocError>
        ensures { IfOk result (λ n. Lays (nodes_of_value base (to_temporary base) e.now) (next ∷ []) self.old self.new (λ nodes. ValueCode nodes e.now base (to_temporary base) n next)) }
    {
        let to = Destination::Temporary(Temporary { number: base });
        self.value(e, base, to, next)
    }

    /// Lays the nodes by which a destination takes the value of an expression.
    #[cycle(expression)]
    pub fn value(
        &mut self,
        e: &Expression,
        base: u32,
        to: Destination,
        next: NodeId,
    ) -> Result<NodeId, AllocError>
        ensures { IfOk result (λ n. Lays (nodes_of_value base to e.now) (next ∷ []) self.old self.new (λ nodes. ValueCode nodes e.now base to n next)) }
    {
        let value = rvalue_of(e, base)?;
        let node = self.push(right_tokens(&value), NodeKind::Assign { to, value, next })?;
        self.parts(e, base, node)
    }

    /// Lays the nodes of the operands of an expression's outermost operator.
    #[cycle(expression)]
    fn parts(&mut self, e: &Expression, base: u32, next: NodeId) -> Result<NodeId, AllocError>
        ensures { IfOk result (λ n. Lays (nodes_of_parts base e.now) (next ∷ []) self.old self.new (λ nodes. PartsCode nodes e.now base n next)) }
    {
        match e {
            Expression::Load { address, .. } => self.operand(address.get(), base, next),
            Expression::Unary(_, _, operand) => self.operand(operand.get(), base, next),
            Expression::SignExtend(_, _, operand) => self.operand(operand.get(), base, next),
            Expression::LowBits(_, _, operand) => self.operand(operand.get(), base, next),
            Expression::Binary(_, _, left, right) => {
                let behind = self.operand(right.get(), following(base)?, next)?;
                self.operand(left.get(), base, behind)
            }
            Expression::ZeroExtend(_, _, operand) => self.parts(operand.get(), base, next),
            _ => Ok(next),
        }
    }

    /// Lays the nodes of some operands, which are evaluated one after the other, from the temporary `base` on.
    pub fn operands(
        &mut self,
        es: &[Expression],
        base: u32,
        next: NodeId,
    ) -> Result<NodeId, AllocError>
        ensures { IfOk result (λ n. Lays (nodes_of_operands base es.now) (next ∷ []) self.old self.new (λ nodes. OperandsCode nodes es.now base n next)) }
    {
        match es.split_first() {
            None => Ok(next),
            Some((first, rest)) => {
                let behind = self.operands(rest, following(base)?, next)?;
                self.operand(first, base, behind)
            }
        }
    }
}
