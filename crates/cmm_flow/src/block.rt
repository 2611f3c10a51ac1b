//! Blocks: statements with what they hold, laid from the last to the first.
//!
//! What follows a label or a continuation was laid before it, so where it leads is noted when its statement is reached. A
//! `goto` goes to the node of its label, whose number is known from the beginning.

ghost use Rattle.std.specs.Prelude.{◌≡◌, ◌∷◌, ◌++◌, [], IfOk, OnOk, reverse};
ghost use Rattle.cmm_graph.specs.declared.node.NodeKind.TheVariants.{Switch};
ghost use Rattle.cmm_graph.specs.declared.number.NodeId.{NodeId as NodeNumber};
ghost use Rattle.cmm_flow.specs.Code.{IsNode, OperandCode};
ghost use Rattle.cmm_flow.specs.Operands.{nodes, operand_of as operand_at};
ghost use Rattle.cmm_flow.specs.Statements.{remaining as remaining_of};
ghost use Rattle.cmm_graph.specs.Paths.{arm_nodes};
ghost use Rattle.cmm_flow.specs.inside.Laying.{Lays};
ghost use Rattle.cmm_flow.specs.inside.Nodes.{nodes_of_switch, ranges_of};
ghost use Rattle.cmm_flow.specs.inside.Marks.{PutsArm};
ghost use Rattle.cmm_flow.specs.inside.LayingBlocks.{LaysArms, LaysBlock, LaysStatement};

use crate::builder::Builder;
use crate::counts::{nodes_of, remaining};
use crate::expression::operand_of;
use cmm_graph::{Arm as Way, NodeId, NodeKind};
use cmm_items::Items;
use cmm_program::{Arm, Case, Expression, Form, Proc, Statement};
use std::alloc::{AllocError, Global};

/// The ways of a switch.
#[derive(Drop)]
struct Ways {
    /// Those of the arms that have ranges, from the last to the first.
    backward: Items<Way>,
    /// The way of all other values.
    otherwise: NodeId,
}

impl Ways {
    /// Adds an arm in front.
    fn push(&mut self, alloc: Global, case: &Case, first: NodeId) -> Result<(), AllocError>
        ensures { OnOk result (PutsArm case.now first (reverse self.old.backward) self.old.otherwise (reverse self.new.backward) self.new.otherwise) }
    {
        match case {
            Case::In(ranges) => {
                let ranges = Items::from_slice(alloc, ranges.as_slice())?;
                self.backward.push(Way { ranges, to: first })?;
            }
            Case::Default => self.otherwise = first,
        }
        Ok(())
    }
}

/// Items in the opposite order.
fn reversed(ways: Items<Way>) -> Items<Way>
    ensures { result ≡ reverse ways }
{
    let mut ways = ways.into_vec();
    ways.reverse();
    Items::from_vec(ways)
}

impl Builder {
    /// Lays the statements of a block in front of the node `next`, and answers the first node.
    #[cycle(statement)]
    pub fn block(
        &mut self,
        q: &Proc,
        statements: &[Statement],
        next: NodeId,
    ) -> Result<NodeId, AllocError>
        ensures { IfOk result (λ n. LaysBlock self.old self.new q.now statements.now n next) }
    {
        let mut node = next;
        for statement in statements.iter().rev() {
            node = self.statement(q, statement, node)?;
        }
        Ok(node)
    }

    /// Lays a statement in front of the node `next`, and answers its first node.
    #[cycle(statement)]
    fn statement(
        &mut self,
        q: &Proc,
        statement: &Statement,
        next: NodeId,
    ) -> Result<NodeId, AllocError>
        ensures { IfOk result (λ n. LaysStatement self.old self.new q.now statement.now n next) }
    {
        let tokens = statement.tokens;
        match &statement.form {
            Form::Empty => self.push(1, NodeKind::Goto { next }),
            Form::If {
                condition,
                then,
                otherwise,
            } => {
                let failed = self.block(q, otherwise.as_slice(), next)?;
                let held = self.block(q, then.as_slice(), next)?;
                self.test(condition, held, failed)
            }
            Form::Switch { value, arms } => {
                let ways = self.arms(q, arms.as_slice(), next)?;
                self.switch(tokens, value, ways)
            }
            Form::Span(body) => {
                let first = self.block(q, body.as_slice(), next)?;
                self.push(1, NodeKind::Goto { next: first })
            }
            Form::Label(label) => {
                self.mark_label(*label, next);
                self.push(1, NodeKind::Goto { next })
            }
            Form::Goto(label) => self.label(*label),
            Form::Continuation(number) => {
                self.mark_continuation(*number, next);
                Ok(self.stop)
            }
            _ => self.simple(q, tokens, &statement.form, next),
        }
    }

    /// Lays the arms of a switch, and answers the ways to them.
    #[cycle(statement)]
    fn arms(&mut self, q: &Proc, arms: &[Arm], next: NodeId) -> Result<Ways, AllocError>
        ensures { IfOk result (λ ways. LaysArms self.old self.new q.now arms.now (reverse ways.backward) ways.otherwise next) }
    {
        let mut ways = Ways {
            backward: Items::new(self.alloc),
            otherwise: self.stop,
        };
        for arm in arms.iter().rev() {
            let first = self.block(q, arm.body.as_slice(), next)?;
            ways.push(self.alloc, &arm.case, first)?;
        }
        Ok(ways)
    }

    /// Lays a switch in front of its arms.
    fn switch(&mut self, tokens: u32, value: &Expression, ways: Ways) -> Result<NodeId, AllocError>
        ensures { IfOk result (λ n. Lays (nodes_of_switch tokens value.now (ranges_of (reverse ways.backward))) (arm_nodes (reverse ways.backward) ++ ways.otherwise ∷ []) self.old self.new (λ all. (j : NodeNumber) × OperandCode all value.now 0 n j × IsNode all j (remaining_of tokens (nodes value.now)) (Switch (operand_at 0 value.now) (reverse ways.backward) ways.otherwise))) }
    {
        let Ways {
            backward,
            otherwise,
        } = ways;
        let switch = NodeKind::Switch {
            value: operand_of(value, 0),
            arms: reversed(backward),
            otherwise,
        };
        let node = self.push(remaining(tokens, nodes_of(value)), switch)?;
        self.operand(value, 0, node)
    }
}
