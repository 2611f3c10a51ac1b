//! Conditions, as branches.

ghost use Rattle.std.specs.Prelude.{◌++◌, ◌∷◌, [], IfOk};
ghost use Rattle.cmm_flow.specs.Code.{CompareCode, TestCode};
ghost use Rattle.cmm_flow.specs.inside.Laying.{Lays};
ghost use Rattle.cmm_flow.specs.inside.Nodes.{branch as branch_of, nodes_of_test, nodes_of_two};
ghost use Rattle.cmm_flow.specs.inside.Parts.{TwoCode};

use crate::builder::Builder;
use crate::expression::operand_of;
use cmm_graph::{Comparison, NodeId, NodeKind};
use cmm_program::{Condition, Expression};
use cmm_words::{Cmp, Width};
use std::alloc::AllocError;

impl Builder {
    /// Lays two expressions, which leave their values in the temporaries 0 and 1.
    pub fn two(
        &mut self,
        left: &Expression,
        right: &Expression,
        next: NodeId,
    ) -> Result<NodeId, AllocError>
        ensures { IfOk result (λ n. Lays (nodes_of_two left.now right.now) (next ∷ []) self.old self.new (λ nodes. TwoCode nodes left.now right.now n next)) }
    {
        let behind = self.operand(right, 1, next)?;
        self.operand(left, 0, behind)
    }

    /// Lays a comparison.
    fn compare(
        &mut self,
        operator: Cmp,
        width: Width,
        left: &Expression,
        right: &Expression,
        then: NodeId,
        otherwise: NodeId,
    ) -> Result<NodeId, AllocError>
        ensures { IfOk result (λ n. Lays (nodes_of_two left.now right.now ++ branch_of operator width left.now right.now ∷ []) (then ∷ otherwise ∷ []) self.old self.new (λ nodes. CompareCode nodes operator width left.now right.now n then otherwise)) }
    {
        let test = Comparison {
            operator,
            width,
            left: operand_of(left, 0),
            right: operand_of(right, 1),
        };
        let branch = self.push(
            1,
            NodeKind::Branch {
                test,
                then,
                otherwise,
            },
        )?;
        self.two(left, right, branch)
    }

    /// Lays the nodes that lead to `then` where a condition holds, and to `otherwise` where it does not. Where its first part
    /// decides it, the second is passed over.
    pub fn test(
        &mut self,
        c: &Condition,
        then: NodeId,
        otherwise: NodeId,
    ) -> Result<NodeId, AllocError>
        ensures { IfOk result (λ n. Lays (nodes_of_test c.now) (then ∷ otherwise ∷ []) self.old self.new (λ nodes. TestCode nodes c.now n then otherwise)) }
    {
        match c {
            Condition::Compare(operator, width, left, right) => self.compare(
                *operator,
                *width,
                left.get(),
                right.get(),
                then,
                otherwise,
            ),
            Condition::Not(inner) => self.test(inner.get(), otherwise, then),
            Condition::Both(left, right) => {
                let second = self.test(right.get(), then, otherwise)?;
                self.test(left.get(), second, otherwise)
            }
            Condition::Either(left, right) => {
                let second = self.test(right.get(), then, otherwise)?;
                self.test(left.get(), then, second)
            }
        }
    }
}
