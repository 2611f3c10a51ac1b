//! Divisions that yield where their divisor is 0.

ghost use Rattle.std.specs.Prelude.{◌≡◌, ◌+◌, ◌∷◌, [], ℕ, IfOk};
ghost use Rattle.cmm_program.specs.Todo.{site_results};
ghost use Rattle.cmm_words.specs.Words.{is_division as is_division_of};
ghost use Rattle.cmm_graph.specs.declared.node.NodeKind.TheVariants.{Assign};
ghost use Rattle.cmm_graph.specs.declared.operand.Rvalue.TheVariants.{Binary};
ghost use Rattle.cmm_flow.specs.Code.{IsNode};
ghost use Rattle.cmm_graph.specs.Covering.{operator_tokens as operator_tokens_of};
ghost use Rattle.cmm_flow.specs.Operands.{operand_of as operand_at};
ghost use Rattle.cmm_flow.specs.Statements.{CheckedCode, ZeroCode, first_result as first_of, operator_nodes as operator_nodes_of};
ghost use Rattle.cmm_flow.specs.inside.Counts.{capped};
ghost use Rattle.cmm_flow.specs.inside.Laying.{Lays, LaysAt};
ghost use Rattle.cmm_flow.specs.inside.Nodes.{division as division_of, nodes_of_checked, nodes_of_guard, nodes_of_guard_if, nodes_of_yield_one};
ghost use Rattle.cmm_flow.specs.inside.Passing.{GuardCode, YieldOne};

use crate::builder::Builder;
use crate::counts::{normal_tokens_at, operator_nodes, remaining, sum, tokens_of_operator};
use crate::expression::operand_of;
use crate::sites::first_result;
use cmm_graph::{Comparison, NodeId, NodeKind, Operand, Rvalue, SiteId};
use cmm_items::Items;
use cmm_program::{Expression, Proc};
use cmm_words::{Cmp, Constant, Op2, Width};
use std::alloc::{AllocError, Global};

/// Whether an operator has no value for a divisor of 0.
fn is_division(operator: Op2) -> bool
    ensures { result ≡ is_division_of operator }
{
    matches!(
        operator,
        Op2::Divu | Op2::Modu | Op2::Div | Op2::Mod | Op2::Quot | Op2::Rem
    )
}

/// The number 1, alone.
fn one(alloc: Global) -> Result<Items<Operand>, AllocError>
    ensures { IfOk result (λ values. values ≡ Operand.Constant (Constant.Number 1 Width.W64) ∷ []) }
{
    let mut values = Items::new(alloc);
    values.push(Operand::Constant(Constant::Number(1, Width::W64)))?;
    Ok(values)
}

impl Builder {
    /// Lays the yield of the number 1 at a site.
    fn yield_one(
        &mut self,
        q: &Proc,
        tokens: u32,
        site: u32,
        next: NodeId,
    ) -> Result<NodeId, AllocError>
        ensures { IfOk result (λ n. LaysAt (site ∷ []) (nodes_of_yield_one q.now tokens site) (next ∷ []) [] self.old self.new (λ nodes. YieldOne nodes q.now tokens site n next)) }
    {
        let values = one(self.alloc)?;
        let exits = self.exits_at(q, site, next)?;
        let yields = NodeKind::Yield {
            site: SiteId { number: site },
            values,
            exits,
        };
        self.push(tokens, yields)
    }

    /// Lays the division itself, whose operands are at the bases 0 and 1.
    fn division(
        &mut self,
        q: &Proc,
        site: u32,
        operator: Op2,
        width: Width,
        left: &Expression,
        right: &Expression,
        next: NodeId,
    ) -> Result<NodeId, AllocError>
        ensures { IfOk result (λ n. Lays (division_of q.now site operator width left.now right.now ∷ []) (next ∷ []) self.old self.new (λ nodes. IsNode nodes n (operator_tokens_of width (operand_at 0 left.now) (operand_at 1 right.now)) (Assign (first_of (site_results q.now site)) (Binary operator width (operand_at 0 left.now) (operand_at 1 right.now)) next))) }
    {
        let value = Rvalue::Binary {
            operator,
            width,
            left: operand_of(left, 0),
            right: operand_of(right, 1),
        };
        let to = first_result(q, site);
        self.push(
            tokens_of_operator(width, left, right),
            NodeKind::Assign { to, value, next },
        )
    }

    /// Lays the test of a divisor, in front of a division.
    fn guard(
        &mut self,
        q: &Proc,
        tokens: u32,
        used: u32,
        site: u32,
        width: Width,
        divisor: &Expression,
        division: NodeId,
        next: NodeId,
    ) -> Result<NodeId, AllocError>
        ensures { IfOk result (λ n. (count : ℕ) → used ≡ capped count → LaysAt (site ∷ []) (nodes_of_guard q.now tokens count site width divisor.now) (division ∷ next ∷ []) [] self.old self.new (λ nodes. ZeroCode nodes q.now tokens count site width divisor.now n division next)) }
    {
        let spent = sum(sum(used, 1), normal_tokens_at(q, site));
        let yields = self.yield_one(q, remaining(tokens, spent), site, next)?;
        let test = Comparison {
            operator: Cmp::Eq,
            width,
            left: operand_of(divisor, 1),
            right: Operand::Constant(Constant::Number(0, width)),
        };
        self.push(
            1,
            NodeKind::Branch {
                test,
                then: yields,
                otherwise: division,
            },
        )
    }

    /// The same where the operator has no value for 0.
    fn guard_if(
        &mut self,
        q: &Proc,
        tokens: u32,
        site: u32,
        operator: Op2,
        width: Width,
        left: &Expression,
        right: &Expression,
        division: NodeId,
        next: NodeId,
    ) -> Result<NodeId, AllocError>
        ensures { IfOk result (λ n. LaysAt (site ∷ []) (nodes_of_guard_if q.now tokens (operator_nodes_of width left.now right.now) site operator width right.now) (division ∷ next ∷ []) [] self.old self.new (λ nodes. GuardCode nodes q.now tokens (operator_nodes_of width left.now right.now) site operator width right.now n division next)) }
    {
        if is_division(operator) {
            let used = operator_nodes(width, left, right);
            self.guard(q, tokens, used, site, width, right, division, next)
        } else {
            Ok(division)
        }
    }

    /// Lays a division that yields where its divisor is 0.
    pub fn checked(
        &mut self,
        q: &Proc,
        tokens: u32,
        site: u32,
        operator: Op2,
        width: Width,
        left: &Expression,
        right: &Expression,
        next: NodeId,
    ) -> Result<NodeId, AllocError>
        ensures { IfOk result (λ n. LaysAt (site ∷ []) (nodes_of_checked q.now tokens site operator width left.now right.now) (next ∷ []) [] self.old self.new (λ nodes. CheckedCode nodes q.now tokens site operator width left.now right.now n next)) }
    {
        let division = self.division(q, site, operator, width, left, right, next)?;
        let first = self.guard_if(
            q, tokens, site, operator, width, left, right, division, next,
        )?;
        self.two(left, right, first)
    }
}
