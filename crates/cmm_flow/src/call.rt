//! Statements that leave their procedure, or wait at a call site.

ghost use Rattle.std.specs.Prelude.{[], ◌∷◌, IfOk};
ghost use Rattle.cmm_flow.specs.Statements.{CallCode, CutCode, JumpCode, ReturnCode, YieldCode};
ghost use Rattle.cmm_flow.specs.inside.Laying.{Lays, LaysAt};
ghost use Rattle.cmm_flow.specs.inside.Nodes.{nodes_of_call, nodes_of_cut, nodes_of_jump, nodes_of_passing, nodes_of_return, nodes_of_yield};
ghost use Rattle.cmm_flow.specs.inside.Passing.{PassingCode};

use crate::builder::Builder;
use crate::counts::{nodes_of, nodes_of_all, normal_tokens_at, remaining, sum};
use crate::expression::{arguments_of, operand_of, operands_of};
use crate::sites::continuations;
use cmm_graph::{NodeId, NodeKind, SiteId};
use cmm_program::{Expression, Proc};
use std::alloc::AllocError;

impl Builder {
    /// Lays the nodes of what is called, cut to or jumped to, and of what is passed.
    fn passing(
        &mut self,
        to: &Expression,
        actuals: &[Expression],
        next: NodeId,
    ) -> Result<NodeId, AllocError>
        ensures { IfOk result (λ n. Lays (nodes_of_passing to.now actuals.now) (next ∷ []) self.old self.new (λ nodes. PassingCode nodes to.now actuals.now n next)) }
    {
        let behind = self.operands(actuals, 1, next)?;
        self.operand(to, 0, behind)
    }

    /// Lays a call.
    pub fn call(
        &mut self,
        q: &Proc,
        tokens: u32,
        site: u32,
        callee: &Expression,
        actuals: &[Expression],
        next: NodeId,
    ) -> Result<NodeId, AllocError>
        ensures { IfOk result (λ n. LaysAt (site ∷ []) (nodes_of_call q.now tokens site callee.now actuals.now) (next ∷ []) [] self.old self.new (λ nodes. CallCode nodes q.now tokens site callee.now actuals.now n next)) }
    {
        let arguments = arguments_of(self.alloc, actuals, 1)?;
        let operands = sum(nodes_of(callee), nodes_of_all(actuals));
        let used = sum(operands, normal_tokens_at(q, site));
        let exits = self.exits_at(q, site, next)?;
        let call = NodeKind::Call {
            site: SiteId { number: site },
            callee: operand_of(callee, 0),
            arguments,
            exits,
        };
        let node = self.push(remaining(tokens, used), call)?;
        self.passing(callee, actuals, node)
    }

    /// Lays a yield.
    pub fn yields(
        &mut self,
        q: &Proc,
        tokens: u32,
        site: u32,
        values: &[Expression],
        next: NodeId,
    ) -> Result<NodeId, AllocError>
        ensures { IfOk result (λ n. LaysAt (site ∷ []) (nodes_of_yield q.now tokens site values.now) (next ∷ []) [] self.old self.new (λ nodes. YieldCode nodes q.now tokens site values.now n next)) }
    {
        let passed = operands_of(self.alloc, values, 0)?;
        let used = sum(nodes_of_all(values), normal_tokens_at(q, site));
        let exits = self.exits_at(q, site, next)?;
        let yields = NodeKind::Yield {
            site: SiteId { number: site },
            values: passed,
            exits,
        };
        let node = self.push(remaining(tokens, used), yields)?;
        self.operands(values, 0, node)
    }

    /// Lays a tail call.
    pub fn jump(
        &mut self,
        tokens: u32,
        callee: &Expression,
        actuals: &[Expression],
    ) -> Result<NodeId, AllocError>
        ensures { IfOk result (λ n. Lays (nodes_of_jump tokens callee.now actuals.now) [] self.old self.new (λ nodes. JumpCode nodes tokens callee.now actuals.now n)) }
    {
        let arguments = arguments_of(self.alloc, actuals, 1)?;
        let used = sum(nodes_of(callee), nodes_of_all(actuals));
        let jump = NodeKind::Jump {
            callee: operand_of(callee, 0),
            arguments,
        };
        let node = self.push(remaining(tokens, used), jump)?;
        self.passing(callee, actuals, node)
    }

    /// Lays a cut.
    pub fn cut(
        &mut self,
        tokens: u32,
        to: &Expression,
        values: &[Expression],
        own: &[u32],
    ) -> Result<NodeId, AllocError>
        ensures { IfOk result (λ n. Lays (nodes_of_cut tokens to.now values.now own.now) [] self.old self.new (λ nodes. CutCode nodes tokens to.now values.now own.now n)) }
    {
        let arguments = arguments_of(self.alloc, values, 1)?;
        let own = continuations(self.alloc, own)?;
        let used = sum(nodes_of(to), nodes_of_all(values));
        let cut = NodeKind::Cut {
            to: operand_of(to, 0),
            arguments,
            own,
        };
        let node = self.push(remaining(tokens, used), cut)?;
        self.passing(to, values, node)
    }

    /// Lays a return.
    pub fn returns(
        &mut self,
        tokens: u32,
        exit: u32,
        alternates: u32,
        values: &[Expression],
    ) -> Result<NodeId, AllocError>
        ensures { IfOk result (λ n. Lays (nodes_of_return tokens exit alternates values.now) [] self.old self.new (λ nodes. ReturnCode nodes tokens exit alternates values.now n)) }
    {
        let results = arguments_of(self.alloc, values, 0)?;
        let used = nodes_of_all(values);
        let returns = NodeKind::Return {
            exit,
            alternates,
            results,
        };
        let node = self.push(remaining(tokens, used), returns)?;
        self.operands(values, 0, node)
    }
}
