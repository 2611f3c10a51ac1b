//! Statements without blocks, labels and continuations.

ghost use Rattle.std.specs.Prelude.{◌≡◌, ℕ, ◌∷◌, [], true, IfOk};
ghost use Rattle.cmm_program.specs.Numbering.{site_number};
ghost use Rattle.cmm_graph.specs.declared.node.HostCall.TheVariants.{PutByte, GetByte};
ghost use Rattle.cmm_graph.specs.declared.number.NodeId.{NodeId as NodeNumber};
ghost use Rattle.cmm_flow.specs.Statements.{FormCode};
ghost use Rattle.cmm_flow.specs.inside.Blocks.{PutCode, is_simple};
ghost use Rattle.cmm_flow.specs.inside.Laying.{Lays, LaysAt};
ghost use Rattle.cmm_flow.specs.inside.Nodes.{nodes_of_form, nodes_of_put};

use crate::builder::Builder;
use crate::expression::operand_of;
use cmm_graph::{HostCall, NodeId, NodeKind};
use cmm_program::{Expression, Form, Proc};
use std::alloc::AllocError;

impl Builder {
    /// Lays the output of a byte.
    fn put_byte(&mut self, value: &Expression, next: NodeId) -> Result<NodeId, AllocError>
        ensures { IfOk result (λ n. Lays (nodes_of_put value.now) (next ∷ []) self.old self.new (λ nodes. PutCode nodes value.now n next)) }
    {
        let call = HostCall::PutByte(operand_of(value, 0));
        let node = self.push(1, NodeKind::Host { call, next })?;
        self.operand(value, 0, node)
    }

    /// Lays such a statement in front of the node `next`, and answers its first node.
    pub fn simple(
        &mut self,
        q: &Proc,
        tokens: u32,
        form: &Form,
        next: NodeId,
    ) -> Result<NodeId, AllocError>
        requires { is_simple form.now ≡ true }
        ensures { IfOk result (λ n. LaysAt (site_number form.now) (nodes_of_form q.now tokens form.now) (next ∷ []) [] self.old self.new (λ nodes. (label_node : ℕ → NodeNumber) → FormCode q.now nodes label_node tokens form.now n next)) }
    {
        match form {
            Form::Assign { to, values } => self.assign(to.as_slice(), values.as_slice(), next),
            Form::Call {
                site,
                callee,
                actuals,
            } => self.call(q, tokens, *site, callee, actuals.as_slice(), next),
            Form::Yield { site, values } => self.yields(q, tokens, *site, values.as_slice(), next),
            Form::Checked {
                site,
                operator,
                width,
                left,
                right,
            } => self.checked(q, tokens, *site, *operator, *width, left, right, next),
            Form::PutByte(value) => self.put_byte(value, next),
            Form::GetByte(target) => {
                let call = HostCall::GetByte(*target);
                self.push(1, NodeKind::Host { call, next })
            }
            Form::Jump { callee, actuals } => self.jump(tokens, callee, actuals.as_slice()),
            Form::Return {
                exit,
                alternates,
                values,
            } => self.returns(tokens, *exit, *alternates, values.as_slice()),
            Form::Cut { to, values, own } => {
                self.cut(tokens, to, values.as_slice(), own.as_slice())
            }
            _ => unreachable!(),
        }
    }
}
