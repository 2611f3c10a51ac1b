//! The test whether a graph is in range.

ghost use Rattle.std.specs.Prelude.{◌≡◌, ◌↔◌, IsTrue};
ghost use Rattle.std.specs.List.{list_all};
ghost use Rattle.cmm_graph.specs.Ranges.{IsValid, are_exits, is_argument, is_arm, is_constant, is_continuation, is_copy_in, is_destination, is_entry, is_host, is_kind, is_local, is_node, is_normal, is_operand, is_rvalue, is_step, is_target, is_temporary, is_test, is_transfer, is_variable, leads_to};
ghost use Rattle.cmm_program.specs.Typing.{is_alignment};

use crate::graph::Graph;
use crate::node::{Arm, Exits, HostCall, Node, NodeKind};
use crate::number::{ContinuationId, NodeId, Temporary, Variable};
use crate::operand::{Argument, Comparison, Destination, Local, Operand, Rvalue};
use cmm_program::Target;

/// Whether words may be aligned to this number of bytes.
fn is_alignment(bytes: u32) -> bool
    ensures { result ≡ is_alignment bytes }
{
    matches!(bytes, 1 | 2 | 4 | 8 | 16)
}

impl NodeKind {
    /// Whether it is an Entry.
    fn is_entry(&self) -> bool
        ensures { result ≡ is_entry self.now }
    {
        matches!(self, NodeKind::Entry { .. })
    }

    /// Whether it is a CopyIn.
    fn is_copy_in(&self) -> bool
        ensures { result ≡ is_copy_in self.now }
    {
        matches!(self, NodeKind::CopyIn { .. })
    }

    /// Whether a run may stand at it: where a landing leads, it is done on arrival.
    fn is_step(&self) -> bool
        ensures { result ≡ is_step self.now }
    {
        !matches!(self, NodeKind::Entry { .. } | NodeKind::CopyIn { .. })
    }
}

impl Graph {
    /// Whether there is such a node, and it is an Entry.
    fn leads_to_entry(&self, node: NodeId) -> bool
        ensures { result ≡ leads_to self.now is_entry node }
    {
        match self.nodes.get(node.number as usize) {
            Some(found) => found.kind.is_entry(),
            None => false,
        }
    }

    /// Whether there is such a node, and it is a CopyIn.
    fn leads_to_copy_in(&self, node: NodeId) -> bool
        ensures { result ≡ leads_to self.now is_copy_in node }
    {
        match self.nodes.get(node.number as usize) {
            Some(found) => found.kind.is_copy_in(),
            None => false,
        }
    }

    /// Whether there is such a node, and a run may stand at it.
    fn leads_to_step(&self, node: NodeId) -> bool
        ensures { result ≡ leads_to self.now is_step node }
    {
        match self.nodes.get(node.number as usize) {
            Some(found) => found.kind.is_step(),
            None => false,
        }
    }

    fn has_variable(&self, variable: Variable) -> bool
        ensures { result ≡ is_variable self.now variable }
    {
        variable.number < self.variables
    }

    fn has_temporary(&self, temporary: Temporary) -> bool
        ensures { result ≡ is_temporary self.now temporary }
    {
        temporary.number < self.temporaries
    }

    fn has_local(&self, local: Local) -> bool
        ensures { result ≡ is_local self.now local }
    {
        match local {
            Local::Variable(variable) => self.has_variable(variable),
            Local::Temporary(temporary) => self.has_temporary(temporary),
        }
    }

    fn has_continuation(&self, continuation: ContinuationId) -> bool
        ensures { result ≡ is_continuation self.now continuation }
    {
        (continuation.number as usize) < self.continuations.len()
    }

    fn has_operand(&self, operand: Operand) -> bool
        ensures { result ≡ is_operand self.now operand }
    {
        match operand {
            Operand::Constant(constant) => constant.fits(),
            Operand::Local(local) => self.has_local(local),
            Operand::Stackdata(_) => true,
            Operand::Continuation(continuation) => self.has_continuation(continuation),
        }
    }

    fn has_operands(&self, operands: &[Operand]) -> bool
        ensures { result ≡ list_all (is_operand self.now) operands.now }
    {
        operands.iter().all(|operand| self.has_operand(*operand))
    }

    fn has_arguments(&self, arguments: &[Argument]) -> bool
        ensures { result ≡ list_all (is_argument self.now) arguments.now }
    {
        arguments
            .iter()
            .all(|argument| self.has_operand(argument.value))
    }

    fn has_test(&self, test: Comparison) -> bool
        ensures { result ≡ is_test self.now test }
    {
        self.has_operand(test.left) && self.has_operand(test.right)
    }

    fn has_rvalue(&self, value: Rvalue) -> bool
        ensures { result ≡ is_rvalue self.now value }
    {
        match value {
            Rvalue::Copy(operand) | Rvalue::Unary { operand, .. } => self.has_operand(operand),
            Rvalue::Register(_) => true,
            Rvalue::Load {
                aligned,
                address,
                ..
            } => is_alignment(aligned) && self.has_operand(address),
            Rvalue::Binary { left, right, .. } => self.has_operand(left) && self.has_operand(right),
            Rvalue::Compare(test) => self.has_test(test),
            Rvalue::SignExtend { from, to, operand } => {
                from.bits() <= to.bits() && self.has_operand(operand)
            }
            Rvalue::LowBits { from, to, operand } => {
                to.bits() <= from.bits() && self.has_operand(operand)
            }
        }
    }

    fn has_target(&self, target: Target) -> bool
        ensures { result ≡ is_target self.now target }
    {
        match target {
            Target::Variable(number, _) => number < self.variables,
            Target::Register(..) => true,
        }
    }

    fn has_destination(&self, destination: Destination) -> bool
        ensures { result ≡ is_destination self.now destination }
    {
        match destination {
            Destination::Target(target) => self.has_target(target),
            Destination::Temporary(temporary) => self.has_temporary(temporary),
        }
    }

    fn has_continuations(&self, continuations: &[ContinuationId]) -> bool
        ensures { result ≡ list_all (is_continuation self.now) continuations.now }
    {
        continuations
            .iter()
            .all(|continuation| self.has_continuation(*continuation))
    }

    /// Whether a normal exit, if there is one, leads to a CopyIn.
    fn has_normal(&self, normal: Option<NodeId>) -> bool
        ensures { result ≡ is_normal self.now normal }
    {
        match normal {
            Some(node) => self.leads_to_copy_in(node),
            None => true,
        }
    }

    fn has_exits(&self, exits: &Exits) -> bool
        ensures { result ≡ are_exits self.now exits.now }
    {
        self.has_normal(exits.normal)
            && self.has_continuations(exits.returns.as_slice())
            && self.has_continuations(exits.unwinds.as_slice())
            && self.has_continuations(exits.cuts.as_slice())
    }

    fn has_host_call(&self, call: HostCall) -> bool
        ensures { result ≡ is_host self.now call }
    {
        match call {
            HostCall::PutByte(value) => self.has_operand(value),
            HostCall::GetByte(to) => self.has_target(to),
        }
    }

    fn has_formals(&self, formals: &[Variable]) -> bool
        ensures { result ≡ list_all (is_variable self.now) formals.now }
    {
        formals.iter().all(|formal| self.has_variable(*formal))
    }

    fn has_targets(&self, targets: &[Target]) -> bool
        ensures { result ≡ list_all (is_target self.now) targets.now }
    {
        targets.iter().all(|target| self.has_target(*target))
    }

    fn has_arms(&self, arms: &[Arm]) -> bool
        ensures { result ≡ list_all (is_arm self.now) arms.now }
    {
        arms.iter().all(|arm| self.leads_to_step(arm.to))
    }

    /// Whether what a node names is there, where it leaves its procedure or waits at a site.
    fn has_transfer(&self, kind: &NodeKind) -> bool
        ensures { result ≡ is_transfer self.now kind.now }
    {
        match kind {
            NodeKind::Call {
                callee,
                arguments,
                exits,
                ..
            } => {
                self.has_operand(*callee)
                    && self.has_arguments(arguments.as_slice())
                    && self.has_exits(exits.get())
            }
            NodeKind::Yield { values, exits, .. } => {
                self.has_operands(values.as_slice()) && self.has_exits(exits.get())
            }
            NodeKind::Jump { callee, arguments } => {
                self.has_operand(*callee) && self.has_arguments(arguments.as_slice())
            }
            NodeKind::Cut { to, arguments, own } => {
                self.has_operand(*to)
                    && self.has_arguments(arguments.as_slice())
                    && self.has_continuations(own.as_slice())
            }
            NodeKind::Return {
                exit,
                alternates,
                results,
            } => exit <= alternates && self.has_arguments(results.as_slice()),
            _ => true,
        }
    }

    /// Whether what a node names is there, and it leads to nodes where a run may stand.
    fn has_kind(&self, kind: &NodeKind) -> bool
        ensures { result ≡ is_kind self.now kind.now }
    {
        match kind {
            NodeKind::Entry { formals, next } => {
                self.has_formals(formals.as_slice()) && self.leads_to_step(*next)
            }
            NodeKind::CopyIn { to, next } => {
                self.has_targets(to.as_slice()) && self.leads_to_step(*next)
            }
            NodeKind::Assign { to, value, next } => {
                self.has_destination(*to) && self.has_rvalue(*value) && self.leads_to_step(*next)
            }
            NodeKind::Store {
                aligned,
                address,
                value,
                next,
                ..
            } => {
                is_alignment(*aligned)
                    && self.has_operand(*address)
                    && self.has_operand(*value)
                    && self.leads_to_step(*next)
            }
            NodeKind::Branch {
                test,
                then,
                otherwise,
            } => {
                self.has_test(*test) && self.leads_to_step(*then) && self.leads_to_step(*otherwise)
            }
            NodeKind::Switch {
                value,
                arms,
                otherwise,
            } => {
                self.has_operand(*value)
                    && self.has_arms(arms.as_slice())
                    && self.leads_to_step(*otherwise)
            }
            NodeKind::Host { call, next } => {
                self.has_host_call(*call) && self.leads_to_step(*next)
            }
            NodeKind::Goto { next } => self.leads_to_step(*next),
            _ => self.has_transfer(kind),
        }
    }

    /// Whether a node has a token and is in range.
    fn has_node(&self, node: &Node) -> bool
        ensures { result ≡ is_node self.now node.now }
    {
        node.tokens > 0 && self.has_kind(&node.kind)
    }

    fn has_nodes(&self) -> bool
        ensures { result ≡ list_all (is_node self.now) self.now.nodes }
    {
        self.nodes.iter().all(|node| self.has_node(node))
    }

    /// Whether each continuation is landed at in a CopyIn.
    fn has_landings(&self) -> bool
        ensures { result ≡ list_all (leads_to self.now is_copy_in) self.now.continuations }
    {
        self.continuations
            .iter()
            .all(|node| self.leads_to_copy_in(*node))
    }

    /// Whether the graph begins at an Entry, each node has a token, each number names what the graph has, nodes lead to
    /// nodes where a run may stand, and exits and continuations to a CopyIn. Stackdata, sites, global registers and what
    /// constants name are those of its program, and are not looked at.
    pub fn valid(&self) -> bool
        ensures { IsTrue result ↔ IsValid self.now }
    {
        self.leads_to_entry(self.first) && self.has_nodes() && self.has_landings()
    }
}
