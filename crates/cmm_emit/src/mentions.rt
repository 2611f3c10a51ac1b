//! What nodes name by symbols: global registers, data labels and procedures.

ghost use Rattle.std.specs.Prelude.{◌≡◌, [], ◌<◌, ◌^◌, ◌||◌, true, length, slice_set, IfOk};
ghost use Rattle.std.specs.List.{list_any};
ghost use Rattle.cmm_graph.specs.Paths.{operands_of_rvalue, values_of};
ghost use Rattle.cmm_emit.specs.Mentions.{AddsNamed, AreMentioned, assignment_names, constant_names, graph_names, host_names, kind_names, operand_names, read_names, target_names};

use cmm_bitset::BitSet;
use cmm_graph::{Argument, Comparison, Destination, Graph, HostCall, NodeKind, Operand, Rvalue};
use cmm_program::{Program, Target};
use cmm_words::Constant;
use std::alloc::{AllocError, Global};

/// What is named of a program, each a set of numbers.
pub struct Mentions {
    /// Global registers.
    pub registers: BitSet,
    /// Data labels.
    pub labels: BitSet,
    /// Procedures.
    pub procedures: BitSet,
}

/// In one place, so that whoever lets one go has one call to prove.
impl Drop for Mentions {
    fn drop(self) {
        let Self {
            registers: _,
            labels: _,
            procedures: _,
        } = self;
    }
}

/// Makes a number a member of a set that has room for it.
fn insert(set: &mut BitSet, number: u32)
    ensures { set.new ≡ slice_set set.old number true }
{
    if number < set.size() {
        set.insert(number);
    }
}

impl Mentions {
    fn add_constant(&mut self, constant: Constant)
        ensures { AddsNamed (λ r. constant_names r constant) self.old self.new }
    {
        match constant {
            Constant::Number(..) => (),
            Constant::Code { proc, .. } => insert(&mut self.procedures, proc),
            Constant::Address { label, .. } => insert(&mut self.labels, label),
        }
    }

    fn add_operand(&mut self, operand: Operand)
        ensures { AddsNamed (λ r. operand_names r operand) self.old self.new }
    {
        if let Operand::Constant(constant) = operand {
            self.add_constant(constant);
        }
    }

    fn add_both(&mut self, first: Operand, second: Operand)
        ensures { AddsNamed (λ r. operand_names r first || operand_names r second) self.old self.new }
    {
        self.add_operand(first);
        self.add_operand(second);
    }

    fn add_operands(&mut self, operands: &[Operand])
        ensures { AddsNamed (λ r. list_any (operand_names r) operands.now) self.old self.new }
    {
        for operand in operands {
            self.add_operand(*operand);
        }
    }

    fn add_arguments(&mut self, arguments: &[Argument])
        ensures { AddsNamed (λ r. list_any (operand_names r) (values_of arguments.now)) self.old self.new }
    {
        for argument in arguments {
            self.add_operand(argument.value);
        }
    }

    fn add_target(&mut self, target: Target)
        ensures { AddsNamed (λ r. target_names r target) self.old self.new }
    {
        if let Target::Register(number, _) = target {
            insert(&mut self.registers, number);
        }
    }

    fn add_targets(&mut self, targets: &[Target])
        ensures { AddsNamed (λ r. list_any (target_names r) targets.now) self.old self.new }
    {
        for target in targets {
            self.add_target(*target);
        }
    }

    fn add_rvalue(&mut self, value: Rvalue)
        ensures { AddsNamed (λ r. list_any (operand_names r) (operands_of_rvalue value) || read_names r value) self.old self.new }
    {
        match value {
            Rvalue::Register(register) => insert(&mut self.registers, register.number),
            Rvalue::Binary { left, right, .. } | Rvalue::Compare(Comparison { left, right, .. }) =>
                { self.add_both(left, right) }
            Rvalue::Copy(operand)
            | Rvalue::Load {
                address: operand,
                ..
            }
            | Rvalue::Unary { operand, .. }
            | Rvalue::SignExtend { operand, .. }
            | Rvalue::LowBits { operand, .. } => self.add_operand(operand),
        }
    }

    /// Adds what goes to another procedure, and where.
    fn add_transfer(&mut self, to: Operand, arguments: &[Argument])
        ensures { AddsNamed (λ r. operand_names r to || list_any (operand_names r) (values_of arguments.now)) self.old self.new }
    {
        self.add_operand(to);
        self.add_arguments(arguments);
    }

    fn add_assignment(&mut self, to: Destination, value: Rvalue)
        ensures { AddsNamed (λ r. assignment_names r to value) self.old self.new }
    {
        self.add_rvalue(value);
        if let Destination::Target(target) = to {
            self.add_target(target);
        }
    }

    fn add_host(&mut self, call: HostCall)
        ensures { AddsNamed (λ r. host_names r call) self.old self.new }
    {
        match call {
            HostCall::PutByte(value) => self.add_operand(value),
            HostCall::GetByte(to) => self.add_target(to),
        }
    }

    fn add_kind(&mut self, kind: &NodeKind)
        ensures { AddsNamed (λ r. kind_names r kind.now) self.old self.new }
    {
        match kind {
            NodeKind::CopyIn { to, .. } => self.add_targets(to.as_slice()),
            NodeKind::Assign { to, value, .. } => self.add_assignment(*to, *value),
            NodeKind::Store { address, value, .. } => self.add_both(*address, *value),
            NodeKind::Branch { test, .. } => self.add_both(test.left, test.right),
            NodeKind::Switch { value, .. } => self.add_operand(*value),
            NodeKind::Call {
                callee,
                arguments,
                ..
            }
            | NodeKind::Jump { callee, arguments } => {
                self.add_transfer(*callee, arguments.as_slice())
            }
            NodeKind::Cut { to, arguments, .. } => self.add_transfer(*to, arguments.as_slice()),
            NodeKind::Yield { values, .. } => self.add_operands(values.as_slice()),
            NodeKind::Return { results, .. } => self.add_arguments(results.as_slice()),
            NodeKind::Host { call, .. } => self.add_host(*call),
            NodeKind::Entry { .. } | NodeKind::Goto { .. } | NodeKind::Stop => (),
        }
    }

    fn add_graph(&mut self, graph: &Graph)
        ensures { AddsNamed (λ r. graph_names r graph.now) self.old self.new }
    {
        for node in graph.nodes.as_slice() {
            self.add_kind(&node.kind);
        }
    }
}

/// Sets with room for what a program has, and nothing in them. An error is want of memory.
fn nothing(alloc: Global, program: &Program) -> Result<Mentions, AllocError>
    requires globals { length program.now.globals < 2 ^ 32 }
    requires labels { length program.now.labels < 2 ^ 32 }
    requires procedures { length program.now.procs < 2 ^ 32 }
    ensures { IfOk result (AreMentioned program.now []) }
{
    Ok(Mentions {
        registers: BitSet::new(alloc, program.globals.len() as u32)?,
        labels: BitSet::new(alloc, program.labels.len() as u32)?,
        procedures: BitSet::new(alloc, program.procs.len() as u32)?,
    })
}

/// What graphs of a program name. An error is want of memory.
pub fn mentions_of(
    alloc: Global,
    program: &Program,
    graphs: &[Graph],
) -> Result<Mentions, AllocError>
    requires globals { length program.now.globals < 2 ^ 32 }
    requires labels { length program.now.labels < 2 ^ 32 }
    requires procedures { length program.now.procs < 2 ^ 32 }
    ensures { IfOk result (AreMentioned program.now graphs.now) }
{
    let mut found = nothing(alloc, program)?;
    for graph in graphs {
        found.add_graph(graph);
    }
    Ok(found)
}
