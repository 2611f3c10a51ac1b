//! Where the nodes of a graph lead, and which locals they read and write. Each answer is a list of its own, and each error is
//! want of memory.

ghost use Rattle.std.specs.Prelude.{◌≡◌, [], ◌∷◌, ◌++◌, flat_map, map, OnOk, IfOk};
ghost use Rattle.cmm_graph.specs.Paths.{arm_nodes, exit_nodes, if_there, landings, operands, operands_of_host, operands_of_rvalue, read_by, reads, successors, values_of, writes, written_by_host, written_by_variable, written_to, written_to_destination};

use crate::graph::Graph;
use crate::node::{Arm, Exits, HostCall, NodeKind};
use crate::number::{ContinuationId, NodeId, Variable};
use crate::operand::{Argument, Destination, Local, Operand, Rvalue};
use cmm_items::Items;
use cmm_program::Target;
use std::alloc::{AllocError, Global};

impl Graph {
    /// Adds the CopyIn of each of some continuations.
    fn push_landings(
        &self,
        continuations: &[ContinuationId],
        to: &mut Items<NodeId>,
    ) -> Result<(), AllocError>
        ensures { OnOk result (to.new ≡ to.old ++ landings self.now continuations.now) }
    {
        for continuation in continuations {
            if let Some(node) = self.continuations.get(continuation.number as usize) {
                to.push(*node)?;
            }
        }
        Ok(())
    }

    /// The nodes to which the exits of a site lead.
    fn exit_nodes(&self, exits: &Exits, alloc: Global) -> Result<Items<NodeId>, AllocError>
        ensures { IfOk result (λ found. found ≡ exit_nodes self.now exits.now) }
    {
        let mut nodes = Items::new(alloc);
        if let Some(node) = exits.normal {
            nodes.push(node)?;
        }
        self.push_landings(exits.returns.as_slice(), &mut nodes)?;
        self.push_landings(exits.unwinds.as_slice(), &mut nodes)?;
        self.push_landings(exits.cuts.as_slice(), &mut nodes)?;
        Ok(nodes)
    }

    /// The nodes to which a path goes from a node of this kind.
    pub fn successors(&self, kind: &NodeKind, alloc: Global) -> Result<Items<NodeId>, AllocError>
        ensures { IfOk result (λ found. found ≡ successors self.now kind.now) }
    {
        match kind {
            NodeKind::Entry { next, .. }
            | NodeKind::CopyIn { next, .. }
            | NodeKind::Assign { next, .. }
            | NodeKind::Store { next, .. }
            | NodeKind::Host { next, .. }
            | NodeKind::Goto { next } => one(alloc, *next),
            NodeKind::Branch {
                then,
                otherwise,
                ..
            } => two(alloc, *then, *otherwise),
            NodeKind::Switch {
                arms,
                otherwise,
                ..
            } => switch_nodes(arms.as_slice(), *otherwise, alloc),
            NodeKind::Call { exits, .. } | NodeKind::Yield { exits, .. } => {
                self.exit_nodes(exits.get(), alloc)
            }
            NodeKind::Cut { own, .. } => self.landings(own.as_slice(), alloc),
            NodeKind::Jump { .. } | NodeKind::Return { .. } | NodeKind::Stop => Ok(Items::new(
                alloc,
            )),
        }
    }

    /// The CopyIn of each of some continuations.
    fn landings(
        &self,
        continuations: &[ContinuationId],
        alloc: Global,
    ) -> Result<Items<NodeId>, AllocError>
        ensures { IfOk result (λ found. found ≡ landings self.now continuations.now) }
    {
        let mut nodes = Items::new(alloc);
        self.push_landings(continuations, &mut nodes)?;
        Ok(nodes)
    }
}

/// A list of one.
fn one<T: Drop>(alloc: Global, item: T) -> Result<Items<T>, AllocError>
    ensures { IfOk result (λ items. items ≡ item ∷ []) }
{
    let mut items = Items::new(alloc);
    items.push(item)?;
    Ok(items)
}

/// A list of two.
fn two<T: Drop>(alloc: Global, first: T, second: T) -> Result<Items<T>, AllocError>
    ensures { IfOk result (λ items. items ≡ first ∷ second ∷ []) }
{
    let mut items = Items::new(alloc);
    items.push(first)?;
    items.push(second)?;
    Ok(items)
}

/// The nodes of a switch.
fn switch_nodes(arms: &[Arm], otherwise: NodeId, alloc: Global) -> Result<Items<NodeId>, AllocError>
    ensures { IfOk result (λ found. found ≡ arm_nodes arms.now ++ otherwise ∷ []) }
{
    let mut nodes = Items::new(alloc);
    for arm in arms {
        nodes.push(arm.to)?;
    }
    nodes.push(otherwise)?;
    Ok(nodes)
}

/// Adds what some arguments are.
fn push_values(arguments: &[Argument], to: &mut Items<Operand>) -> Result<(), AllocError>
    ensures { OnOk result (to.new ≡ to.old ++ values_of arguments.now) }
{
    for argument in arguments {
        to.push(argument.value)?;
    }
    Ok(())
}

/// An operand, and what some arguments are.
fn operand_and_values(
    operand: Operand,
    arguments: &[Argument],
    alloc: Global,
) -> Result<Items<Operand>, AllocError>
    ensures { IfOk result (λ found. found ≡ operand ∷ values_of arguments.now) }
{
    let mut operands = one(alloc, operand)?;
    push_values(arguments, &mut operands)?;
    Ok(operands)
}

/// What some arguments are.
fn values_of(arguments: &[Argument], alloc: Global) -> Result<Items<Operand>, AllocError>
    ensures { IfOk result (λ found. found ≡ values_of arguments.now) }
{
    let mut operands = Items::new(alloc);
    push_values(arguments, &mut operands)?;
    Ok(operands)
}

impl Rvalue {
    fn operands(self, alloc: Global) -> Result<Items<Operand>, AllocError>
        ensures { IfOk result (λ found. found ≡ operands_of_rvalue self) }
    {
        match self {
            Rvalue::Copy(operand)
            | Rvalue::Load {
                address: operand,
                ..
            }
            | Rvalue::Unary { operand, .. }
            | Rvalue::SignExtend { operand, .. }
            | Rvalue::LowBits { operand, .. } => one(alloc, operand),
            Rvalue::Register(_) => Ok(Items::new(alloc)),
            Rvalue::Binary { left, right, .. } => two(alloc, left, right),
            Rvalue::Compare(test) => two(alloc, test.left, test.right),
        }
    }
}

/// A list of nothing or of one variable, where a target is one.
fn written_to(target: Target, alloc: Global) -> Result<Items<Local>, AllocError>
    ensures { IfOk result (λ found. found ≡ written_to target) }
{
    match target {
        Target::Variable(number, _) => one(alloc, Local::Variable(Variable { number })),
        Target::Register(..) => Ok(Items::new(alloc)),
    }
}

/// The variables among some targets.
fn written_to_all(targets: &[Target], alloc: Global) -> Result<Items<Local>, AllocError>
    ensures { IfOk result (λ found. found ≡ flat_map written_to targets.now) }
{
    let mut locals = Items::new(alloc);
    for target in targets {
        if let Target::Variable(number, _) = *target {
            locals.push(Local::Variable(Variable { number }))?;
        }
    }
    Ok(locals)
}

/// Some formals, as locals.
fn formals_written(formals: &[Variable], alloc: Global) -> Result<Items<Local>, AllocError>
    ensures { IfOk result (λ found. found ≡ flat_map written_by_variable formals.now) }
{
    let mut locals = Items::new(alloc);
    for formal in formals {
        locals.push(Local::Variable(*formal))?;
    }
    Ok(locals)
}

/// Adds the local that an operand reads, if it is one.
fn push_read(operand: Operand, to: &mut Items<Local>) -> Result<(), AllocError>
    ensures { OnOk result (to.new ≡ to.old ++ read_by operand) }
{
    if let Operand::Local(local) = operand {
        to.push(local)?;
    }
    Ok(())
}

impl NodeKind {
    /// The operands of a node.
    pub fn operands(&self, alloc: Global) -> Result<Items<Operand>, AllocError>
        ensures { IfOk result (λ found. found ≡ operands self.now) }
    {
        match self {
            NodeKind::Assign { value, .. } => value.operands(alloc),
            NodeKind::Store { address, value, .. } => two(alloc, *address, *value),
            NodeKind::Branch { test, .. } => two(alloc, test.left, test.right),
            NodeKind::Switch { value, .. } => one(alloc, *value),
            NodeKind::Call {
                callee,
                arguments,
                ..
            }
            | NodeKind::Jump { callee, arguments } => {
                operand_and_values(*callee, arguments.as_slice(), alloc)
            }
            NodeKind::Cut { to, arguments, .. } => {
                operand_and_values(*to, arguments.as_slice(), alloc)
            }
            NodeKind::Yield { values, .. } => Items::from_slice(alloc, values.as_slice()),
            NodeKind::Return { results, .. } => values_of(results.as_slice(), alloc),
            NodeKind::Host {
                call: HostCall::PutByte(value),
                ..
            } => one(alloc, *value),
            _ => Ok(Items::new(alloc)),
        }
    }

    /// The locals that a node reads.
    pub fn reads(&self, alloc: Global) -> Result<Items<Local>, AllocError>
        ensures { IfOk result (λ found. found ≡ reads self.now) }
    {
        let operands = self.operands(alloc)?;
        let mut locals = Items::new(alloc);
        for operand in operands.as_slice() {
            push_read(*operand, &mut locals)?;
        }
        Ok(locals)
    }

    /// The locals that a node writes. That a variable is 0 behind the Entry counts as no write.
    pub fn writes(&self, alloc: Global) -> Result<Items<Local>, AllocError>
        ensures { IfOk result (λ found. found ≡ writes self.now) }
    {
        match self {
            NodeKind::Entry { formals, .. } => formals_written(formals.as_slice(), alloc),
            NodeKind::CopyIn { to, .. } => written_to_all(to.as_slice(), alloc),
            NodeKind::Assign { to, .. } => match *to {
                Destination::Target(target) => written_to(target, alloc),
                Destination::Temporary(temporary) => one(alloc, Local::Temporary(temporary)),
            },
            NodeKind::Host {
                call: HostCall::GetByte(to),
                ..
            } => written_to(*to, alloc),
            _ => Ok(Items::new(alloc)),
        }
    }
}
