//! Whole procedures.
//!
//! In front stand the nodes of labels and continuations, so that their numbers are known from the beginning: one Goto for
//! each label, one for all labels that the body lacks, and the CopyIn of each continuation. The Stop at the body's end
//! follows, and then what is laid.

ghost use Rattle.std.specs.Prelude.{◌≡◌, ◌++◌, IfOk, OnOk, map, replicate};
ghost use Rattle.std.specs.List.{AllZip, range_with_len};
ghost use Rattle.cmm_program.specs.Exits.{variable_width as width_of_variable};
ghost use Rattle.cmm_program.specs.declared.procedure.Target.TheVariants.{Variable as OfVariable};
ghost use Rattle.cmm_program.specs.InRange.{IsInRange};
ghost use Rattle.cmm_program.specs.State.{Setting};
ghost use Rattle.cmm_graph.specs.Counterpart.{AreGraphsOf};
ghost use Rattle.cmm_flow.specs.Flow.{AreCovered, IsBounded, IsFlow};
ghost use Rattle.cmm_flow.specs.Laws.{AreFlows};
ghost use Rattle.cmm_flow.specs.inside.Fronts.{IsFinished, IsNew, copy_in, copy_ins, goto_nodes};

use crate::builder::{Builder, as_number, following};
use crate::labels::labels_in;
use crate::temporaries::temporaries_of;
use cmm_graph::{Graph, Node, NodeId, NodeKind, Variable};
use cmm_items::Items;
use cmm_program::{Cont, Proc, Program, Target};
use cmm_words::Width;
use std::alloc::{AllocError, Global};

/// As many times the same node.
fn repeated(alloc: Global, node: NodeId, count: u32) -> Result<Items<NodeId>, AllocError>
    ensures { IfOk result (λ nodes. nodes ≡ replicate count node) }
{
    let mut nodes = Items::with_capacity(alloc, count as usize)?;
    for _ in 0..count {
        nodes.push(node)?;
    }
    Ok(nodes)
}

/// The numbers of `count` nodes, one behind the other.
fn nodes_from(alloc: Global, first: u32, count: u32) -> Result<Items<NodeId>, AllocError>
    ensures { IfOk result (λ nodes. map (λ n. n.number) nodes ≡ range_with_len first count) }
{
    let mut nodes = Items::with_capacity(alloc, count as usize)?;
    let mut number = first;
    for _ in 0..count {
        nodes.push(NodeId { number })?;
        number = following(number)?;
    }
    Ok(nodes)
}

/// The formals of a procedure, which are its first variables.
fn formals(alloc: Global, count: u32) -> Result<Items<Variable>, AllocError>
    ensures { IfOk result (λ formals. map (λ v. v.number) formals ≡ range_with_len 0 count) }
{
    let mut formals = Items::with_capacity(alloc, count as usize)?;
    for number in 0..count {
        formals.push(Variable { number })?;
    }
    Ok(formals)
}

/// The width of a variable.
fn variable_width(p: &Proc, variable: u32) -> Width
    ensures { result ≡ width_of_variable p.now variable }
{
    match p.vars.get(variable as usize) {
        Some(variable) => variable.width,
        None => Width::W64,
    }
}

/// What takes the values that are passed to a continuation.
fn parameters(alloc: Global, p: &Proc, params: &[u32]) -> Result<Items<Target>, AllocError>
    ensures { IfOk result (λ targets. targets ≡ map (λ n. OfVariable n (width_of_variable p.now n)) params.now) }
{
    let mut targets = Items::new(alloc);
    for variable in params {
        targets.push(Target::Variable(*variable, variable_width(p, *variable)))?;
    }
    Ok(targets)
}

/// Adds a Goto to each of some nodes.
fn add_gotos(to: &[NodeId], nodes: &mut Items<Node>) -> Result<(), AllocError>
    ensures { OnOk result (nodes.new ≡ nodes.old ++ goto_nodes to.now) }
{
    for next in to {
        let kind = NodeKind::Goto { next: *next };
        nodes.push(Node { tokens: 1, kind })?;
    }
    Ok(())
}

/// The CopyIn of a continuation, with a token and one for each parameter.
fn copy_in_of(
    alloc: Global,
    p: &Proc,
    continuation: &Cont,
    next: NodeId,
) -> Result<Node, AllocError>
    ensures { IfOk result (λ node. node ≡ copy_in p.now continuation.now next) }
{
    let params = continuation.params.as_slice();
    let to = parameters(alloc, p, params)?;
    let tokens = following(as_number(params.len())?)?;
    let kind = NodeKind::CopyIn { to, next };
    Ok(Node { tokens, kind })
}

/// Adds the CopyIn of each continuation.
fn add_copy_ins(
    alloc: Global,
    p: &Proc,
    to: &[NodeId],
    nodes: &mut Items<Node>,
) -> Result<(), AllocError>
    ensures { OnOk result (nodes.new ≡ nodes.old ++ copy_ins p.now to.now) }
{
    for (continuation, next) in p.conts.iter().zip(to) {
        nodes.push(copy_in_of(alloc, p, continuation, *next)?)?;
    }
    Ok(())
}

impl Builder {
    /// A builder of a body, where all labels and continuations lead to the end.
    fn of(alloc: Global, labels: u32, continuations: u32) -> Result<Builder, AllocError>
        ensures { IfOk result (λ b. IsNew labels continuations b) }
    {
        let first = following(labels)?;
        let Some(number) = first.checked_add(continuations) else {
            return Err(AllocError);
        };
        let stop = NodeId { number };
        let mut nodes = Items::new(alloc);
        nodes.push(Node {
            tokens: 1,
            kind: NodeKind::Stop,
        })?;
        Ok(Builder {
            alloc,
            labels: repeated(alloc, stop, labels)?,
            continuations: repeated(alloc, stop, continuations)?,
            stop,
            nodes,
        })
    }

    /// The graph, which begins at a node.
    fn finish(self, p: &Proc, first: NodeId) -> Result<Graph, AllocError>
        ensures { IfOk result (λ g. IsFinished self p.now first g) }
    {
        let Builder {
            alloc,
            labels,
            continuations,
            stop,
            nodes: laid,
        } = self;
        let around = labels
            .len()
            .saturating_add(1)
            .saturating_add(continuations.len());
        let mut nodes = Items::with_capacity(alloc, around.saturating_add(laid.len()))?;
        add_gotos(labels.as_slice(), &mut nodes)?;
        add_gotos(&[stop], &mut nodes)?;
        let landing = as_number(nodes.len())?;
        add_copy_ins(alloc, p, continuations.as_slice(), &mut nodes)?;
        nodes.append(laid)?;
        let temporaries = temporaries_of(alloc, nodes.as_slice())?;
        Ok(Graph {
            variables: as_number(p.vars.len())?,
            temporaries,
            nodes,
            first,
            continuations: nodes_from(alloc, landing, as_number(continuations.len())?)?,
        })
    }
}

/// The graph of a procedure. Its only error is want of memory, as which count 2^32 nodes, and a label with the number 2^32 - 1.
pub fn flow(alloc: Global, p: &Proc) -> Result<Graph, AllocError>
    ensures { IfOk result (λ g. IsFlow p.now g) }
{
    let labels = labels_in(p.body.as_slice())?;
    let mut builder = Builder::of(alloc, labels, as_number(p.conts.len())?)?;
    let stop = builder.stop;
    let next = builder.block(p, p.body.as_slice(), stop)?;
    let formals = formals(alloc, p.formals)?;
    let first = builder.push(p.tokens, NodeKind::Entry { formals, next })?;
    builder.finish(p, first)
}

/// The graph of each procedure of a program, in their order. Its only error is want of memory.
pub fn flows(alloc: Global, program: &Program) -> Result<Items<Graph>, AllocError>
    ensures each { IfOk result (λ graphs. AllZip IsFlow program.now.procs graphs) }
    ensures are_graphs { IfOk result (λ graphs. IsInRange program.now → AreGraphsOf program.now graphs) }
    ensures are_bounded { IfOk result (λ graphs. IsInRange program.now → AllZip IsBounded program.now.procs graphs) }
    ensures are_covered { IfOk result (λ graphs. IsInRange program.now → AllZip AreCovered program.now.procs graphs) }
    ensures are_flows { IfOk result (λ graphs. (s : Setting) → s.program ≡ program.now → IsInRange program.now → AreFlows s graphs) }
{
    let procs = program.procs.as_slice();
    let mut graphs = Items::new(alloc);
    for q in procs {
        graphs.push(flow(alloc, q)?)?;
    }
    Ok(graphs)
}
