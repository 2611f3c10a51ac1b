//! What the code of each procedure is made over.

ghost use Rattle.std.specs.Prelude.{◌≡◌, ◌+◌, ◌≤◌, ◌^◌, ◌++◌, false, length, map, replicate, IfOk, OnOk};
ghost use Rattle.rv_asm.specs.declared.part.Meaning.TheVariants.{Inner};
ghost use Rattle.cmm_emit.specs.Naming.{label_at};
ghost use Rattle.cmm_emit.specs.Contexts.{AreMade, IsMadeFor, entry_labels, first_label, label_count, place_in};

use crate::context::Context;
use crate::labels::labels;
use cmm_allocate::ProcedurePlaces;
use cmm_chain::{Frame, Location};
use cmm_graph::{Graph, NodeId};
use cmm_items::Items;
use cmm_program::Proc;
use rv_asm::{Asm, Label};
use std::alloc::{AllocError, Global};

/// A register that stands in where there is no local.
const NO_PLACE: Location = Location::Temp(12);

/// The place of a local.
fn place_in(places: &ProcedurePlaces, local: u32) -> Location
    ensures { result ≡ place_in places.now local }
{
    match places.locals.get(local as usize) {
        Some(place) => *place,
        None => NO_PLACE,
    }
}

/// The places of the locals that are made 0. An error is want of memory.
fn zeroed_places(alloc: Global, places: &ProcedurePlaces) -> Result<Items<Location>, AllocError>
    ensures { IfOk result (λ zeroed. zeroed ≡ map (place_in places.now) places.now.zeroed) }
{
    let mut zeroed = Items::new(alloc);
    for local in places.zeroed.as_slice() {
        zeroed.push(place_in(places, *local))?;
    }
    Ok(zeroed)
}

/// The label of a node.
fn node_label(nodes: &[Label], node: NodeId) -> Label
    ensures { result ≡ label_at nodes.now node.number }
{
    match nodes.get(node.number as usize) {
        Some(label) => *label,
        None => Label { number: 0 },
    }
}

/// The labels of some nodes. An error is want of memory.
fn node_labels(alloc: Global, nodes: &[Label], which: &[NodeId]) -> Result<Items<Label>, AllocError>
    ensures { IfOk result (λ found. found ≡ map (λ n. label_at nodes.now n.number) which.now) }
{
    let mut found = Items::new(alloc);
    for node in which {
        found.push(node_label(nodes, *node))?;
    }
    Ok(found)
}

/// A frame like another. An error is want of memory.
fn same_frame(alloc: Global, frame: &Frame) -> Result<Frame, AllocError>
    ensures { IfOk result (λ same. same ≡ frame.now) }
{
    Ok(Frame {
        size: frame.size,
        return_at: frame.return_at,
        saved: Items::from_slice(alloc, frame.saved.as_slice())?,
        pairs: Items::from_slice(alloc, frame.pairs.as_slice())?,
        stack: Items::from_slice(alloc, frame.stack.as_slice())?,
    })
}

/// What the code of a procedure is made over, with labels for its nodes and its sites. An error is want of memory.
fn context(
    asm: &mut Asm,
    alloc: Global,
    procedure: &Proc,
    graph: &Graph,
    places: &ProcedurePlaces,
) -> Result<Context, AllocError>
    requires { length asm.old.labels + label_count procedure.now graph.now ≤ 2 ^ 32 }
    ensures made { IfOk result (λ made. IsMadeFor procedure.now graph.now places.now (length asm.old.labels) made) }
    ensures labels { OnOk result (asm.new.labels ≡ asm.old.labels ++ replicate (label_count procedure.now graph.now) (Inner false)) }
    ensures parts { asm.new.parts ≡ asm.old.parts }
{
    let nodes = labels(asm, alloc, graph.nodes.len())?;
    let sites = labels(asm, alloc, procedure.sites.len())?;
    let landings = node_labels(alloc, nodes.as_slice(), graph.continuations.as_slice())?;
    let zeroed = zeroed_places(alloc, places)?;
    let frame = same_frame(alloc, &places.frame)?;
    let locals = Items::from_slice(alloc, places.locals.as_slice())?;
    Ok(Context {
        variables: graph.variables,
        places: locals,
        zeroed,
        frame,
        landings,
        nodes,
        sites,
    })
}

/// What the code of each procedure is made over, in their order. An error is want of memory.
pub fn contexts(
    asm: &mut Asm,
    alloc: Global,
    procedures: &[Proc],
    graphs: &[Graph],
    places: &[ProcedurePlaces],
) -> Result<Items<Context>, AllocError>
    requires graphs { length graphs.now ≡ length procedures.now }
    requires places { length places.now ≡ length procedures.now }
    requires few { first_label (length asm.old.labels) procedures.now graphs.now (length procedures.now) ≤ 2 ^ 32 }
    ensures made { IfOk result (λ made. AreMade (length asm.old.labels) procedures.now graphs.now places.now made) }
    ensures labels { OnOk result (asm.new.labels ≡ asm.old.labels ++ replicate (first_label 0 procedures.now graphs.now (length procedures.now)) (Inner false)) }
    ensures parts { asm.new.parts ≡ asm.old.parts }
{
    let mut made = Items::new(alloc);
    for number in 0..procedures.len() {
        made.push(context(
            asm,
            alloc,
            &procedures[number],
            &graphs[number],
            &places[number],
        )?)?;
    }
    Ok(made)
}

/// Where the code of each procedure begins: the label of its graph's first node. An error is want of memory.
pub fn entry_labels(
    alloc: Global,
    contexts: &[Context],
    graphs: &[Graph],
) -> Result<Items<Label>, AllocError>
    requires { length graphs.now ≡ length contexts.now }
    ensures { IfOk result (λ found. found ≡ entry_labels contexts.now graphs.now) }
{
    let mut found = Items::new(alloc);
    for number in 0..contexts.len() {
        found.push(node_label(contexts[number].nodes.as_slice(), graphs[number].first))?;
    }
    Ok(found)
}
