//! The order in which nodes stand in code.
//!
//! The code of a node is followed by that of the node to which it falls, if that has no place yet; else by a jump there. So a loop pays for one jump a
//! turn at most, and each node stands once.

ghost use Rattle.std.specs.Prelude.{◌≡◌, ℕ, OnOk, IfOk, IfNone, IfSome, IsTrue, Some, None, true, false, length, replicate, slice_get, [], ◌∷◌, ◌++◌, ◌+◌, ◌*◌, ◌<◌, ◌≤◌, ◌^◌};
ghost use Rattle.std.specs.List.{All, list_all};
ghost use Rattle.cmm_bitset.specs.Sets.{has};
ghost use Rattle.rv_asm.specs.Appending.{Appends, Codes};
ghost use Rattle.rv_asm.specs.Sizes.{all_longest};
ghost use Rattle.rv_asm.specs.declared.part.Part.TheVariants.{Place};
ghost use Rattle.cmm_effects.specs.Changes.{Keeps};
ghost use Rattle.cmm_graph.specs.declared.node.Node.{Node as GraphNode};
ghost use Rattle.cmm_effects.specs.Pieces.{Adds, Always};
ghost use Rattle.cmm_effects.specs.Ways.{Goes, Turns};
ghost use Rattle.cmm_emit.specs.Costs.{cost_of, jump_cost, total_cost};
ghost use Rattle.cmm_emit.specs.LaidNodes.{AreLabelsBehind, AreLaid, AreUnplaced, CodesAlone, EndsAt, HaveSites, IsBetween, IsLaidBehind, IsPending, PlacesOwn, StandsHere, WaitApart, labels_behind};
ghost use Rattle.cmm_emit.specs.Naming.{has_kind, has_node, label_at};
ghost use Rattle.cmm_emit.specs.Standing.{CanWait, IsReady, LeadsFrom, SiteStands, falls_to, is_bare};

use crate::body::body;
use crate::context::{Context, Targets};
use cmm_bitset::BitSet;
use cmm_graph::{Graph, NodeId, NodeKind};
use cmm_select::{go_on, go_to};
use rv_asm::Asm;
use std::alloc::{AllocError, Global};

/// The node to which a node falls: the one that may follow it in code.
pub(crate) fn falls_to(kind: &NodeKind) -> Option<NodeId>
    ensures { result ≡ falls_to kind.now }
{
    match kind {
        NodeKind::Entry { next, .. } => Some(*next),
        NodeKind::CopyIn { next, .. } => Some(*next),
        NodeKind::Assign { next, .. } => Some(*next),
        NodeKind::Store { next, .. } => Some(*next),
        NodeKind::Branch { otherwise, .. } => Some(*otherwise),
        NodeKind::Switch { otherwise, .. } => Some(*otherwise),
        NodeKind::Call { exits, .. } => exits.get().normal,
        NodeKind::Yield { exits, .. } => exits.get().normal,
        NodeKind::Host { next, .. } => Some(*next),
        NodeKind::Goto { next } => Some(*next),
        _ => None,
    }
}

/// A node that has no place yet gets it at the end of the code.
fn arrive(asm: &mut Asm, context: &Context, targets: &Targets, node: NodeId, placed: &mut BitSet)
    requires ready { IsReady asm.old.labels context.now targets.now }
    requires laid { AreLaid asm.old.labels context.now placed.old }
    requires node { IsTrue (has_node context.now node) }
    requires fresh { has placed.old node.number ≡ false }
    ensures ready { IsReady asm.new.labels context.now targets.now }
    ensures laid { AreLaid asm.new.labels context.now placed.new }
    ensures parts { asm.new.parts ≡ asm.old.parts ++ Place (label_at context.now.nodes node.number) ∷ [] }
    ensures ends { EndsAt context.now node placed.old placed.new asm.new.parts }
    ensures labels { asm.new.labels ≡ labels_behind context.now (Some node) asm.old.labels }
{
    asm.place(context.nodes.as_slice()[node.number as usize]);
    placed.insert(node.number);
}

/// Control goes on at a node: it gets its place here, if it has none yet, and is answered; else a jump leads to it. An error is want of memory, and
/// nothing is changed.
fn lead_to(
    asm: &mut Asm,
    context: &Context,
    targets: &Targets,
    node: NodeId,
    placed: &mut BitSet,
) -> Result<Option<NodeId>, AllocError>
    requires ready { IsReady asm.old.labels context.now targets.now }
    requires laid { AreLaid asm.old.labels context.now placed.old }
    requires node { IsTrue (has_node context.now node) }
    ensures ready { OnOk result (IsReady asm.new.labels context.now targets.now) }
    ensures laid { OnOk result (AreLaid asm.new.labels context.now placed.new) }
    ensures goes { OnOk result (Adds jump_cost asm.old.parts asm.new.parts (λ x from to. Goes 0 jump_cost Always (λ t. x.at (label_at context.now.nodes node.number).number) Keeps x from)) }
    ensures ends { IfOk result (λ there. IfSome there (λ n. EndsAt context.now n placed.old placed.new asm.new.parts)) }
    ensures jumps { IfOk result (λ there. IfNone there (placed.new ≡ placed.old)) }
    ensures labels { IfOk result (λ there. asm.new.labels ≡ labels_behind context.now there asm.old.labels) }
{
    if placed.has(node.number) {
        go_to(asm, context.nodes.as_slice()[node.number as usize])?;
        return Ok(None);
    }
    arrive(asm, context, targets, node, placed);
    Ok(Some(node))
}

/// Whether a node only goes on: a jump, or a landing that takes no value.
fn is_bare(kind: &NodeKind) -> bool
    ensures { result ≡ is_bare kind.now }
{
    match kind {
        NodeKind::CopyIn { to, .. } => to.is_empty(),
        NodeKind::Goto { .. } => true,
        _ => false,
    }
}

/// As `lead_to`, from a node that only goes on: by an instruction, since each node has one.
fn pass_to(
    asm: &mut Asm,
    context: &Context,
    targets: &Targets,
    node: NodeId,
    placed: &mut BitSet,
) -> Result<Option<NodeId>, AllocError>
    requires ready { IsReady asm.old.labels context.now targets.now }
    requires laid { AreLaid asm.old.labels context.now placed.old }
    requires node { IsTrue (has_node context.now node) }
    ensures ready { OnOk result (IsReady asm.new.labels context.now targets.now) }
    ensures laid { OnOk result (AreLaid asm.new.labels context.now placed.new) }
    ensures turns { OnOk result (Adds jump_cost asm.old.parts asm.new.parts (λ x from to. Turns jump_cost Always (λ t. x.at (label_at context.now.nodes node.number).number) Keeps x from)) }
    ensures ends { IfOk result (λ there. IfSome there (λ n. EndsAt context.now n placed.old placed.new asm.new.parts)) }
    ensures jumps { IfOk result (λ there. IfNone there (placed.new ≡ placed.old)) }
    ensures labels { IfOk result (λ there. asm.new.labels ≡ labels_behind context.now there asm.old.labels) }
{
    if placed.has(node.number) {
        let label = context.nodes.as_slice()[node.number as usize];
        go_to(asm, label)?;
        return Ok(None);
    }
    go_on(asm)?;
    arrive(asm, context, targets, node, placed);
    Ok(Some(node))
}

/// Control goes on at a node from one that falls to it, by an instruction at least where that only goes on.
fn lead_on(
    asm: &mut Asm,
    context: &Context,
    targets: &Targets,
    kind: &NodeKind,
    next: NodeId,
    placed: &mut BitSet,
) -> Result<Option<NodeId>, AllocError>
    requires ready { IsReady asm.old.labels context.now targets.now }
    requires laid { AreLaid asm.old.labels context.now placed.old }
    requires node { IsTrue (has_node context.now next) }
    ensures ready { OnOk result (IsReady asm.new.labels context.now targets.now) }
    ensures laid { OnOk result (AreLaid asm.new.labels context.now placed.new) }
    ensures goes { OnOk result (Adds jump_cost asm.old.parts asm.new.parts (λ x from to. LeadsFrom (is_bare kind.now) (x.at (label_at context.now.nodes next.number).number) x from)) }
    ensures ends { IfOk result (λ there. IfSome there (λ n. EndsAt context.now n placed.old placed.new asm.new.parts)) }
    ensures jumps { IfOk result (λ there. IfNone there (placed.new ≡ placed.old)) }
    ensures labels { IfOk result (λ there. asm.new.labels ≡ labels_behind context.now there asm.old.labels) }
{
    if is_bare(kind) {
        let there = pass_to(asm, context, targets, next, placed)?;
        return Ok(there);
    }
    let there = lead_to(asm, context, targets, next, placed)?;
    Ok(there)
}

/// Lays a node, which has its place at the end of the code: its own code, and what leads on behind it. Answers the node that has its place behind it,
/// if there is one.
fn lay_node(
    asm: &mut Asm,
    alloc: Global,
    context: &Context,
    targets: &Targets,
    kind: &NodeKind,
    placed: &mut BitSet,
) -> Result<Option<NodeId>, AllocError>
    requires ready { IsReady asm.old.labels context.now targets.now }
    requires laid { AreLaid asm.old.labels context.now placed.old }
    requires kind { IsTrue (has_kind context.now targets.now kind.now) }
    requires sites { HaveSites context.now }
    requires waits { CanWait context.now kind.now asm.old.labels }
    ensures ready { OnOk result (IsReady asm.new.labels context.now targets.now) }
    ensures laid { OnOk result (AreLaid asm.new.labels context.now placed.new) }
    ensures code { OnOk result (Adds (cost_of context.now targets.now kind.now) asm.old.parts asm.new.parts (CodesAlone context.now targets.now kind.now)) }
    ensures ends { IfOk result (λ there. IfSome there (λ n. EndsAt context.now n placed.old placed.new asm.new.parts)) }
    ensures stays { IfOk result (λ there. IfNone there (placed.new ≡ placed.old)) }
    ensures labels { IfOk result (λ there. AreLabelsBehind context.now kind.now there asm.old.labels asm.new.labels) }
    ensures stands { OnOk result (SiteStands false context.now kind.now asm.new.parts) }
{
    body(asm, alloc, context, targets, kind)?;
    match falls_to(kind) {
        Some(next) => {
            let there = lead_on(asm, context, targets, kind, next, placed)?;
            Ok(there)
        }
        None => Ok(None),
    }
}

/// Lays the nodes that fall one to the next, from one that has its place at the end of the code.
fn lay_chain(
    asm: &mut Asm,
    alloc: Global,
    context: &Context,
    targets: &Targets,
    graph: &Graph,
    first: NodeId,
    placed: &mut BitSet,
) -> Result<(), AllocError>
    requires size { length context.now.nodes ≡ length graph.now.nodes }
    requires kinds { IsTrue (list_all (λ node. has_kind context.now targets.now node.kind) graph.now.nodes) }
    requires sites { HaveSites context.now }
    requires once { WaitApart graph.now }
    requires pending { IsPending context.now targets.now graph.now asm.old.labels placed.old first asm.old.parts }
    ensures between { OnOk result (IsBetween context.now targets.now graph.now asm.new.labels placed.new asm.new.parts) }
    ensures behind { OnOk result (IsLaidBehind context.now targets.now graph.now (Some first) asm.old.labels asm.new.labels placed.old placed.new asm.old.parts asm.new.parts) }
{
    let mut at = first;
    for _ in 0..graph.nodes.len() {
        let node = &graph.nodes.as_slice()[at.number as usize];
        match lay_node(asm, alloc, context, targets, &node.kind, placed)? {
            Some(next) => at = next,
            None => return Ok(()),
        }
    }
    Ok(())
}

/// Lays a node that has no place yet, and those that fall behind it.
fn lay_from(
    asm: &mut Asm,
    alloc: Global,
    context: &Context,
    targets: &Targets,
    graph: &Graph,
    first: NodeId,
    placed: &mut BitSet,
) -> Result<(), AllocError>
    requires between { IsBetween context.now targets.now graph.now asm.old.labels placed.old asm.old.parts }
    requires size { length context.now.nodes ≡ length graph.now.nodes }
    requires kinds { IsTrue (list_all (λ node. has_kind context.now targets.now node.kind) graph.now.nodes) }
    requires sites { HaveSites context.now }
    requires once { WaitApart graph.now }
    requires first { IsTrue (has_node context.now first) }
    ensures between { OnOk result (IsBetween context.now targets.now graph.now asm.new.labels placed.new asm.new.parts) }
    ensures first { OnOk result (has placed.new first.number ≡ true) }
    ensures behind { OnOk result (IsLaidBehind context.now targets.now graph.now None asm.old.labels asm.new.labels placed.old placed.new asm.old.parts asm.new.parts) }
{
    if placed.has(first.number) {
        return Ok(());
    }
    asm.place(context.nodes.as_slice()[first.number as usize]);
    placed.insert(first.number);
    lay_chain(asm, alloc, context, targets, graph, first, placed)
}

/// Lays those of some nodes that have no place yet, and behind each what falls behind it.
fn lay_each(
    asm: &mut Asm,
    alloc: Global,
    context: &Context,
    targets: &Targets,
    graph: &Graph,
    nodes: &[NodeId],
    placed: &mut BitSet,
) -> Result<(), AllocError>
    requires between { IsBetween context.now targets.now graph.now asm.old.labels placed.old asm.old.parts }
    requires size { length context.now.nodes ≡ length graph.now.nodes }
    requires kinds { IsTrue (list_all (λ node. has_kind context.now targets.now node.kind) graph.now.nodes) }
    requires nodes { All (λ n. IsTrue (has_node context.now n)) nodes.now }
    requires sites { HaveSites context.now }
    requires once { WaitApart graph.now }
    ensures between { OnOk result (IsBetween context.now targets.now graph.now asm.new.labels placed.new asm.new.parts) }
    ensures each { OnOk result (All (λ n. has placed.new n.number ≡ true) nodes.now) }
    ensures behind { OnOk result (IsLaidBehind context.now targets.now graph.now None asm.old.labels asm.new.labels placed.old placed.new asm.old.parts asm.new.parts) }
{
    for node in nodes {
        lay_from(asm, alloc, context, targets, graph, *node, placed)?;
    }
    Ok(())
}

/// Lays the code of a procedure: each node of its graph behind its label, the first one first, and then the landings of its continuations with what they fall to, so that a landing
/// needs no jump to its code. Labels of nodes and of sites are made for it and have no place yet. Each node is laid once, so that all are at most as long as their costs say.
pub fn lay_nodes(
    asm: &mut Asm,
    alloc: Global,
    context: &Context,
    targets: &Targets,
    graph: &Graph,
) -> Result<(), AllocError>
    requires ready { IsReady asm.old.labels context.now targets.now }
    requires laid { AreLaid asm.old.labels context.now (replicate (length graph.now.nodes) false) }
    requires size { length context.now.nodes ≡ length graph.now.nodes }
    requires few { length graph.now.nodes < 2 ^ 32 }
    requires kinds { IsTrue (list_all (λ node. has_kind context.now targets.now node.kind) graph.now.nodes) }
    requires first { IsTrue (has_node context.now graph.now.first) }
    requires landings { All (λ n. IsTrue (has_node context.now n)) graph.now.continuations }
    requires sites { HaveSites context.now }
    requires unplaced { AreUnplaced asm.old.labels context.now }
    requires once { WaitApart graph.now }
    ensures ready { OnOk result (IsReady asm.new.labels context.now targets.now) }
    ensures code { OnOk result ((k : ℕ) → k < length graph.now.nodes → Codes asm.new.parts (label_at context.now.nodes k) (StandsHere context.now targets.now graph.now k)) }
    ensures sites { OnOk result ((k : ℕ) (node : GraphNode) → slice_get graph.now.nodes k ≡ Some node → SiteStands false context.now node.kind asm.new.parts) }
    ensures added { OnOk result (Appends asm.old.parts asm.new.parts (λ x from to. Unit {0})) }
    ensures places { OnOk result (PlacesOwn context.now asm.old.labels asm.new.labels) }
    ensures size { OnOk result (all_longest asm.new.parts ≤ all_longest asm.old.parts + 4 * total_cost context.now targets.now graph.now.nodes) }
{
    let mut placed = BitSet::new(alloc, graph.nodes.len() as u32)?;
    lay_from(
        asm,
        alloc,
        context,
        targets,
        graph,
        graph.first,
        &mut placed,
    )?;
    let landings = graph.continuations.as_slice();
    lay_each(asm, alloc, context, targets, graph, landings, &mut placed)?;
    for number in (0..graph.nodes.len()).rev() {
        let first = NodeId {
            number: number as u32,
        };
        lay_from(asm, alloc, context, targets, graph, first, &mut placed)?;
    }
    Ok(())
}
