//! Graphs with their constants hoisted.

ghost use Rattle.std.specs.Prelude.{◌≡◌, ◌+◌, ◌*◌, ◌≤◌, ◌<◌, ◌^◌, ◌++◌, ℕ, IfOk, IsTrue, OnOk, length};
ghost use Rattle.std.specs.List.{All, AllZip};
ghost use Rattle.cmm_program.specs.Bounds.{longest as longest_of};
ghost use Rattle.cmm_hoist.specs.Graphs.{AreHoistedWithin, BeginsAtEntry, HasTokensWithin, IsHoistedFrom, IsHoistedWithin, all_operands, chain, chain_start};
ghost use Rattle.cmm_hoist.specs.Keeping.{NodeStandsFor};
ghost use Rattle.cmm_hoist.specs.inside.Room.{IsBeginningOf, IsEnough, MayBeHoisted, OthersHaveWithin, with_entry};
ghost use Rattle.cmm_hoist.specs.inside.Worth.{AreNamed};

use crate::keeping::node_for;
use crate::worth::constants_in_loops;
use cmm_graph::{Destination, Graph, Node, NodeId, NodeKind, Operand, Rvalue, Temporary};
use cmm_items::Items;
use cmm_program::{Proc, Program};
use cmm_words::Constant;
use std::alloc::{AllocError, Global};

/// At most so many constants of a procedure are kept.
pub const MOST_KEPT: u32 = 12;

/// The variables of a procedure and its constants have registers together as long as they are no more than these.
const REGISTERS: u32 = 16;

/// No graph of so many nodes is hoisted: the numbers of the nodes that are added are to have 32 bits.
const MOST_NODES: usize = 1 << 31;

/// The Entry of a graph: its tokens, how many formals it has, and where it leads.
#[derive(Clone, Copy)]
pub struct Beginning {
    pub tokens: u32,
    pub formals: usize,
    pub next: NodeId,
}

/// Reads the Entry of a graph.
fn read_entry(g: &Graph) -> Beginning
    requires { BeginsAtEntry g.now }
    ensures { IsBeginningOf g.now result }
{
    match g.nodes.get(g.first.number as usize) {
        Some(
            Node {
                tokens,
                kind: NodeKind::Entry { formals, next },
            },
        ) => Beginning {
            tokens: *tokens,
            formals: formals.len(),
            next: *next,
        },
        _ => Beginning {
            tokens: 0,
            formals: 0,
            next: g.first,
        },
    }
}

/// How many tokens are enough for the Entry of a graph, if as many constants are kept as may be: one for each word of the frame, and those of its formals.
fn enough(g: &Graph, formals: usize) -> u64
    ensures enough { result < 2 ^ 32 → IsEnough g.now formals result }
    ensures least { (tokens : ℕ) → IsEnough g.now formals tokens → result ≤ tokens }
{
    let locals = g.variables as u64 + g.temporaries as u64 + MOST_KEPT as u64;
    let words = locals.saturating_add((g.continuations.len() as u64).saturating_mul(2));
    words.max((formals as u64).saturating_add(3)).max(5)
}

/// Whether no node but the first has more tokens.
fn others_have_within(g: &Graph, most: u32) -> bool
    ensures { IsTrue result → OthersHaveWithin most g.now }
{
    let nodes = g.nodes.as_slice();
    for index in 0..nodes.len() {
        if index != g.first.number as usize && nodes[index].tokens > most {
            return false;
        }
    }
    true
}

/// Whether a graph may be hoisted where no node is to have more tokens, however many constants are kept.
fn may_be_hoisted(g: &Graph, most: u32) -> bool
    requires { BeginsAtEntry g.now }
    ensures { IsTrue result → MayBeHoisted most g.now }
{
    let found = read_entry(g);
    enough(g, found.formals) <= most as u64
        && others_have_within(g, most)
        && g.nodes.len() < MOST_NODES
}

/// Whether all of some graphs may be.
fn may_all_be_hoisted(graphs: &[Graph], most: u32) -> bool
    requires { All BeginsAtEntry graphs.now }
    ensures { IsTrue result → All (MayBeHoisted most) graphs.now }
{
    graphs.iter().all(|g| may_be_hoisted(g, most))
}

/// Puts nodes over the temporaries that keep constants in the place of nodes. `first` is the number of the first of these temporaries.
fn stand_for_all(nodes: &mut Items<Node>, first: u32, kept: &[Constant])
    requires { first + length kept.now < 2 ^ 32 }
    ensures { AllZip (NodeStandsFor first kept.now) nodes.old nodes.new }
{
    for index in 0..nodes.len() {
        if let Some(node) = node_for(first, kept, &nodes.as_slice()[index]) {
            nodes.set(index, node);
        }
    }
}

/// Adds the chain of the nodes that give the temporaries their constants, which leads to `next`, and tells where it begins.
fn push_chain(
    nodes: &mut Items<Node>,
    first: u32,
    next: NodeId,
    kept: &[Constant],
) -> Result<NodeId, AllocError>
    requires temporaries { first + length kept.now < 2 ^ 32 }
    requires nodes { length nodes.old + length kept.now < 2 ^ 32 }
    ensures start { IfOk result (λ start. start ≡ chain_start (length nodes.old) next kept.now) }
    ensures pushed { OnOk result (nodes.new ≡ nodes.old ++ chain first (length nodes.old) next kept.now) }
{
    let mut start = next;
    for index in 0..kept.len() {
        let number = nodes.len() as u32;
        nodes.push(Node {
            tokens: 1,
            kind: NodeKind::Assign {
                to: Destination::Temporary(Temporary {
                    number: first + index as u32,
                }),
                value: Rvalue::Copy(Operand::Constant(kept[index])),
                next: start,
            },
        })?;
        start = NodeId { number };
    }
    Ok(start)
}

/// Gives the Entry of a graph other tokens, and lets it lead elsewhere.
fn set_entry(alloc: Global, g: &mut Graph, tokens: u32, next: NodeId) -> Result<(), AllocError>
    requires { BeginsAtEntry g.old }
    ensures { OnOk result ((begins : BeginsAtEntry g.old) → g.new ≡ with_entry g.old tokens begins.formals next) }
{
    let first = g.first.number as usize;
    let formals = match g.nodes.get(first) {
        Some(
            Node {
                kind: NodeKind::Entry { formals, .. },
                ..
            },
        ) => Items::from_slice(alloc, formals.as_slice())?,
        _ => Items::new(alloc),
    };
    g.nodes.set(
        first,
        Node {
            tokens,
            kind: NodeKind::Entry { formals, next },
        },
    );
    Ok(())
}

/// Keeps constants in temporaries, and leaves the Entry so many tokens.
fn keep(
    alloc: Global,
    g: Graph,
    found: Beginning,
    tokens: u32,
    kept: &[Constant],
) -> Result<Graph, AllocError>
    requires begins { IsBeginningOf g found }
    requires nodes { length g.nodes + length kept.now < 2 ^ 32 }
    requires named { AreNamed (all_operands g) kept.now }
    requires few { length kept.now ≤ MOST_KEPT }
    requires shared { tokens + length kept.now ≤ found.tokens }
    requires covered { IsEnough g found.formals tokens }
    ensures { IfOk result (λ made. (is : IsHoistedFrom g made) × (is.kept ≡ kept.now) × (is.tokens ≡ tokens)) }
{
    let mut g = g;
    stand_for_all(&mut g.nodes, g.temporaries, kept);
    let start = push_chain(&mut g.nodes, g.temporaries, found.next, kept)?;
    g.temporaries += kept.len() as u32;
    set_entry(alloc, &mut g, tokens, start)?;
    Ok(g)
}

/// How many constants a graph may keep, whose Entry has so many tokens to spare. Its variables and they are to have registers together.
fn limit(g: &Graph, spare: u64) -> usize
    ensures few { result ≤ MOST_KEPT }
    ensures spared { result ≤ spare }
{
    spare
        .min(MOST_KEPT as u64)
        .min(REGISTERS.saturating_sub(g.variables) as u64) as usize
}

/// Keeps the constants of a graph's loops in temporaries, as far as its Entry has tokens to spare. No node has more than `most` tokens then.
fn hoist(alloc: Global, g: Graph, most: u32) -> Result<Graph, AllocError>
    requires { MayBeHoisted most g }
    ensures { IfOk result (λ made. (longest : ℕ) → most + 2 * MOST_KEPT ≤ longest → IsHoistedWithin most longest g made) }
{
    let found = read_entry(&g);
    let enough = enough(&g, found.formals);
    if found.tokens as u64 <= enough {
        return Ok(g);
    }
    let limit = limit(&g, found.tokens as u64 - enough);
    let kept = constants_in_loops(alloc, &g, limit)?;
    if kept.is_empty() && found.tokens <= most {
        return Ok(g);
    }
    let tokens = (found.tokens - kept.len() as u32).min(most);
    keep(alloc, g, found, tokens, kept.as_slice())
}

/// The tokens of the longest of some procedures.
fn longest(procs: &[Proc]) -> u32
    ensures { result ≡ longest_of procs.now }
{
    let mut most = 0;
    for proc in procs {
        most = most.max(proc.tokens);
    }
    most
}

/// The graphs of a program with constants of their loops kept in temporaries. Where a procedure would have to give up tokens that it needs, the longest ones for
/// instance, all graphs are left as they are. An error is want of memory.
pub fn hoist_all(
    alloc: Global,
    program: &Program,
    graphs: Items<Graph>,
) -> Result<Items<Graph>, AllocError>
    requires begin { All BeginsAtEntry graphs }
    requires tokens { All (HasTokensWithin (longest_of program.now.procs)) graphs }
    ensures { IfOk result (AreHoistedWithin (longest_of program.now.procs) graphs) }
{
    let longest = longest(program.procs.as_slice());
    if longest < 2 * MOST_KEPT {
        return Ok(graphs);
    }
    let most = longest - 2 * MOST_KEPT;
    if !may_all_be_hoisted(graphs.as_slice(), most) {
        return Ok(graphs);
    }
    let mut made = Items::new(alloc);
    for g in graphs.into_vec() {
        let g = hoist(alloc, g, most)?;
        made.push(g)?;
    }
    Ok(made)
}
