//! The graph of the conflicts of locals.
//!
//! Each local has a set: what is live after the nodes that write it, and what is live at the sites at which it is. Two locals conflict where
//! one is in the set of the other. The sets take as many bits as there are pairs of locals, while the graph is made.

ghost use Rattle.std.specs.Prelude.{◌≡◌, ◌≢◌, ◌<◌, ◌^◌, ℕ, true, Bool, List, IfOk, OnOk, length};
ghost use Rattle.std.specs.List.{All};
ghost use Rattle.cmm_bitset.specs.Sets.{has, members};
ghost use Rattle.cmm_graph.specs.Paths.{writes};
ghost use Rattle.cmm_live.specs.Exact.{AreLiveSets};
ghost use Rattle.cmm_live.specs.Interference.{AreConflicts, AreConflictsWithin};
ghost use Rattle.cmm_live.specs.Locals.{local_count};
ghost use Rattle.cmm_live.specs.inside.Interfering.{AreConflictSets, AreRows, HavePairs, HaveSites, HaveWrites, JoinedTo, TakeIn, is_behind, is_number_of, is_one_of, is_other};
ghost use Rattle.cmm_live.specs.inside.Unions.{AreSized};

use crate::equation::union_before;
use crate::fixed_point::empty_sets;
use crate::live_sets::LiveSets;
use crate::locals::{local_count, number_of};
use cmm_bitset::BitSet;
use cmm_colour::Conflicts;
use cmm_graph::{Graph, Local, Node};
use std::alloc::{AllocError, Global};

/// Lets the sets of some numbers take in another set.
fn take_in(numbers: &[u32], set: &BitSet, rows: &mut Vec<BitSet>)
    requires within { All (λ number. number < length rows.old.items) numbers.now }
    requires size { length set.now ≡ length rows.old.items }
    requires rows { AreRows (length rows.old.items) rows.old.items }
    ensures { TakeIn (length rows.old.items) (is_one_of numbers.now) set.now rows.old.items rows.new.items }
{
    for number in numbers {
        rows[*number as usize].join(set);
    }
}

/// The numbers of those of some locals that the graph has.
fn numbers_of(alloc: Global, g: &Graph, locals: &[Local]) -> Result<Vec<u32>, AllocError>
    requires { local_count g.now < 2 ^ 32 }
    ensures within { IfOk result (λ numbers. All (λ number. number < local_count g.now) numbers.items) }
    ensures exact { IfOk result (λ numbers. (a : ℕ) → is_one_of numbers.items a ≡ is_number_of g.now locals.now a) }
{
    let mut numbers = Vec::new(alloc);
    for local in locals {
        if let Some(number) = number_of(g, *local) {
            numbers.push(number)?;
        }
    }
    Ok(numbers)
}

/// Lets the sets of the locals that a node writes take in what is live after it.
fn add_writes(
    alloc: Global,
    g: &Graph,
    node: &Node,
    before: &[BitSet],
    rows: &mut Vec<BitSet>,
) -> Result<(), AllocError>
    requires few { local_count g.now < 2 ^ 32 }
    requires sized { AreSized g.now before.now }
    requires rows { AreRows (local_count g.now) rows.old.items }
    ensures { OnOk result ((after : List Bool) × (TakeIn (local_count g.now) (is_number_of g.now (writes node.now.kind)) after rows.old.items rows.new.items
        × ((b : ℕ) → has after b ≡ is_behind g.now before.now node.now b))) }
{
    let writes = node.kind.writes(alloc)?;
    let numbers = numbers_of(alloc, g, writes.as_slice())?;
    let successors = g.successors(&node.kind, alloc)?;
    let after = union_before(alloc, g, successors.as_slice(), before)?;
    take_in(&numbers, &after, rows);
    Ok(())
}

/// For each local what is live after the nodes that write it.
fn rows_of_writes(alloc: Global, g: &Graph, before: &[BitSet]) -> Result<Vec<BitSet>, AllocError>
    requires few { local_count g.now < 2 ^ 32 }
    requires sized { AreSized g.now before.now }
    ensures { IfOk result (λ rows. HaveWrites g.now (local_count g.now) before.now g.now.nodes rows.items) }
{
    let count = local_count(g);
    let mut rows = empty_sets(alloc, count as usize, count)?;
    for node in g.nodes.as_slice() {
        add_writes(alloc, g, node, before, &mut rows)?;
    }
    Ok(rows)
}

/// The members of a set, in ascending order.
fn listed(alloc: Global, set: &BitSet) -> Result<Vec<u32>, AllocError>
    ensures { IfOk result (λ numbers. numbers.items ≡ members set.now) }
{
    set.iter().collect(alloc)
}

/// Lets the sets of the locals that are live at each site take in the others.
fn add_sites(alloc: Global, sites: &[BitSet], rows: &mut Vec<BitSet>) -> Result<(), AllocError>
    requires sized { All (λ set. length set ≡ length rows.old.items) sites.now }
    requires rows { AreRows (length rows.old.items) rows.old.items }
    ensures { OnOk result (HaveSites (length rows.old.items) sites.now rows.old.items rows.new.items) }
{
    for set in sites {
        let numbers = listed(alloc, set)?;
        take_in(&numbers, set, rows);
    }
    Ok(())
}

/// The other members of a set that are in a class.
fn others_in(
    alloc: Global,
    set: &BitSet,
    class: &BitSet,
    number: u32,
) -> Result<Vec<u32>, AllocError>
    requires { length set.now ≡ length class.now }
    ensures within { IfOk result (λ others. All (λ other. other < length class.now) others.items) }
    ensures different { IfOk result (λ others. All (λ other. other ≢ number) others.items) }
    ensures exact { IfOk result (λ others. (b : ℕ) → is_one_of others.items b ≡ is_other class.now set.now number b) }
{
    let members = listed(alloc, set)?;
    let mut others = Vec::new(alloc);
    for other in &members {
        if *other != number && class.has(*other) {
            others.push(*other)?;
        }
    }
    Ok(others)
}

/// Joins a number to others.
fn join_to(number: u32, others: &[u32], conflicts: &mut Conflicts) -> Result<(), AllocError>
    requires number { number < length conflicts.old }
    requires within { All (λ other. other < length conflicts.old) others.now }
    requires different { All (λ other. other ≢ number) others.now }
    ensures { OnOk result (JoinedTo number others.now conflicts.old conflicts.new) }
{
    for other in others {
        conflicts.add(number, *other)?;
    }
    Ok(())
}

/// Joins each number of a class to the others of the class that are in its set.
fn pairs(alloc: Global, rows: &[BitSet], class: &BitSet) -> Result<Conflicts, AllocError>
    requires { AreRows (length class.now) rows.now }
    ensures { IfOk result (λ conflicts. HavePairs class.now rows.now conflicts) }
{
    let mut conflicts = Conflicts::new(alloc, class.size())?;
    for (number, row) in rows.iter().enumerate() {
        let number = number as u32;
        if class.has(number) {
            let others = others_in(alloc, row, class, number)?;
            join_to(number, &others, &mut conflicts)?;
        }
    }
    Ok(conflicts)
}

/// The set of each local of a graph. An error is want of memory.
fn conflict_sets(alloc: Global, g: &Graph, live: &LiveSets) -> Result<Vec<BitSet>, AllocError>
    requires few { local_count g.now < 2 ^ 32 }
    requires live { AreLiveSets g.now live.now }
    ensures { IfOk result (λ sets. AreConflictSets g.now live.now sets.items) }
{
    let mut sets = rows_of_writes(alloc, g, live.before.as_slice())?;
    add_sites(alloc, live.sites.as_slice(), &mut sets)?;
    Ok(sets)
}

/// Which locals of a class conflict: a graph of their numbers in which just the pairs are joined that do. An error is want of memory.
pub fn interference_within(
    alloc: Global,
    g: &Graph,
    live: &LiveSets,
    class: &BitSet,
) -> Result<Conflicts, AllocError>
    requires few { local_count g.now < 2 ^ 32 }
    requires live { AreLiveSets g.now live.now }
    requires class { length class.now ≡ local_count g.now }
    ensures { IfOk result (λ conflicts. AreConflictsWithin g.now class.now conflicts) }
{
    let sets = conflict_sets(alloc, g, live)?;
    pairs(alloc, &sets, class)
}

/// Which locals of each of two classes conflict, as `interference_within` finds them, from one look at the nodes. An error is want of memory.
pub fn interference_within_both(
    alloc: Global,
    g: &Graph,
    live: &LiveSets,
    first: &BitSet,
    second: &BitSet,
) -> Result<(Conflicts, Conflicts), AllocError>
    requires few { local_count g.now < 2 ^ 32 }
    requires live { AreLiveSets g.now live.now }
    requires first { length first.now ≡ local_count g.now }
    requires second { length second.now ≡ local_count g.now }
    ensures first { IfOk result (λ found. AreConflictsWithin g.now first.now found.0) }
    ensures second { IfOk result (λ found. AreConflictsWithin g.now second.now found.1) }
{
    let sets = conflict_sets(alloc, g, live)?;
    let among_first = pairs(alloc, &sets, first)?;
    let among_second = pairs(alloc, &sets, second)?;
    Ok((among_first, among_second))
}

/// The set of all locals.
fn all_locals(alloc: Global, g: &Graph) -> Result<BitSet, AllocError>
    requires { local_count g.now < 2 ^ 32 }
    ensures size { IfOk result (λ set. length set ≡ local_count g.now) }
    ensures all { IfOk result (λ set. (a : ℕ) → a < local_count g.now → has set a ≡ true) }
{
    let mut set = BitSet::new(alloc, local_count(g))?;
    for number in 0..local_count(g) {
        set.insert(number);
    }
    Ok(set)
}

/// Which locals of a graph conflict: a graph of their numbers in which just the pairs are joined that do. An error is want of memory.
pub fn interference(alloc: Global, g: &Graph, live: &LiveSets) -> Result<Conflicts, AllocError>
    requires few { local_count g.now < 2 ^ 32 }
    requires live { AreLiveSets g.now live.now }
    ensures { IfOk result (λ conflicts. AreConflicts g.now conflicts) }
{
    let all = all_locals(alloc, g)?;
    interference_within(alloc, g, live, &all)
}
