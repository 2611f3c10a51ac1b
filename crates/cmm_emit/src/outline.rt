//! The labels of a unit, and what its code is made over.

ghost use Rattle.std.specs.Prelude.{◌≡◌, ◌+◌, ◌≤◌, ◌^◌, ◌++◌, [], false, length, replicate, IfOk};
ghost use Rattle.rv_asm.specs.declared.part.Meaning.TheVariants.{Inner};
ghost use Rattle.cmm_emit.specs.Contexts.{first_label};
ghost use Rattle.cmm_emit.specs.Labels.{symbol_labels};
ghost use Rattle.cmm_emit.specs.Outlines.{IsOutlineIn, share, symbol_count, with_own};

use crate::context::{Context, Targets};
use crate::contexts::{contexts, entry_labels};
use crate::labels::label;
use crate::symbols::{Symbols, make_symbols};
use cmm_allocate::ProcedurePlaces;
use cmm_graph::Graph;
use cmm_items::Items;
use cmm_program::Program;
use cmm_unit_code::Reference;
use rv_asm::{Asm, Label};
use std::alloc::{AllocError, Global};

/// The labels and contexts that a unit's code needs.
pub struct Outline {
    /// The number of its first procedure in the program. The others follow.
    pub first: usize,
    /// What it names that is not in its code. The label of each has the number of its place here.
    pub references: Items<Reference>,
    /// For each of its procedures.
    pub contexts: Items<Context>,
    /// Where the code of each of them begins.
    pub entries: Items<Label>,
    pub targets: Targets,
}

/// In one place, so that whoever lets one go has one call to prove.
impl Drop for Outline {
    fn drop(self) {
        let Self {
            first: _,
            references: _,
            contexts: _,
            entries: _,
            targets: _,
        } = self;
    }
}

/// The labels of procedures: those of a unit, from one on, are in its code. An error is want of memory.
fn with_own(
    alloc: Global,
    first: usize,
    entries: &[Label],
    others: &[Option<Label>],
) -> Result<Items<Option<Label>>, AllocError>
    requires { first + length entries.now ≤ length others.now }
    ensures { IfOk result (λ labels. labels ≡ with_own first entries.now others.now) }
{
    let mut labels = Items::from_slice(alloc, &others[..first])?;
    for entry in entries {
        labels.push(Some(*entry))?;
    }
    labels.append(Items::from_slice(alloc, &others[first + entries.len()..])?)?;
    Ok(labels)
}

/// Makes the labels of a unit that has `count` procedures of a program, from one on: first those of what it names that is not in its code, as symbols; then that of
/// the stack's limit, that of the call of the client, and those of each of its own procedures. An error is want of memory.
pub fn make_outline(
    asm: &mut Asm,
    alloc: Global,
    program: &Program,
    graphs: &[Graph],
    places: &[ProcedurePlaces],
    first: usize,
    count: usize,
) -> Result<Outline, AllocError>
    requires empty { asm.old.labels ≡ [] }
    requires graphs { length graphs.now ≡ length program.now.procs }
    requires places { length places.now ≡ length program.now.procs }
    requires within { first + count ≤ length program.now.procs }
    requires few { first_label (symbol_count program.now + 2) (share first count program.now.procs) (share first count graphs.now) count ≤ 2 ^ 32 }
    ensures made { IfOk result (λ o. IsOutlineIn program.now graphs.now places.now o) }
    ensures first { IfOk result (λ o. o.first ≡ first) }
    ensures count { IfOk result (λ o. length o.contexts ≡ count) }
    ensures labels { IfOk result (λ o. asm.new.labels ≡ symbol_labels o.references
        ++ replicate (first_label 2 (share first count program.now.procs) (share first count graphs.now) count) (Inner false)) }
    ensures parts { asm.new.parts ≡ asm.old.parts }
{
    let end = first + count;
    let own_graphs = &graphs[first..end];
    let symbols = make_symbols(asm, alloc, program, own_graphs, first, count)?;
    let limit = label(asm)?;
    let client = label(asm)?;
    let contexts = contexts(
        asm,
        alloc,
        &program.procs.as_slice()[first..end],
        own_graphs,
        &places[first..end],
    )?;
    let entries = entry_labels(alloc, contexts.as_slice(), own_graphs)?;
    let procedures = with_own(
        alloc,
        first,
        entries.as_slice(),
        symbols.procedures.as_slice(),
    )?;
    let Symbols {
        references,
        registers,
        data_labels,
        ..
    } = symbols;
    let targets = Targets {
        procedures,
        data_labels,
        registers,
        limit,
        client,
    };
    Ok(Outline {
        first,
        references,
        contexts,
        entries,
        targets,
    })
}
