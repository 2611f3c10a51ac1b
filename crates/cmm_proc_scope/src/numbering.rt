//! Declarations of a procedure by their numbers.

ghost use Rattle.std.specs.Prelude.{◌≡◌, ◌+◌, map, IfOk};
ghost use Rattle.cmm_proc_scope.specs.Owned.{local_declared, local_shown, own_declared};
ghost use Rattle.cmm_proc_scope.specs.inside.Numbering.{AreNumbered};
ghost use Rattle.cmm_proc_scope.specs.inside.Counting.{count_for, counted};

use crate::own::{Local, Numbered};
use cmm_items::Items;
use cmm_symbols::Named;
use std::alloc::{AllocError, Global};

/// How many names of each sort are declared.
#[derive(Clone, Copy)]
struct Counts {
    variables: u32,
    rooms: u32,
    labels: u32,
    continuations: u32,
}

/// One more.
fn more(count: u32) -> Result<u32, AllocError>
    ensures { IfOk result (λ next. next ≡ count + 1) }
{
    match count.checked_add(1) {
        Some(next) => Ok(next),
        None => Err(AllocError),
    }
}

/// The counts with one more declaration.
fn counted<'a>(counts: Counts, local: Local<'a>) -> Result<Counts, AllocError>
    ensures { IfOk result (λ next. next ≡ counted counts (local_shown local.entry)) }
{
    match local {
        Local::Variable(_) => Ok(Counts {
            variables: more(counts.variables)?,
            ..counts
        }),
        Local::Room => Ok(Counts {
            rooms: more(counts.rooms)?,
            ..counts
        }),
        Local::Label => Ok(Counts {
            labels: more(counts.labels)?,
            ..counts
        }),
        Local::Continuation => Ok(Counts {
            continuations: more(counts.continuations)?,
            ..counts
        }),
    }
}

/// The number of the next declaration.
fn next_number<'a>(counts: Counts, local: Local<'a>) -> u32
    ensures { result ≡ count_for counts (local_shown local.entry) }
{
    match local {
        Local::Variable(_) => counts.variables,
        Local::Room => counts.rooms,
        Local::Label => counts.labels,
        Local::Continuation => counts.continuations,
    }
}

/// Declarations with their numbers. Where there are 2^32 or more of a sort, which no memory has room for, want of memory is the answer.
pub(crate) fn numbered<'a>(
    alloc: Global,
    declared: &[Named<'a, Local<'a>>],
) -> Result<Items<Named<'a, Numbered<'a>>>, AllocError>
    ensures declared { IfOk result (λ own. map own_declared own ≡ map local_declared declared.now) }
    ensures numbers { IfOk result (λ own. AreNumbered own) }
{
    let mut own = Items::new(alloc);
    let mut counts = Counts {
        variables: 0,
        rooms: 0,
        labels: 0,
        continuations: 0,
    };
    for named in declared {
        let number = next_number(counts, named.what);
        let next = counted(counts, named.what)?;
        own.push(Named {
            name: named.name,
            what: Numbered {
                local: named.what,
                number,
            },
        })?;
        counts = next;
    }
    Ok(own)
}
