//! A procedure of a program, from its tree (C-- Language Specification 2.0, procedures).

ghost use Rattle.std.specs.Prelude.{◌≡◌, ◌<◌, ◌^◌, List, length, map, IfOk};
ghost use Rattle.cmm_static_semantics.specs.Items.{SpanTree};
ghost use Rattle.cmm_lower.specs.Fitting.{ProcFits};
ghost use Rattle.cmm_elaboration.specs.Procedures as meaning;
ghost use Rattle.cmm_elaboration.specs.Sites.{innermost, span_value};
ghost use Rattle.cmm_typing.specs.Fitting.{AreWords};

use crate::bodies::statements_of;
use crate::spans::SpanValue;
use cmm_ast::Formal;
use cmm_items::Items;
use cmm_lower_parts::{conts_of, stack_items, variable_infos};
use cmm_proc_scope::ProcNames;
use cmm_program::Proc;
use cmm_typing::Names;
use std::alloc::{AllocError, Global};

/// How many formals there are. What is 2^32 or more is given as 2^32 - 1.
fn formal_count(formals: &[Formal]) -> u32
    ensures { length formals.now < 2 ^ 32 → result ≡ length formals.now }
{
    u32::try_from(formals.len()).unwrap_or(u32::MAX)
}

/// The procedure of a unit that a tree means, among the names of the unit, with the spans in force around it. Fails only for want of memory.
pub fn procedure_of<N: Names>(
    alloc: Global,
    outer: &N,
    unit: u32,
    around: &[SpanValue],
    own: &ProcNames<'_>,
) -> Result<Proc, AllocError>
    requires { AreWords (N.senses outer.now) }
    ensures { IfOk result (λ made. (spans : List SpanTree) → around.now ≡ innermost (map (span_value (N.senses outer.now)) spans) →
        ProcFits (N.senses outer.now) own.now → made ≡ meaning.procedure_of (N.senses outer.now) unit spans own.now) }
{
    let names = own.within(outer);
    let proc = own.tree();
    let mut sites = Items::new(alloc);
    let body = statements_of(
        alloc,
        &names,
        proc.body.parts.as_slice(),
        around,
        &mut sites,
    )?;
    let vars = variable_infos(alloc, &names, own)?;
    let stack = stack_items(alloc, &names, own)?;
    let conts = conts_of(alloc, &names, own)?;
    let name = proc.name.name.clone()?;
    Ok(Proc {
        name,
        unit,
        tokens: proc.past.saturating_sub(proc.name.token),
        formals: formal_count(proc.formals.as_slice()),
        vars,
        stack,
        conts,
        sites,
        body,
    })
}
