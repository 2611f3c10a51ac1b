//! The lines of activations.
ghost use Rattle.std.specs.Prelude.{◌≡◌, ◌<◌, length, slice_get, Some, flat_map};
ghost use Rattle.cmm_outside.specs.Output.{WritesAll};
ghost use Rattle.cmm_script.specs.Lines.{at_line};
ghost use Rattle.cmm_script.specs.Walk.{Shown, activation_text, variable_lines};
ghost use Rattle.cmm_image_machine.specs.Walks.{element_shown};
ghost use Rattle.cmm_walk.specs.Activations.{Fits, IsIn, element_of};
ghost use Rattle.rv_memory.specs.Regions.{region_of};
ghost use Rattle.rv_memory.specs.States.{state_of};
ghost use Rattle.cmm_walk.specs.Shown.{Shows, spans_of};
ghost use Rattle.cmm_walk.specs.inside.Lines.{heading, shown_of, spanned, variable_text};

use crate::activation::Activation;
use crate::rows::{procedure_of, site_at};
use crate::variable::{NoVar, Var, local_var, var_count};
use cmm_image::{Image, SpanRow, VariableRow};
use cmm_outside::{Failed, Sink};
use cmm_report::{Part, write_parts};
use rv_memory::Memory;
use rv_table::Regs;

/// Writes the lines of an activation, which has this number in its walk.
pub(crate) fn put_activation<E: Sink>(
    to: &mut E,
    number: u64,
    a: &Activation,
    i: &Image,
    r: &Regs,
    m: &Memory,
) -> Result<(), Failed>
    requires { Fits i.now (region_of m.now) a.now }
    ensures { WritesAll E.taken E.faults to.old to.new (activation_text number (element_shown (state_of r.now m.now) (element_of i.now a.now))) result }
{
    put_heading(to, number, a, i)?;
    put_spans(to, site_at(i, a.site).spans.as_slice())?;
    put_variables(to, a, i, r, m)
}

/// Writes the first line of an activation: its number, its procedure and its site.
fn put_heading<E: Sink>(to: &mut E, number: u64, a: &Activation, i: &Image) -> Result<(), Failed>
    requires { IsIn i.now a.now }
    ensures { WritesAll E.taken E.faults to.old to.new (heading number (element_of i.now a.now)) result }
{
    let site = site_at(i, a.site);
    let procedure = procedure_of(a, i);
    write_parts(
        to,
        &[
            Part::Text(b"activation "),
            Part::Number(number),
            Part::Text(b" "),
            Part::Text(procedure.name.as_bytes()),
            Part::Text(b" site "),
            Part::Number(u64::from(site.number)),
            Part::Text(b"\n"),
        ],
    )
}

/// Writes a line for each span.
fn put_spans<E: Sink>(to: &mut E, spans: &[SpanRow]) -> Result<(), Failed>
    ensures { WritesAll E.taken E.faults to.old to.new (flat_map spanned spans.now) result }
{
    for span in spans {
        put_span(to, span)?;
    }
    Ok(())
}

/// Writes the line of a span.
fn put_span<E: Sink>(to: &mut E, span: &SpanRow) -> Result<(), Failed>
    ensures { WritesAll E.taken E.faults to.old to.new (spanned span.now) result }
{
    write_parts(
        to,
        &[
            Part::Text(b"span "),
            Part::Number(span.token),
            Part::Text(b" "),
            Part::Number(span.value),
            Part::Text(b"\n"),
        ],
    )
}

/// Writes a line for each variable of an activation.
fn put_variables<E: Sink>(
    to: &mut E,
    a: &Activation,
    i: &Image,
    r: &Regs,
    m: &Memory,
) -> Result<(), Failed>
    requires { Fits i.now (region_of m.now) a.now }
    ensures { WritesAll E.taken E.faults to.old to.new (variable_lines 0 (element_shown (state_of r.now m.now) (element_of i.now a.now)).variables) result }
{
    for n in 0..var_count(a, i) {
        put_variable_of(to, a, i, r, m, n)?;
    }
    Ok(())
}

/// Writes the line of a variable of an activation.
fn put_variable_of<E: Sink>(
    to: &mut E,
    a: &Activation,
    i: &Image,
    r: &Regs,
    m: &Memory,
    n: u32,
) -> Result<(), Failed>
    requires fits { Fits i.now (region_of m.now) a.now }
    requires there { n < length (element_of i.now a.now).procedure.variables }
    ensures { (v : Shown) → slice_get (element_shown (state_of r.now m.now) (element_of i.now a.now)).variables n ≡ Some v →
        WritesAll E.taken E.faults to.old to.new (variable_text n v) result }
{
    match procedure_of(a, i).variables.get(n as usize) {
        Some(row) => match local_var(a, i, r, m, n) {
            Ok(variable) => put_variable(to, n, row, &variable),
            Err(NoVar) => Ok(()),
        },
        None => Ok(()),
    }
}

/// Writes the line of a variable.
fn put_variable<E: Sink>(
    to: &mut E,
    n: u32,
    row: &VariableRow,
    variable: &Var,
) -> Result<(), Failed>
    ensures { WritesAll E.taken E.faults to.old to.new (variable_text n (shown_of row.now variable.now)) result }
{
    match *variable {
        Var::Dead => write_parts(
            to,
            &[
                Part::Text(b"var "),
                Part::Number(u64::from(n)),
                Part::Text(b" bits"),
                Part::Number(row.width.bits()),
                Part::Text(b" \""),
                Part::Kind(row.kind.as_bytes()),
                Part::Text(b"\" dead\n"),
            ],
        ),
        Var::Live { value, .. } => write_parts(
            to,
            &[
                Part::Text(b"var "),
                Part::Number(u64::from(n)),
                Part::Text(b" bits"),
                Part::Number(row.width.bits()),
                Part::Text(b" \""),
                Part::Kind(row.kind.as_bytes()),
                Part::Text(b"\" "),
                Part::Number(value),
                Part::Text(b"\n"),
            ],
        ),
    }
}
