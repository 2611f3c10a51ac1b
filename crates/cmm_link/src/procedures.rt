//! The rows of procedures.

ghost use Rattle.std.specs.Prelude.{◌≡◌, ◌<◌, ◌^◌, map, IfOk};
ghost use Rattle.std.specs.List.{All};
ghost use Rattle.cmm_link.specs.inside.Named.{AreShort, HasByteKind, HasShortParameters, IsNamed};
ghost use Rattle.cmm_link.specs.Rows.{procedure_rows};
ghost use Rattle.cmm_tables.specs.ProcedureRows.{continuation_rows, parameter_row, procedure_row, saved_row, stack_label_row};
ghost use Rattle.cmm_image_machine.specs.Tables.{variable_row};

use crate::names::copy;
use cmm_allocate::ProcedurePlaces;
use cmm_chain::Frame;
use cmm_image::{
    ContinuationRow, ProcRow, SavedRegister, StackLabelRow, VariableNumber, VariableRow,
};
use cmm_items::Items;
use cmm_program::{Cont, Proc, VarInfo};
use std::alloc::{AllocError, Global};

/// The registers that are saved, each with the offset of its word.
fn saved_registers(alloc: Global, saved: &[(u8, u32)]) -> Result<Items<SavedRegister>, AllocError>
    ensures { IfOk result (λ rows. rows ≡ map saved_row saved.now) }
{
    let mut rows = Items::new(alloc);
    for (register, offset) in saved {
        rows.push(SavedRegister {
            register: *register,
            offset: *offset,
        })?;
    }
    Ok(rows)
}

/// The variables of a procedure.
fn variables(alloc: Global, vars: &[VarInfo]) -> Result<Items<VariableRow>, AllocError>
    ensures rows { IfOk result (λ rows. rows ≡ map variable_row vars.now) }
    ensures named { IfOk result (λ rows. All HasByteKind rows) }
{
    let mut rows = Items::new(alloc);
    for v in vars {
        rows.push(VariableRow {
            width: v.width,
            invariant: v.invariant,
            kind: copy(&v.kind)?,
        })?;
    }
    Ok(rows)
}

/// The stackdata labels at these offsets.
fn stack_labels(alloc: Global, offsets: &[u32]) -> Result<Items<StackLabelRow>, AllocError>
    ensures { IfOk result (λ rows. rows ≡ map stack_label_row offsets.now) }
{
    let mut rows = Items::new(alloc);
    for offset in offsets {
        rows.push(StackLabelRow { offset: *offset })?;
    }
    Ok(rows)
}

/// The parameters of a continuation.
fn parameters(alloc: Global, params: &[u32]) -> Result<Items<VariableNumber>, AllocError>
    requires { All (λ v. v < 2 ^ 16) params.now }
    ensures { IfOk result (λ rows. rows ≡ map parameter_row params.now) }
{
    let mut rows = Items::new(alloc);
    for v in params {
        rows.push(VariableNumber(*v as u16))?;
    }
    Ok(rows)
}

/// The continuations of a procedure, with the offsets of their pairs and the addresses of their landings.
fn continuations(
    alloc: Global,
    conts: &[Cont],
    pairs: &[u32],
    landings: &[u64],
) -> Result<Items<ContinuationRow>, AllocError>
    requires { All HasShortParameters conts.now }
    ensures { IfOk result (λ rows. rows ≡ continuation_rows conts.now pairs.now landings.now) }
{
    let mut rows = Items::new(alloc);
    for (cont, (pair, landing)) in conts.iter().zip(pairs.iter().zip(landings)) {
        rows.push(ContinuationRow {
            pair: *pair,
            code: *landing,
            parameters: parameters(alloc, cont.params.as_slice())?,
        })?;
    }
    Ok(rows)
}

/// The row of a procedure with this frame, whose code has this address and whose continuations have these landings.
fn row(
    alloc: Global,
    q: &Proc,
    frame: &Frame,
    code: u64,
    landings: &[u64],
) -> Result<ProcRow, AllocError>
    requires { AreShort q.now }
    ensures row { IfOk result (λ row. row ≡ procedure_row q.now frame.now code landings.now) }
    ensures named { IfOk result IsNamed }
{
    Ok(ProcRow {
        code,
        name: copy(&q.name)?,
        frame: frame.size,
        return_at: Some(frame.return_at),
        saved: saved_registers(alloc, frame.saved.as_slice())?,
        variables: variables(alloc, q.vars.as_slice())?,
        stack_labels: stack_labels(alloc, frame.stack.as_slice())?,
        continuations: continuations(alloc, q.conts.as_slice(), frame.pairs.as_slice(), landings)?,
    })
}

/// The rows of procedures with these places, whose code has these addresses and whose continuations have these landings. An error is want
/// of memory.
pub(crate) fn procedure_rows(
    alloc: Global,
    procs: &[Proc],
    places: &[ProcedurePlaces],
    codes: &[u64],
    landings: &[Items<u64>],
) -> Result<Items<ProcRow>, AllocError>
    requires { All AreShort procs.now }
    ensures rows { IfOk result (λ rows. rows ≡ procedure_rows procs.now places.now codes.now landings.now) }
    ensures named { IfOk result (λ rows. All IsNamed rows) }
{
    let mut rows = Items::new(alloc);
    let found = places.iter().zip(codes.iter().zip(landings));
    for (q, (k, (code, landings))) in procs.iter().zip(found) {
        rows.push(row(alloc, q, &k.frame, *code, landings.as_slice())?)?;
    }
    Ok(rows)
}
