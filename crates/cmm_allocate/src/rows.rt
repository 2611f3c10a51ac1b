//! The rows of a placement, from the frames that were laid.

ghost use Rattle.std.specs.Prelude.{◌≡◌, IfOk};
ghost use Rattle.cmm_located.specs.Layouts.{row_with};
ghost use Rattle.cmm_allocate.specs.Placing.{placement_rows};

use crate::procedure::ProcedurePlaces;
use cmm_items::Items;
use cmm_program::{PlaceRow, Placement};
use std::alloc::{AllocError, Global};

/// The row of a procedure whose code stands at an address.
fn row(alloc: Global, places: &ProcedurePlaces, code: u64) -> Result<PlaceRow, AllocError>
    ensures { IfOk result (λ row. row ≡ row_with code places.now.frame) }
{
    Ok(PlaceRow {
        code,
        frame: places.frame.size,
        pairs: Items::from_slice(alloc, places.frame.pairs.as_slice())?,
        stack: Items::from_slice(alloc, places.frame.stack.as_slice())?,
    })
}

/// The placement of a program whose procedures have these places, and their code at these addresses. An error is want of memory.
pub fn placement(
    alloc: Global,
    found: &[ProcedurePlaces],
    codes: &[u64],
) -> Result<Placement, AllocError>
    ensures { IfOk result (λ placement. placement.rows ≡ placement_rows found.now codes.now) }
{
    let mut rows = Items::new(alloc);
    for (places, code) in found.iter().zip(codes) {
        rows.push(row(alloc, places, *code)?)?;
    }
    Ok(Placement { rows })
}
