//! The placement that an image shows.

ghost use Rattle.std.specs.Prelude.{◌≡◌, map, IfOk};
ghost use Rattle.cmm_image_machine.specs.Tables.{place_row_of, placement_of};

use cmm_image::{ContinuationRow, Image, ProcRow, StackLabelRow};
use cmm_items::Items;
use cmm_program::{PlaceRow, Placement};
use std::alloc::{AllocError, Global};

/// The offsets of the pairs of continuations.
fn pairs(alloc: Global, continuations: &[ContinuationRow]) -> Result<Items<u32>, AllocError>
    ensures { IfOk result (λ pairs. pairs ≡ map (λ c. c.pair) continuations.now) }
{
    Ok(Items::from_vec(continuations.iter().map(|c| c.pair).collect(alloc)?))
}

/// The offsets of stackdata labels.
fn offsets(alloc: Global, labels: &[StackLabelRow]) -> Result<Items<u32>, AllocError>
    ensures { IfOk result (λ offsets. offsets ≡ map (λ l. l.offset) labels.now) }
{
    Ok(Items::from_vec(labels.iter().map(|l| l.offset).collect(alloc)?))
}

/// Where the code of a procedure and the parts of its frames lie.
fn row(alloc: Global, procedure: &ProcRow) -> Result<PlaceRow, AllocError>
    ensures { IfOk result (λ row. row ≡ place_row_of procedure.now) }
{
    Ok(PlaceRow {
        code: procedure.code,
        frame: procedure.frame,
        pairs: pairs(alloc, procedure.continuations.as_slice())?,
        stack: offsets(alloc, procedure.stack_labels.as_slice())?,
    })
}

/// The placement that an image shows: where the code of each procedure and the parts of its frames lie. An error is want of memory.
pub fn placement(alloc: Global, image: &Image) -> Result<Placement, AllocError>
    ensures { IfOk result (λ placement. placement ≡ placement_of image.now) }
{
    let mut rows = Items::new(alloc);
    for procedure in image.parts().procs.as_slice() {
        rows.push(row(alloc, procedure)?)?;
    }
    Ok(Placement { rows })
}
