//! The rows of global registers.

ghost use Rattle.std.specs.Prelude.{◌≡◌, map, IfOk};
ghost use Rattle.std.specs.List.{All};
ghost use Rattle.cmm_image_machine.specs.Tables.{global_row};
ghost use Rattle.cmm_link.specs.inside.Named.{IsNamedGlobal};

use crate::names::copy;
use cmm_image::GlobalRow;
use cmm_items::Items;
use cmm_program::Global as Register;
use std::alloc::{AllocError, Global};

/// The rows of global registers, in their order. An error is want of memory.
pub(crate) fn global_rows(
    alloc: Global,
    globals: &[Register],
) -> Result<Items<GlobalRow>, AllocError>
    ensures rows { IfOk result (λ rows. rows ≡ map global_row globals.now) }
    ensures named { IfOk result (λ rows. All IsNamedGlobal rows) }
{
    let mut rows = Items::new(alloc);
    for register in globals {
        rows.push(GlobalRow {
            width: register.width,
            name: copy(&register.name)?,
        })?;
    }
    Ok(rows)
}
