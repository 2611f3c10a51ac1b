//! The data of a program, laid out.

ghost use Rattle.std.specs.Prelude.{◌≡◌, ◌+◌, length, IfOk};
ghost use Rattle.std.specs.List.{All};
ghost use Rattle.rv_table.specs.Memory.{data_base};
ghost use Rattle.cmm_program.specs.declared.placement.Placement.{Placement};
ghost use Rattle.cmm_program.specs.Layout.{data_bytes, end_before, label_addresses};
ghost use Rattle.cmm_data.specs.Conditions.{CanBeLaidOut};
ghost use Rattle.cmm_data.specs.Filling.{AreApart, IsWaiting, code_in, filled, fix_procedures, procedure_addresses};

use crate::fix::Fix;
use crate::image::image_of;
use crate::labels::{addresses_of, ends_of};
use cmm_items::Items;
use cmm_program::Program;
use std::alloc::{AllocError, Global};

/// The data of a program.
#[derive(Drop)]
pub struct DataImage {
    /// The bytes from the first address of data on, with the padding between. The addresses of procedures are 0.
    pub bytes: Items<u8>,
    /// The address of each data label, by the label's number.
    pub addresses: Items<u64>,
    /// Where the addresses of procedures are to be filled in, in the order of their places.
    pub fixes: Items<Fix>,
}

/// Lays out the data of a program (C-- Language Specification 2.0, data sections), in two passes over its data and one over
/// its labels. An error is want of memory.
pub fn lay_out(alloc: Global, p: &Program) -> Result<DataImage, AllocError>
    requires { CanBeLaidOut p.now }
    ensures addresses { IfOk result (λ image. image.addresses ≡ label_addresses p.now) }
    ensures bytes { IfOk result (λ image. (placement : Placement) → filled (code_in placement) image.fixes image.bytes ≡ data_bytes p.now placement) }
    ensures size { IfOk result (λ image. data_base + length image.bytes ≡ end_before p.now (length p.now.datums)) }
    ensures procedures { IfOk result (λ image. fix_procedures image.fixes ≡ procedure_addresses p.now) }
    ensures apart { IfOk result (λ image. AreApart 0 image.fixes (length image.bytes)) }
    ensures waiting { IfOk result (λ image. All (IsWaiting image.bytes) image.fixes) }
{
    let datums = p.datums.as_slice();
    let ends = ends_of(alloc, datums)?;
    let addresses = addresses_of(alloc, p.labels.as_slice(), datums, &ends)?;
    let image = image_of(alloc, datums, &addresses)?;
    Ok(DataImage {
        bytes: Items::from_vec(image.bytes),
        addresses: Items::from_vec(addresses),
        fixes: Items::from_vec(image.fixes),
    })
}
