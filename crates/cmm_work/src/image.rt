//! Images that were read from their files.

ghost use Rattle.std.specs.Prelude.{ℕ, List, IfOk, IfErr};
ghost use Rattle.cmm_image.specs.Images.{SpellsImage};
ghost use Rattle.cmm_image.specs.declared.reading.TheConstants.{IMAGE_LIMIT};
ghost use Rattle.cmm_work.specs.inside.Faults.{IsNotImage};
ghost use Rattle.cmm_work.specs.Reading.{IsFileOf};

use crate::ending::Ending;
use crate::reading::FileBytes;
use cmm_image::{IMAGE_LIMIT, Image, ImageFault, read_image};
use cmm_rules::Rule;
use std::alloc::Global;

/// The image in a file as it was read. The error is what the call comes to where there is none.
pub(crate) fn image_of(alloc: Global, read: &FileBytes) -> Result<Image, Ending<'static>>
    ensures ok { (bytes : List ℕ) → IsFileOf IMAGE_LIMIT bytes read.now → IfOk result (SpellsImage bytes) }
    ensures err { (bytes : List ℕ) → IsFileOf IMAGE_LIMIT bytes read.now → IfErr result (IsNotImage bytes) }
{
    let bytes = match read {
        FileBytes::Whole(bytes) => bytes,
        FileBytes::TooLong => {
            return Err(Ending::BadImage {
                rule: Rule::ImageTooLong,
                offset: IMAGE_LIMIT as u64,
            });
        }
    };
    match read_image(alloc, bytes) {
        Ok(image) => Ok(image),
        Err(ImageFault::At { rule, offset }) => Err(Ending::BadImage { rule, offset }),
        Err(ImageFault::Memory) => Err(Ending::OutOfMemory),
    }
}
