//! `migrate`: from the bytes of an image in version 1 to those of version 2.

ghost use Rattle.std.specs.Prelude.{◌≡◌, ℕ, List, IfOk, IfErr};
ghost use Rattle.cmm_rules.specs.declared.rule.Rule.{Rule};
ghost use Rattle.cmm_image.specs.Images.{IsImage, SpellsImage};
ghost use Rattle.cmm_image.specs.Migrating.{IsFault, IsFaultOrMemory, IsMigrated, IsNotMigratedFor, IsWantOfMemory, MigrationFaultAt, in_version};

use crate::differing::first_difference;
use crate::fault::ImageFault;
use crate::header::SECOND_VERSION;
use crate::offset::place_offset;
use crate::parts::ImageParts;
use crate::reading::{IMAGE_LIMIT, read_image};
use crate::writing::put_image;
use cmm_rules::Rule;
use std::alloc::Global;

/// The offset at which an image's version stands.
const VERSION_OFFSET: u64 = 4;

/// The bytes of version 2 of the image that bytes of version 1 spell: it does the same, and has the same walks, since nothing of that looks
/// at the version. Bytes that spell no image are refused as `read_image` refuses them; then an image of version 2, at its version; then one in
/// which a variable has two places in its procedure, at the first place that differs from an earlier one; and then one that would have more
/// than `IMAGE_LIMIT` bytes, at the first byte too many.
pub fn migrate(alloc: Global, bytes: &[u8]) -> Result<Vec<u8>, ImageFault>
    ensures ok { IfOk result (λ migrated. IsMigrated bytes.now migrated.items) }
    // What can be migrated is, unless memory runs out.
    ensures only { (to : List ℕ) → IsMigrated bytes.now to → IfOk result (λ migrated. migrated.items ≡ to) × IfErr result IsWantOfMemory }
    ensures err { IfErr result (MigrationFaultAt bytes.now) }
    // Bytes with a fault are refused for it, unless memory runs out.
    ensures refused { (rule : Rule) (offset : ℕ) → IsFault bytes.now rule offset → IfOk result (λ migrated. ⊥) × IfErr result (IsFaultOrMemory rule offset) }
{
    migrated(alloc, bytes)
}

/// What `migrate` answers.
fn migrated(alloc: Global, bytes: &[u8]) -> Result<Vec<u8>, ImageFault>
    ensures ok { IfOk result (λ migrated. IsMigrated bytes.now migrated.items) }
    ensures err { IfErr result (MigrationFaultAt bytes.now) }
{
    let image = read_image(alloc, bytes)?;
    in_second_version(alloc, image.into_parts())
}

/// The bytes of version 2 of an image, or why it is not migrated.
fn in_second_version(alloc: Global, image: ImageParts) -> Result<Vec<u8>, ImageFault>
    requires { IsImage image }
    ensures version { IfOk result (λ bytes. image.version ≡ 1) }
    ensures spelled { IfOk result (λ bytes. SpellsImage bytes.items (in_version 2 image)) }
    ensures err { IfErr result (IsNotMigratedFor image) }
{
    if image.version == SECOND_VERSION {
        return Err(ImageFault::At {
            rule: Rule::OtherImageVersion,
            offset: VERSION_OFFSET,
        });
    }
    if let Some(at) = first_difference(alloc, image.procs.len(), image.sites.as_slice())? {
        return Err(ImageFault::At {
            rule: Rule::TwoPlaces,
            offset: place_offset(alloc, &image, at)?,
        });
    }
    let second = ImageParts {
        version: SECOND_VERSION,
        ..image
    };
    let mut bytes = Vec::new(alloc);
    put_image(&mut bytes, &second)?;
    if bytes.len() > IMAGE_LIMIT {
        return Err(ImageFault::At {
            rule: Rule::ImageTooLong,
            offset: IMAGE_LIMIT as u64,
        });
    }
    Ok(bytes)
}
