//! `elf` and `migrate`: an image is read, and is written in another form.

ghost use Rattle.std.specs.Prelude.{◌≡◌, ◌≤◌, ◌∷◌, [], ℕ, List, length, None, IfOk, IfErr, OnOk};
ghost use Rattle.cmm_image.specs.Migrating.{IsFault, IsMigrated};
ghost use Rattle.cmm_image.specs.declared.reading.TheConstants.{IMAGE_LIMIT};
ghost use Rattle.cmm_outside.specs.Reads.{AreReadInOrder, Made};
ghost use Rattle.cmm_outside.specs.declared.storage.TheConstants.{NAME_LIMIT};
ghost use Rattle.cmm_run.specs.Outside.{Outside as Streams};
ghost use Rattle.cmm_work.specs.Standing.{standing};
ghost use Rattle.cmm_work.specs.Converting.{HoldsNone, IsElfOf, IsMadeOf, Makes};
ghost use Rattle.cmm_work.specs.Reads.{image_in as wanted_image};
ghost use Rattle.cmm_work.specs.inside.Faults.{IsFaultIn, IsNotImage};
ghost use Rattle.cmm_work.specs.Ending.{work_of};
ghost use Rattle.cmm_work.specs.Forms.{FaultFor, IsFormOf};
ghost use Rattle.cmm_work.specs.Reading.{IsFileOf};

use crate::ending::Ending;
use crate::image::image_of;
use crate::reading::{FileBytes, bytes_in};
use cmm_elf::write_elf;
use cmm_image::{IMAGE_LIMIT, ImageFault, migrate};
use cmm_outside::{Failed, Files, write_file};
use cmm_rules::Rule;
use std::alloc::{AllocError, Global};

/// A form in which an image is written.
#[derive(Clone, Copy)]
pub enum Form {
    /// Its ELF file.
    Elf,
    /// The image in version 2, of one in version 1.
    SecondVersion,
}

/// The ELF file of the image in a file as it was read. The error is what the call comes to where there is none.
fn elf_of(alloc: Global, read: &FileBytes) -> Result<Vec<u8>, Ending<'static>>
    ensures ok { (bytes : List ℕ) → IsFileOf IMAGE_LIMIT bytes read.now → IfOk result (λ made. IsElfOf bytes made.items) }
    ensures err { (bytes : List ℕ) → IsFileOf IMAGE_LIMIT bytes read.now → IfErr result (IsNotImage bytes) }
{
    let image = image_of(alloc, read)?;
    match write_elf(alloc, &image) {
        Ok(bytes) => Ok(bytes),
        Err(AllocError) => Err(Ending::OutOfMemory),
    }
}

/// The image in a file as it was read, in version 2. The error is what the call comes to where there is none.
fn second_of(alloc: Global, read: &FileBytes) -> Result<Vec<u8>, Ending<'static>>
    ensures ok { (bytes : List ℕ) → IsFileOf IMAGE_LIMIT bytes read.now → IfOk result (λ made. IsMigrated bytes made.items) }
    ensures err { (bytes : List ℕ) → IsFileOf IMAGE_LIMIT bytes read.now → IfErr result (IsFaultIn IsFault bytes) }
{
    let bytes = match read {
        FileBytes::Whole(bytes) => bytes,
        FileBytes::TooLong => {
            return Err(Ending::BadImage {
                rule: Rule::ImageTooLong,
                offset: IMAGE_LIMIT as u64,
            });
        }
    };
    match migrate(alloc, bytes) {
        Ok(migrated) => Ok(migrated),
        Err(ImageFault::At { rule, offset }) => Err(Ending::BadImage { rule, offset }),
        Err(ImageFault::Memory) => Err(Ending::OutOfMemory),
    }
}

/// The image in a file as it was read, in a form. The error is what the call comes to where there is none.
fn made_of(alloc: Global, form: Form, read: &FileBytes) -> Result<Vec<u8>, Ending<'static>>
    ensures ok { (bytes : List ℕ) → IsFileOf IMAGE_LIMIT bytes read.now → IfOk result (λ made. IsFormOf form bytes made.items) }
    ensures err { (bytes : List ℕ) → IsFileOf IMAGE_LIMIT bytes read.now → IfErr result (IsFaultIn (FaultFor form) bytes) }
{
    match form {
        Form::Elf => elf_of(alloc, read),
        Form::SecondVersion => second_of(alloc, read),
    }
}

/// The image in the file of this name, in a form. The error is what the call comes to where there is none: nothing was done then but to read.
fn made_in<'a, F: Files>(
    alloc: Global,
    form: Form,
    name: &'a str,
    files: &mut F,
) -> Result<Vec<u8>, Ending<'a>>
    requires short { length name.now ≤ NAME_LIMIT }
    ensures made { IfOk result (λ made. IsMadeOf (IsFormOf form) (F.contents files.old) name.now made.items) }
    ensures err { (streams : Streams) → IfErr result (λ ending. HoldsNone (FaultFor form) name.now (work_of ending None
        (standing F.contents F.faults F.last_failed files.old streams)
        (standing F.contents F.faults F.last_failed files.new streams))) }
    ensures same { F.contents files.new ≡ F.contents files.old }
    ensures reads { Made (F.reads files.old) (F.reads files.new) (AreReadInOrder (wanted_image name.now ∷ [])) }
    ensures no_fault { OnOk result (F.faults files.new ≡ F.faults files.old) }
    ensures no_failed_call { OnOk result (F.last_failed files.new ≡ F.last_failed files.old) }
{
    let bytes = bytes_in(alloc, files, name, IMAGE_LIMIT as u64)?;
    let made = made_of(alloc, form, &bytes)?;
    Ok(made)
}

/// What the image in the file of this name comes to: it is read, and is written to the other in this form.
pub fn convert<'a, F: Files>(
    alloc: Global,
    form: Form,
    name: &'a str,
    file: &'a str,
    files: &mut F,
) -> Ending<'a>
    requires short { length name.now ≤ NAME_LIMIT }
    requires file { length file.now ≤ NAME_LIMIT }
    ensures reads { Made (F.reads files.old) (F.reads files.new) (AreReadInOrder (wanted_image name.now ∷ [])) }
    ensures makes { (streams : Streams) → Makes (IsFormOf form) (FaultFor form) name.now file.now (work_of result None
        (standing F.contents F.faults F.last_failed files.old streams)
        (standing F.contents F.faults F.last_failed files.new streams)) }
{
    let made = match made_in(alloc, form, name, files) {
        Ok(made) => made,
        Err(ending) => return ending,
    };
    match write_file(files, file, &made) {
        Ok(()) => Ending::Written,
        Err(Failed) => Ending::FileFault(file),
    }
}
