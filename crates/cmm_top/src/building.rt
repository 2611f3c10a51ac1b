//! `build`: units are built, and their image is written.

ghost use Rattle.std.specs.Prelude.{◌≡◌, ◌≤◌, ◌<◌, length, map, None, IfOk, IfErr, OnOk};
ghost use Rattle.std.specs.List.{All};
ghost use Rattle.cmm_compile.specs.Agreement.{Agree};
ghost use Rattle.cmm_outside.specs.Reads.{AreReadInOrder, Made};
ghost use Rattle.cmm_outside.specs.declared.storage.TheConstants.{NAME_LIMIT};
ghost use Rattle.cmm_run.specs.Outside.{Outside as Streams};
ghost use Rattle.cmm_top.specs.Building.{Builds};
ghost use Rattle.cmm_work.specs.Standing.{standing};
ghost use Rattle.cmm_work.specs.Files.{HasUnits};
ghost use Rattle.cmm_top.specs.Units.{HaveNoImage};
ghost use Rattle.cmm_top.specs.Reads.{units_in};
ghost use Rattle.cmm_work.specs.Ending.{work_of};

use crate::sources::sources_of;
use crate::units::built;
use cmm_image::{Image, write_image};
use cmm_outside::{Failed, Files, write_file};
use cmm_work::Ending;
use std::alloc::{AllocError, Global};

/// The image of the units in files of these names. The error is what the call comes to where there is none: nothing was done then but to read.
fn image_in<'a, F: Files>(
    alloc: Global,
    files: &mut F,
    names: &[&'a str],
) -> Result<Image, Ending<'a>>
    requires short { All (λ name. length name.now ≤ NAME_LIMIT) names.now }
    requires some { 0 < length names.now }
    ensures ok { IfOk result (λ image. HasUnits (F.contents files.old) (map (λ name. name.now) names.now) (λ units. Agree units image)) }
    ensures err { (streams : Streams) → IfErr result (λ ending. HaveNoImage (map (λ name. name.now) names.now) (map (λ name. name.now) names.now) (work_of ending None
        (standing F.contents F.faults F.last_failed files.old streams)
        (standing F.contents F.faults F.last_failed files.new streams))) }
    ensures same { F.contents files.new ≡ F.contents files.old }
    ensures reads { Made (F.reads files.old) (F.reads files.new) (AreReadInOrder (units_in (map (λ name. name.now) names.now))) }
    ensures no_fault { OnOk result (F.faults files.new ≡ F.faults files.old) }
    ensures no_failed_call { OnOk result (F.last_failed files.new ≡ F.last_failed files.old) }
{
    let sources = sources_of(alloc, files, names)?;
    let image = built(alloc, names, &sources)?;
    Ok(image)
}

/// What the units in files of these names come to: they are read and built, and their image is written to the file of another name.
pub(crate) fn build<'a, F: Files>(
    alloc: Global,
    names: &[&'a str],
    name: &'a str,
    files: &mut F,
) -> Ending<'a>
    requires short { All (λ name. length name.now ≤ NAME_LIMIT) names.now }
    requires some { 0 < length names.now }
    requires name { length name.now ≤ NAME_LIMIT }
    ensures reads { Made (F.reads files.old) (F.reads files.new) (AreReadInOrder (units_in (map (λ name. name.now) names.now))) }
    ensures builds { (streams : Streams) → Builds (map (λ name. name.now) names.now) name.now (work_of result None
        (standing F.contents F.faults F.last_failed files.old streams)
        (standing F.contents F.faults F.last_failed files.new streams)) }
{
    let image = match image_in(alloc, files, names) {
        Ok(image) => image,
        Err(ending) => return ending,
    };
    let bytes = match write_image(alloc, &image) {
        Ok(bytes) => bytes,
        Err(AllocError) => return Ending::OutOfMemory,
    };
    match write_file(files, name, &bytes) {
        Ok(()) => Ending::Written,
        Err(Failed) => Ending::FileFault(name),
    }
}
