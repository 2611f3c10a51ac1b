//! `walk`: the walk of a program that was saved.

ghost use Rattle.std.specs.Prelude.{◌≡◌, ◌≤◌, ◌∷◌, [], ℕ, List, length, None, IfOk, IfErr, OnOk};
ghost use Rattle.cmm_image.specs.Images.{SpellsImage};
ghost use Rattle.cmm_outside.specs.Reads.{AreReadInOrder, Made};
ghost use Rattle.cmm_outside.specs.declared.storage.TheConstants.{NAME_LIMIT};
ghost use Rattle.cmm_run.specs.Outside.{Outside as Streams};
ghost use Rattle.cmm_snapshot.specs.SnapshotFormat.{taken_of};
ghost use Rattle.cmm_snapshot.specs.Snapshots.{SpellsSnapshot};
ghost use Rattle.cmm_snapshot.specs.declared.reading.TheConstants.{SNAPSHOT_LIMIT};
ghost use Rattle.cmm_work.specs.Standing.{standing};
ghost use Rattle.cmm_work.specs.Files.{HasBytes};
ghost use Rattle.cmm_work.specs.Walking.{CannotWalk, Walks};
ghost use Rattle.cmm_work.specs.Reads.{image_in, snapshot_in};
ghost use Rattle.cmm_work.specs.inside.Faults.{IsNotSnapshot};
ghost use Rattle.cmm_work.specs.Ending.{work_of};
ghost use Rattle.cmm_work.specs.Reading.{IsFileOf};

use crate::ending::Ending;
use crate::image::image_of;
use crate::reading::{FileBytes, bytes_in};
use cmm_image::{IMAGE_LIMIT, Image};
use cmm_outside::{Files, Sink};
use cmm_rules::Rule;
use cmm_run::Outcome;
use cmm_snapshot::{Halted, SNAPSHOT_LIMIT, SnapshotFault, read_snapshot};
use cmm_walk::{WalkError, write_walk};
use std::alloc::Global;

/// An image, and a program that ran it and stands still.
#[derive(Drop)]
struct Stopped {
    image: Image,
    halted: Halted,
}

/// The program whose snapshot was read from a file. The error is what the call comes to where there is none.
fn halted_of(alloc: Global, image: &Image, read: &FileBytes) -> Result<Halted, Ending<'static>>
    ensures ok { (bytes : List ℕ) → IsFileOf SNAPSHOT_LIMIT bytes read.now → IfOk result (λ h. SpellsSnapshot image.now bytes (taken_of h.regs h.memory)) }
    ensures err { (bytes : List ℕ) → IsFileOf SNAPSHOT_LIMIT bytes read.now → IfErr result (IsNotSnapshot image.now bytes) }
{
    let bytes = match read {
        FileBytes::Whole(bytes) => bytes,
        FileBytes::TooLong => {
            return Err(Ending::BadSnapshot {
                rule: Rule::SnapshotTooLong,
                offset: SNAPSHOT_LIMIT as u64,
            });
        }
    };
    match read_snapshot(alloc, image, bytes) {
        Ok(halted) => Ok(halted),
        Err(SnapshotFault::At { rule, offset }) => Err(Ending::BadSnapshot { rule, offset }),
        Err(SnapshotFault::Memory) => Err(Ending::OutOfMemory),
    }
}

/// The image in the file of this name, and the program whose snapshot is in another. The error is what the call comes to where there is none: nothing was done then but
/// to read.
fn prepare<'a, F: Files>(
    alloc: Global,
    name: &'a str,
    snapshot: &'a str,
    files: &mut F,
) -> Result<Stopped, Ending<'a>>
    requires short { length name.now ≤ NAME_LIMIT }
    requires snapshot { length snapshot.now ≤ NAME_LIMIT }
    ensures spelled { IfOk result (λ p. HasBytes (F.contents files.old) name.now (λ bytes. SpellsImage bytes p.image)) }
    ensures stopped { IfOk result (λ p. HasBytes (F.contents files.old) snapshot.now (λ bytes. SpellsSnapshot p.image bytes (taken_of p.halted.regs p.halted.memory))) }
    ensures err { (streams : Streams) → IfErr result (λ ending. CannotWalk name.now snapshot.now (work_of ending None
        (standing F.contents F.faults F.last_failed files.old streams)
        (standing F.contents F.faults F.last_failed files.new streams))) }
    ensures same { F.contents files.new ≡ F.contents files.old }
    ensures reads { Made (F.reads files.old) (F.reads files.new) (AreReadInOrder (image_in name.now ∷ snapshot_in snapshot.now ∷ [])) }
    ensures no_fault { OnOk result (F.faults files.new ≡ F.faults files.old) }
    ensures no_failed_call { OnOk result (F.last_failed files.new ≡ F.last_failed files.old) }
{
    let bytes = bytes_in(alloc, files, name, IMAGE_LIMIT as u64)?;
    let taken = bytes_in(alloc, files, snapshot, SNAPSHOT_LIMIT as u64)?;
    let image = image_of(alloc, &bytes)?;
    let halted = halted_of(alloc, &image, &taken)?;
    Ok(Stopped { image, halted })
}

/// Writes the walk of the program whose snapshot is in a file.
pub fn walk<'a, F: Files, O: Sink>(
    alloc: Global,
    name: &'a str,
    snapshot: &'a str,
    files: &mut F,
    out: &mut O,
) -> Ending<'a>
    requires short { length name.now ≤ NAME_LIMIT }
    requires snapshot { length snapshot.now ≤ NAME_LIMIT }
    ensures reads { Made (F.reads files.old) (F.reads files.new) (AreReadInOrder (image_in name.now ∷ snapshot_in snapshot.now ∷ [])) }
    ensures walks { (streams : Streams) → Walks name.now snapshot.now (work_of result None
        (standing F.contents F.faults F.last_failed files.old (record streams { output = O.taken out.old; output_faults = O.faults out.old }))
        (standing F.contents F.faults F.last_failed files.new (record streams { output = O.taken out.new; output_faults = O.faults out.new }))) }
{
    let Stopped { image, halted } = match prepare(alloc, name, snapshot, files) {
        Ok(stopped) => stopped,
        Err(ending) => return ending,
    };
    match write_walk(&image, halted.registers(), halted.memory(), out) {
        Ok(()) => Ending::Walked,
        Err(WalkError::Torn(torn)) => Ending::Ran(Outcome::Torn(torn)),
        Err(WalkError::Failed) => Ending::OutputFault,
    }
}
