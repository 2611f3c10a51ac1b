//! `segments`: an ELF file is read, and its segments are told.

ghost use Rattle.std.specs.Prelude.{◌≡◌, ◌≤◌, ◌∷◌, [], ℕ, List, length, None, IfOk, IfErr, OnOk};
ghost use Rattle.cmm_elf.specs.ElfFiles.{SpellsElf};
ghost use Rattle.cmm_elf.specs.declared.reading.TheConstants.{ELF_LIMIT};
ghost use Rattle.cmm_outside.specs.Reads.{AreReadInOrder, Made};
ghost use Rattle.cmm_outside.specs.declared.storage.TheConstants.{NAME_LIMIT};
ghost use Rattle.cmm_run.specs.Outside.{Outside as Streams};
ghost use Rattle.cmm_work.specs.Standing.{standing};
ghost use Rattle.cmm_work.specs.Files.{HasBytes};
ghost use Rattle.cmm_work.specs.Inspecting.{CannotInspect, Inspects};
ghost use Rattle.cmm_work.specs.Reads.{elf_file_in};
ghost use Rattle.cmm_work.specs.inside.Faults.{IsNotElf};
ghost use Rattle.cmm_work.specs.Ending.{work_of};
ghost use Rattle.cmm_work.specs.Reading.{IsFileOf};

use crate::ending::Ending;
use crate::reading::{FileBytes, bytes_in};
use cmm_elf::{ELF_LIMIT, ElfFault, Segments, read_elf};
use cmm_outside::Files;
use cmm_rules::Rule;
use std::alloc::Global;

/// The segments of an ELF file as it was read. The error is what the call comes to where it is none.
fn segments_of(alloc: Global, read: &FileBytes) -> Result<Segments, Ending<'static>>
    ensures ok { (bytes : List ℕ) → IsFileOf ELF_LIMIT bytes read.now → IfOk result (SpellsElf bytes) }
    ensures err { (bytes : List ℕ) → IsFileOf ELF_LIMIT bytes read.now → IfErr result (IsNotElf bytes) }
{
    let bytes = match read {
        FileBytes::Whole(bytes) => bytes,
        FileBytes::TooLong => {
            return Err(Ending::BadElf {
                rule: Rule::ElfFileTooLong,
                offset: ELF_LIMIT as u64,
            });
        }
    };
    match read_elf(alloc, bytes) {
        Ok(segments) => Ok(segments),
        Err(ElfFault::At { rule, offset }) => Err(Ending::BadElf { rule, offset }),
        Err(ElfFault::Memory) => Err(Ending::OutOfMemory),
    }
}

/// The segments of the ELF file of this name. The error is what the call comes to where it is none: nothing was done then but to read.
fn segments_in<'a, F: Files>(
    alloc: Global,
    name: &'a str,
    files: &mut F,
) -> Result<Segments, Ending<'a>>
    requires short { length name.now ≤ NAME_LIMIT }
    ensures spelled { IfOk result (λ segments. HasBytes (F.contents files.old) name.now (λ bytes. SpellsElf bytes segments)) }
    ensures err { (streams : Streams) → IfErr result (λ ending. CannotInspect name.now (work_of ending None
        (standing F.contents F.faults F.last_failed files.old streams)
        (standing F.contents F.faults F.last_failed files.new streams))) }
    ensures same { F.contents files.new ≡ F.contents files.old }
    ensures reads { Made (F.reads files.old) (F.reads files.new) (AreReadInOrder (elf_file_in name.now ∷ [])) }
    ensures no_fault { OnOk result (F.faults files.new ≡ F.faults files.old) }
    ensures no_failed_call { OnOk result (F.last_failed files.new ≡ F.last_failed files.old) }
{
    let bytes = bytes_in(alloc, files, name, ELF_LIMIT as u64)?;
    let segments = segments_of(alloc, &bytes)?;
    Ok(segments)
}

/// What the ELF file of this name comes to: it is read, and its segments are told.
pub fn inspect<'a, F: Files>(alloc: Global, name: &'a str, files: &mut F) -> Ending<'a>
    requires short { length name.now ≤ NAME_LIMIT }
    ensures reads { Made (F.reads files.old) (F.reads files.new) (AreReadInOrder (elf_file_in name.now ∷ [])) }
    ensures inspects { (streams : Streams) → Inspects name.now (work_of result None
        (standing F.contents F.faults F.last_failed files.old streams)
        (standing F.contents F.faults F.last_failed files.new streams)) }
{
    match segments_in(alloc, name, files) {
        Ok(segments) => Ending::Inspected {
            code: segments.code.len() as u64,
            initial: segments.initial.len() as u64,
            start: segments.entry,
        },
        Err(ending) => ending,
    }
}
