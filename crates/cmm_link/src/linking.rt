//! The image of a program.

ghost use Rattle.std.specs.Prelude.{◌≡◌, ◌≤◌, IsTrue, IfOk, length, map};
ghost use Rattle.std.specs.List.{All};
ghost use Rattle.cmm_program.specs.InRange.{IsInRange};
ghost use Rattle.cmm_allocate.specs.Placing.{placement_rows};
ghost use Rattle.cmm_unit_code.specs.Joined.{CanBeJoined, IsTextOf};
ghost use Rattle.cmm_link.specs.Labels.{AreLabelsOf, exports, names_ascend};
ghost use Rattle.cmm_link.specs.Rows.{procedure_rows, site_rows};
ghost use Rattle.cmm_link.specs.Linked.{AreSitesOf, HaveFewSpans, HaveFrames, IsDataOf, IsImageOf, KnowLive};
ghost use Rattle.cmm_image_machine.specs.Tables.{global_row, placement_of};
ghost use Rattle.cmm_link.specs.Rooms.{HasRoom};
ghost use Rattle.cmm_unit_code.specs.Texts.{IsText};
ghost use Rattle.cmm_unit_code.specs.declared.text.Text.{Text as JoinedText};
ghost use Rattle.cmm_link.specs.inside.Made.{AreMade};
ghost use Rattle.cmm_link.specs.inside.Named.{HasSmallSpans, IsNamed, IsNamedGlobal, IsNamedLabel};
ghost use Rattle.cmm_link.specs.inside.Values.{value_at};

use crate::filling::filled_data;
use crate::globals::global_rows;
use crate::joining::join;
use crate::labels::label_rows;
use crate::names::know_bytes;
use crate::procedures::procedure_rows;
use crate::sites::site_rows;
use cmm_allocate::ProcedurePlaces;
use cmm_data::DataImage;
use cmm_image::{GlobalRow, Image, ImageParts, LabelRow, ProcRow, SECOND_VERSION, SiteRow};
use cmm_items::Items;
use cmm_program::Program;
use cmm_unit_code::{ProgramCode, Text};
use std::alloc::{AllocError, Global};

/// The tables of an image.
#[derive(Drop)]
struct Tables {
    procs: Items<ProcRow>,
    sites: Items<SiteRow>,
    labels: Items<LabelRow>,
    globals: Items<GlobalRow>,
}

/// The tables of the image of a program, with this data and this code. An error is want of memory.
fn image_tables(
    alloc: Global,
    program: &Program,
    places: &[ProcedurePlaces],
    laid: &DataImage,
    text: &Text,
) -> Result<Tables, AllocError>
    requires range { IsInRange program.now }
    requires frames { HaveFrames program.now.procs places.now }
    requires live { KnowLive program.now.procs places.now }
    requires laid { IsDataOf program.now laid.now }
    requires text { IsText program.now text.now }
    ensures procedures { IfOk result (λ t. t.procs ≡ procedure_rows program.now.procs places.now text.now.procedures text.now.landings) }
    ensures sites { IfOk result (λ t. AreSitesOf (site_rows (value_at text.now.procedures laid.now.addresses) program.now.procs places.now text.now.landings text.now.sites) t.sites) }
    ensures labels { IfOk result (λ t. AreLabelsOf (exports program.now) t.labels) }
    ensures few { IfOk result (λ t. length t.labels ≤ length (exports program.now)) }
    ensures globals { IfOk result (λ t. t.globals ≡ map global_row program.now.globals) }
    ensures small_spans { IfOk result (λ t. All HasSmallSpans t.sites) }
    ensures procedure_names { IfOk result (λ t. All IsNamed t.procs) }
    ensures label_names { IfOk result (λ t. All IsNamedLabel t.labels) }
    ensures global_names { IfOk result (λ t. All IsNamedGlobal t.globals) }
{
    let labels = label_rows(alloc, program.labels.as_slice(), laid.addresses.as_slice())?;
    let procs = procedure_rows(
        alloc,
        program.procs.as_slice(),
        places,
        text.procedures.as_slice(),
        text.landings.as_slice(),
    )?;
    let sites = site_rows(
        alloc,
        program.procs.as_slice(),
        places,
        text,
        laid.addresses.as_slice(),
    )?;
    let globals = global_rows(alloc, program.globals.as_slice())?;
    Ok(Tables {
        procs,
        sites,
        labels,
        globals,
    })
}

/// The parts of the image of a program, each made of what it is given.
fn parts(
    alloc: Global,
    program: &Program,
    places: &[ProcedurePlaces],
    laid: DataImage,
    text: Text,
) -> Result<ImageParts, AllocError>
    requires range { IsInRange program.now }
    requires frames { HaveFrames program.now.procs places.now }
    requires live { KnowLive program.now.procs places.now }
    requires laid { IsDataOf program.now laid }
    requires text { IsText program.now text }
    ensures { IfOk result (λ parts. AreMade program.now places.now laid text parts) }
{
    let tables = image_tables(alloc, program, places, &laid, &text)?;
    let initial = filled_data(laid, text.procedures.as_slice());
    know_bytes(text.code.as_slice());
    Ok(ImageParts {
        version: SECOND_VERSION,
        code: text.code,
        initial,
        start: text.start,
        last: text.last,
        main: program.main,
        procs: tables.procs,
        sites: tables.sites,
        labels: tables.labels,
        globals: tables.globals,
    })
}

/// The image of a program in range, whose procedures have these places, whose data is laid out so, and whose code is this text. An error is want of memory.
fn image_of(
    alloc: Global,
    program: &Program,
    places: &[ProcedurePlaces],
    laid: DataImage,
    text: Text,
) -> Result<Image, AllocError>
    requires range { IsInRange program.now }
    requires frames { HaveFrames program.now.procs places.now }
    requires live { KnowLive program.now.procs places.now }
    requires laid { IsDataOf program.now laid }
    requires text { IsText program.now text }
    requires spans { HaveFewSpans program.now.procs }
    requires room { HasRoom program.now text }
    requires globals { IsTrue (names_ascend (map (λ g. g.name) program.now.globals)) }
    ensures image { IfOk result (λ image. IsImageOf program.now places.now text image) }
    ensures placement { IfOk result (λ image. (placement_of image).rows ≡ placement_rows places.now text.procedures) }
{
    cmm_data::laws::programs_in_range();
    cmm_data::laws::labels_in_data();
    let parts = parts(alloc, program, places, laid, text)?;
    Ok(Image::new(parts))
}

/// The image of a program in range, whose procedures have these places, whose data is laid out so, and whose units have this code: they are joined to one text, in which each symbol has its
/// number. The sets of the procedures' sites have just the variables that are live there. An error is want of memory.
pub fn link(
    alloc: Global,
    program: &Program,
    places: &[ProcedurePlaces],
    laid: DataImage,
    code: ProgramCode,
) -> Result<Image, AllocError>
    requires range { IsInRange program.now }
    requires frames { HaveFrames program.now.procs places.now }
    requires live { KnowLive program.now.procs places.now }
    requires spans { HaveFewSpans program.now.procs }
    requires laid { IsDataOf program.now laid }
    requires code { CanBeJoined code }
    requires text { (t : JoinedText) → IsTextOf program.now code t → IsText program.now t }
    requires room { (t : JoinedText) → IsTextOf program.now code t → HasRoom program.now t }
    // The names of global registers ascend, as a program's numbers for them do.
    requires globals { IsTrue (names_ascend (map (λ g. g.name) program.now.globals)) }
    ensures { IfOk result (λ image. (t : JoinedText) × IsTextOf program.now code t × IsImageOf program.now places.now t image
        × ((placement_of image).rows ≡ placement_rows places.now t.procedures)) }
{
    let ProgramCode { units, last } = code;
    let text = join(alloc, units, laid.addresses.as_slice(), last)?;
    let image = image_of(alloc, program, places, laid, text)?;
    Ok(image)
}
