//! `read_image`: from the bytes of an image to the image.

ghost use Rattle.std.specs.Prelude.{◌≡◌, ℕ, IfOk, IfErr};
ghost use Rattle.cmm_image.specs.ImageFormat.{first_tables as tables_first};
ghost use Rattle.cmm_image.specs.WholeImage.{image, tables as tables_of};
ghost use Rattle.cmm_image.specs.Images.{SpellsImage, IsFirstFault, ImageFaultAt, IsImageRead, IsRefusal, image_in};
ghost use Rattle.cmm_format.specs.Reading.{Gives, Reads};
ghost use Rattle.cmm_image.specs.inside.Wholes.{fault_of};
ghost use Rattle.cmm_image.specs.declared.parts.ImageParts.{ImageParts};
ghost use Rattle.cmm_rules.specs.declared.rule.Rule.{Rule};

use crate::bounds::{Bounds, Procedures};
use crate::fault::ImageFault;
use crate::header::{Header, SECOND_VERSION, read_header};
use crate::image::Image;
use crate::parts::ImageParts;
use crate::rows::{ProcRow, SiteRow};
use crate::second_reading::{Totals, second_tables};
use cmm_format::{Reader, Unread, broken, read_rows};
use cmm_items::Items;
use cmm_rules::Rule;
use std::alloc::Global;

/// The most bytes that an image may have.
pub const IMAGE_LIMIT: usize = 536_870_912;

/// The image that bytes spell. Of bytes that spell none the first field that breaks a rule is named, and its first broken rule, by
/// number but that a field which the bytes end inside of is named for that; bytes past `IMAGE_LIMIT` are refused before all else.
pub fn read_image(alloc: Global, bytes: &[u8]) -> Result<Image, ImageFault>
    // What is read is spelled so.
    ensures ok { IfOk result (SpellsImage bytes.now) }
    // What is spelled so is read, unless memory runs out.
    ensures only { (i : ImageParts) → SpellsImage bytes.now i → IsImageRead i result }
    // A fault is the first of the bytes.
    ensures err { IfErr result (ImageFaultAt bytes.now) }
    // Bytes with a fault are refused for it, unless memory runs out.
    ensures refused { (rule : Rule) (offset : ℕ) → IsFirstFault bytes.now rule offset → IsRefusal rule offset result }
{
    match parts_of(alloc, bytes) {
        Ok(parts) => Ok(Image::new(parts)),
        Err(why) => Err(fault(bytes.len(), why)),
    }
}

/// Why there is no image in bytes of this count.
fn fault(length: usize, why: Unread) -> ImageFault
    ensures { result ≡ fault_of length why }
{
    match why {
        Unread::Breaks(broken) => ImageFault::At {
            rule: broken.rule,
            offset: length.saturating_sub(broken.left) as u64,
        },
        Unread::Memory => ImageFault::Memory,
    }
}

/// The parts of the image that all of the bytes are.
#[tactic(auto, unfolding(cmm_format::specs::Wholes::whole_in))]
fn parts_of(alloc: Global, bytes: &[u8]) -> Result<ImageParts, Unread>
    ensures { Gives result (image_in bytes.now) }
{
    if bytes.len() > IMAGE_LIMIT {
        return Err(broken(Rule::ImageTooLong, bytes.len() - IMAGE_LIMIT));
    }
    let mut reader = Reader { alloc, rest: bytes };
    let parts = front_parts(&mut reader)?;
    if !reader.rest.is_empty() {
        return Err(broken(Rule::BytesAfterImage, reader.left()));
    }
    Ok(parts)
}

/// Takes the parts of an image from the front of the bytes.
fn front_parts(reader: &mut Reader<'_>) -> Result<ImageParts, Unread>
    ensures { Reads result (image.at reader.old.rest.now) reader.new.rest.now }
{
    let header = read_header(reader)?;
    let code = reader.bytes(Rule::ImageIsCut, header.code_length as usize)?;
    let initial = reader.bytes(Rule::ImageIsCut, header.data_length as usize)?;
    let bounds = Bounds {
        code_length: header.code_length,
        data_length: header.data_length,
        frame: 0,
        variables: 0,
        continuations: 0,
    };
    let (procs, sites) = tables(reader, bounds, &header)?;
    let labels = read_rows(reader, &bounds, header.labels as usize)?;
    let globals = read_rows(reader, &bounds, header.globals as usize)?;
    Ok(ImageParts {
        version: header.version,
        code,
        initial,
        start: header.start,
        last: header.last,
        main: header.main,
        procs,
        sites,
        labels,
        globals,
    })
}

/// The tables of procedures and of sites, in the version that the header names.
fn tables(
    reader: &mut Reader<'_>,
    bounds: Bounds,
    header: &Header,
) -> Result<(Items<ProcRow>, Items<SiteRow>), Unread>
    requires { bounds.code_length ≡ header.now.code_length }
    ensures { Reads result ((tables_of header.now).at reader.old.rest.now) reader.new.rest.now }
{
    if header.version == SECOND_VERSION {
        let totals = Totals {
            bounds,
            procedures: header.procedures,
            sites: header.sites,
        };
        return second_tables(reader, &totals);
    }
    first_tables(
        reader,
        bounds,
        header.procedures as usize,
        header.sites as usize,
    )
}

/// The tables of version 1: so many procedures, and then so many sites.
fn first_tables(
    reader: &mut Reader<'_>,
    bounds: Bounds,
    procedures: usize,
    sites: usize,
) -> Result<(Items<ProcRow>, Items<SiteRow>), Unread>
    ensures { Reads result ((tables_first bounds.code_length procedures sites).at reader.old.rest.now) reader.new.rest.now }
{
    let rows = read_rows(reader, &bounds, procedures)?;
    let procedures = Procedures { bounds, rows };
    let sites = read_rows(reader, &procedures, sites)?;
    let Procedures { rows, .. } = procedures;
    Ok((rows, sites))
}
