//! `write_image`: the bytes of an image, and `write_header`: those of its header.

ghost use Rattle.std.specs.Prelude.{◌≡◌, ◌++◌, OnOk, IfOk};
ghost use Rattle.cmm_image.specs.ImageFormat.{counts, first_tables, header};
ghost use Rattle.cmm_image.specs.WholeImage.{header_bytes, image, image_header};
ghost use Rattle.cmm_image.specs.Images.{SpellsImage};
ghost use Rattle.cmm_image.specs.inside.Spellings.{counts_of, image_body, image_records, image_symbols, image_tables};

use crate::header::{MAGIC, SECOND_VERSION};
use crate::image::Image;
use crate::parts::ImageParts;
use crate::rows::{ProcRow, SiteRow};
use crate::second_bytes::put_second_tables;
use cmm_format::{put_count32, put_u32, put_u64, write_rows};
use std::alloc::{AllocError, Global};

/// The bytes that spell an image.
pub fn write_image(alloc: Global, image: &Image) -> Result<Vec<u8>, AllocError>
    ensures { IfOk result (λ bytes. SpellsImage bytes.items image.now) }
{
    let mut out = Vec::new(alloc);
    put_image(&mut out, image.parts())?;
    Ok(out)
}

/// The 64 bytes with which the bytes of an image begin: its header.
pub fn write_header(alloc: Global, image: &Image) -> Result<Vec<u8>, AllocError>
    ensures { IfOk result (λ bytes. bytes.items ≡ header_bytes image.now) }
{
    let mut out = Vec::new(alloc);
    put_header(&mut out, image.parts())?;
    Ok(out)
}

/// The bytes of an image in its version.
pub(crate) fn put_image(out: &mut Vec<u8>, i: &ImageParts) -> Result<(), AllocError>
    ensures { OnOk result (out.new.items ≡ out.old.items ++ image.spelled i.now) }
{
    put_header(out, i)?;
    put_body(out, i)
}

/// What follows the header.
fn put_body(out: &mut Vec<u8>, i: &ImageParts) -> Result<(), AllocError>
    ensures { OnOk result (out.new.items ≡ out.old.items ++ image_body i.now) }
{
    out.extend_from_slice(i.code.as_slice())?;
    out.extend_from_slice(i.initial.as_slice())?;
    put_records(out, i)
}

/// The records, in the order of the counts.
fn put_records(out: &mut Vec<u8>, i: &ImageParts) -> Result<(), AllocError>
    ensures { OnOk result (out.new.items ≡ out.old.items ++ image_records i.now) }
{
    put_tables(out, i)?;
    put_symbols(out, i)
}

/// The records of procedures and of sites, as the image's version has them.
fn put_tables(out: &mut Vec<u8>, i: &ImageParts) -> Result<(), AllocError>
    ensures { OnOk result (out.new.items ≡ out.old.items ++ image_tables i.now) }
{
    if i.version == SECOND_VERSION {
        return put_second_tables(out, i.procs.as_slice(), i.sites.as_slice());
    }
    put_first_tables(out, i.procs.as_slice(), i.sites.as_slice())
}

/// The records of procedures and then those of sites: the tables of version 1.
fn put_first_tables(
    out: &mut Vec<u8>,
    procedures: &[ProcRow],
    sites: &[SiteRow],
) -> Result<(), AllocError>
    ensures { OnOk result (out.new.items ≡ out.old.items ++ (first_tables 0 0 0).spelled (procedures.now, sites.now)) }
{
    write_rows(out, procedures)?;
    write_rows(out, sites)
}

/// The records of labels and of global registers.
fn put_symbols(out: &mut Vec<u8>, i: &ImageParts) -> Result<(), AllocError>
    ensures { OnOk result (out.new.items ≡ out.old.items ++ image_symbols i.now) }
{
    write_rows(out, i.labels.as_slice())?;
    write_rows(out, i.globals.as_slice())
}

/// The header, whose counts are those of the tables.
pub(crate) fn put_header(out: &mut Vec<u8>, i: &ImageParts) -> Result<(), AllocError>
    ensures { OnOk result (out.new.items ≡ out.old.items ++ header.spelled (image_header i.now)) }
{
    put_u32(out, MAGIC)?;
    put_u32(out, i.version)?;
    put_u64(out, i.code.len() as u64)?;
    put_u64(out, i.initial.len() as u64)?;
    put_u64(out, i.start)?;
    put_u64(out, i.last)?;
    put_counts(out, i)
}

/// The counts of records, and which procedure is main.
fn put_counts(out: &mut Vec<u8>, i: &ImageParts) -> Result<(), AllocError>
    ensures { OnOk result (out.new.items ≡ out.old.items ++ counts.spelled (counts_of i.now)) }
{
    put_count32(out, i.procs.len())?;
    put_count32(out, i.sites.len())?;
    put_count32(out, i.labels.len())?;
    put_count32(out, i.globals.len())?;
    put_u32(out, i.main)?;
    put_u32(out, 0)
}
