//! Where the place of a variable stands in the bytes of version 1.

ghost use Rattle.std.specs.Prelude.{◌≡◌, ◌++◌, [], None, IfOk, OnOk, flat_map, option_copied, take};
ghost use Rattle.cmm_image.specs.ImageFormat.{site};
ghost use Rattle.cmm_image.specs.Migration.{place_offset as offset_of_place};
ghost use Rattle.cmm_image.specs.Places.{place_bytes};
ghost use Rattle.cmm_image.specs.inside.Fronts.{before_place, front_of, in_site, site_front, tables_front};

use crate::differing::Difference;
use crate::parts::ImageParts;
use crate::row_bytes::{put_exits, put_site_head};
use crate::rows::{SiteRow, VariablePlace};
use crate::writing::put_header;
use cmm_format::{put_u32, put_u64, write_rows};
use std::alloc::{AllocError, Global};

/// The offset of the place of a variable at a site, in the bytes of version 1. An error is want of memory.
pub(crate) fn place_offset(alloc: Global, i: &ImageParts, at: Difference) -> Result<u64, AllocError>
    ensures { IfOk result (λ offset. offset ≡ offset_of_place i.now at.site at.variable) }
{
    let mut before = Vec::new(alloc);
    put_before(&mut before, i, at)?;
    Ok(before.len() as u64)
}

/// The bytes of version 1 before that place.
fn put_before(out: &mut Vec<u8>, i: &ImageParts, at: Difference) -> Result<(), AllocError>
    ensures { OnOk result (out.new.items ≡ out.old.items ++ before_place i.now at.site at.variable) }
{
    put_front(out, i)?;
    put_first_sites(out, i.sites.as_slice(), at.site)?;
    put_in_site(out, i.sites.get(at.site), at.variable)
}

/// The header, the code, the data and the records of procedures.
fn put_front(out: &mut Vec<u8>, i: &ImageParts) -> Result<(), AllocError>
    ensures { OnOk result (out.new.items ≡ out.old.items ++ front_of i.now) }
{
    put_header(out, i)?;
    put_tables_front(out, i)
}

/// The code, the data and the records of procedures.
fn put_tables_front(out: &mut Vec<u8>, i: &ImageParts) -> Result<(), AllocError>
    ensures { OnOk result (out.new.items ≡ out.old.items ++ tables_front i.now) }
{
    out.extend_from_slice(i.code.as_slice())?;
    out.extend_from_slice(i.initial.as_slice())?;
    write_rows(out, i.procs.as_slice())
}

/// The records of the first sites, at most so many.
fn put_first_sites(out: &mut Vec<u8>, sites: &[SiteRow], count: usize) -> Result<(), AllocError>
    ensures { OnOk result (out.new.items ≡ out.old.items ++ flat_map (site 0 [] None).spelled (take count sites.now)) }
{
    let (first, _) = sites.split_at(sites.len().min(count));
    write_rows(out, first)
}

/// What a site has before the place of a variable, if there is such a site.
fn put_in_site(out: &mut Vec<u8>, site: Option<&SiteRow>, variable: usize) -> Result<(), AllocError>
    ensures { OnOk result (out.new.items ≡ out.old.items ++ in_site variable (option_copied site.entry)) }
{
    match site {
        None => Ok(()),
        Some(site) => {
            put_site_front(out, site)?;
            put_first_places(out, site.variables.as_slice(), variable)
        }
    }
}

/// What a site has before its places.
fn put_site_front(out: &mut Vec<u8>, site: &SiteRow) -> Result<(), AllocError>
    ensures { OnOk result (out.new.items ≡ out.old.items ++ site_front site.now) }
{
    put_u64(out, site.return_address)?;
    put_u32(out, site.procedure)?;
    put_site_head(out, site)?;
    put_exits(out, site)
}

/// The first places, at most so many.
fn put_first_places(
    out: &mut Vec<u8>,
    places: &[VariablePlace],
    count: usize,
) -> Result<(), AllocError>
    ensures { OnOk result (out.new.items ≡ out.old.items ++ flat_map place_bytes (take count places.now)) }
{
    let (first, _) = places.split_at(places.len().min(count));
    write_rows(out, first)
}
