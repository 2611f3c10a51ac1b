//! The bits that say which variables of a procedure are live at a site, a byte for each eight variables begun, and the places that sites give.

ghost use Rattle.std.specs.Prelude.{◌≡◌, ◌++◌, ◌∷◌, [], drop, slice_index_or, IfOk, OnOk};
ghost use Rattle.cmm_format.specs.Formats.{◌when◌};
ghost use Rattle.cmm_format.specs.Reading.{Reads};
ghost use Rattle.cmm_image.specs.ImageFormat.{formed, u8};
ghost use Rattle.cmm_image.specs.declared.rows.VariablePlace.TheVariants.{Dead};
ghost use Rattle.cmm_image.specs.SecondFormat.{are_among as all_among, is_mask as is_live_mask, live_places as places_format, masked, or_places, places_among as places_at};

use crate::rows::{SiteRow, VariablePlace};
use cmm_format::{Reader, Unread, require};
use cmm_items::Items;
use cmm_rules::Rule;
use std::alloc::{AllocError, Global};

/// The places at a site of variables with these places: those of the variables that are live.
pub(crate) fn live_places(
    reader: &mut Reader<'_>,
    places: &[VariablePlace],
) -> Result<Items<VariablePlace>, Unread>
    ensures { Reads result ((places_format places.now).at reader.old.rest.now) reader.new.rest.now }
{
    let mut live = Vec::new(reader.alloc);
    let mut rest = places;
    while !rest.is_empty() {
        let (group, others) = rest.split_at(rest.len().min(8));
        let bits = live_bits(reader, group)?;
        add_masked(&mut live, group, bits)?;
        rest = others;
    }
    Ok(Items::from_vec(live))
}

/// The bits of up to eight variables with these places.
fn live_bits(reader: &mut Reader<'_>, places: &[VariablePlace]) -> Result<u8, Unread>
    ensures { Reads result ((u8 when (formed (is_live_mask places.now) ∷ [])).at reader.old.rest.now) reader.new.rest.now }
{
    let field = reader.left();
    let bits = reader.u8(Rule::ImageIsCut)?;
    require(is_mask(places, bits), Rule::BadImageField, field)?;
    Ok(bits)
}

/// Whether only variables with a place are live by these bits, and the bits behind those of the variables are 0.
fn is_mask(places: &[VariablePlace], bits: u8) -> bool
    ensures { result ≡ is_live_mask places.now bits }
{
    let mut left = bits;
    for place in places {
        if left % 2 == 1 && !place.is_live() {
            return false;
        }
        left /= 2;
    }
    left == 0
}

/// Adds the places of variables, of which those are live whose bits are 1.
fn add_masked(
    to: &mut Vec<VariablePlace>,
    places: &[VariablePlace],
    bits: u8,
) -> Result<(), AllocError>
    ensures { OnOk result (to.new.items ≡ to.old.items ++ masked places.now bits) }
{
    let mut left = bits;
    for place in places {
        to.push(place.where_live(left % 2 == 1))?;
        left /= 2;
    }
    Ok(())
}

/// The place of each of so many variables: that at the first of these sites where it is live.
pub(crate) fn places_among(
    alloc: Global,
    variables: usize,
    sites: &[SiteRow],
) -> Result<Vec<VariablePlace>, AllocError>
    ensures { IfOk result (λ places. places.items ≡ places_at variables sites.now) }
{
    let mut places = vec![in alloc; VariablePlace::Dead; variables]?;
    for site in sites {
        add_places(&mut places, site.variables.as_slice())?;
    }
    Ok(places)
}

/// Gives each variable without a place the one that it has at a site.
pub(crate) fn add_places(
    places: &mut Vec<VariablePlace>,
    at_site: &[VariablePlace],
) -> Result<(), AllocError>
    ensures { OnOk result (places.new.items ≡ or_places places.old.items at_site.now) }
{
    for number in 0..at_site.len() {
        if number == places.len() {
            places.push(at_site[number])?;
        } else if !places[number].is_live() {
            places[number] = at_site[number];
        }
    }
    Ok(())
}

/// Whether each of the first that is a place is one among the second.
pub(crate) fn are_among(places: &[VariablePlace], found: &[VariablePlace]) -> bool
    ensures { result ≡ all_among places.now found.now }
{
    let mut rest = found;
    for place in places {
        let (known, others) = first_place(rest);
        if place.is_live() && !known.is_live() {
            return false;
        }
        rest = others;
    }
    true
}

/// The first of these places and the others; where there are none, no place.
fn first_place(places: &[VariablePlace]) -> (VariablePlace, &[VariablePlace])
    ensures first { result.0 ≡ slice_index_or places.now 0 Dead }
    ensures others { result.1.now ≡ drop 1 places.now }
{
    match places {
        [] => (VariablePlace::Dead, places),
        [first, others @ ..] => (*first, others),
    }
}
