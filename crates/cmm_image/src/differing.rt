//! The first variable that has another place than before, for which version 2 has no bytes.

ghost use Rattle.std.specs.Prelude.{◌≡◌, ℕ, ◌<◌, [], true, false, All, IfOk, IfSome, IfNone, MatchOption, map, replicate};
ghost use Rattle.cmm_image.specs.Migration.{HaveOnePlace, IsFirstDifference, agree as places_agree};
ghost use Rattle.cmm_image.specs.inside.Seen.{agree_at};

use crate::live::add_places;
use crate::rows::{SiteRow, VariablePlace};
use std::alloc::{AllocError, Global};

/// A variable that has another place at a site than at an earlier one of its procedure.
#[derive(Clone, Copy)]
pub(crate) struct Difference {
    /// The number of the site in the image.
    pub(crate) site: usize,
    /// The number of the variable in its procedure.
    pub(crate) variable: usize,
}

/// The first site at which a variable has another place than at an earlier site of its procedure, and the first such variable there.
pub(crate) fn first_difference(
    alloc: Global,
    procedures: usize,
    sites: &[SiteRow],
) -> Result<Option<Difference>, AllocError>
    requires { All (λ s. s.procedure < procedures) sites.now }
    ensures { IfOk result (λ found. MatchOption found (HaveOnePlace sites.now) (λ at. IsFirstDifference sites.now at.site at.variable)) }
{
    let mut seen = nothing_seen(alloc, procedures)?;
    for (number, site) in sites.iter().enumerate() {
        let own = &mut seen[site.procedure as usize];
        if let Some(variable) = differing(own.as_slice(), site.variables.as_slice()) {
            return Ok(Some(Difference {
                site: number,
                variable,
            }));
        }
        add_places(own, site.variables.as_slice())?;
    }
    Ok(None)
}

/// No places for each of so many procedures.
fn nothing_seen(alloc: Global, procedures: usize) -> Result<Vec<Vec<VariablePlace>>, AllocError>
    ensures { IfOk result (λ seen. map (λ places. places.items) seen.items ≡ replicate procedures []) }
{
    let mut seen = Vec::new(alloc);
    for _ in 0..procedures {
        seen.push(Vec::new(alloc))?;
    }
    Ok(seen)
}

/// The first variable that is live at a site in another place than was seen.
fn differing(seen: &[VariablePlace], at_site: &[VariablePlace]) -> Option<usize>
    ensures first { IfSome result (λ v. agree_at seen.now at_site.now v ≡ false) }
    ensures lower { IfSome result (λ v. (u : ℕ) → u < v → agree_at seen.now at_site.now u ≡ true) }
    ensures none { IfNone result ((v : ℕ) → agree_at seen.now at_site.now v ≡ true) }
{
    for (variable, place) in at_site.iter().enumerate() {
        if variable < seen.len() && !agree(seen[variable], *place) {
            return Some(variable);
        }
    }
    None
}

/// Whether a variable may have both places: it is dead at one of them, or they are the same.
fn agree(one: VariablePlace, other: VariablePlace) -> bool
    ensures { result ≡ places_agree one other }
{
    match (one, other) {
        (VariablePlace::Slot(a), VariablePlace::Slot(b)) => a == b,
        (VariablePlace::Register(a), VariablePlace::Register(b)) => a == b,
        (VariablePlace::Dead, _) | (_, VariablePlace::Dead) => true,
        _ => false,
    }
}
