//! The rows of an image by their numbers.
ghost use Rattle.std.specs.Prelude.{◌≡◌, ◌<◌, length};
ghost use Rattle.cmm_image.specs.Images.{IsImage};
ghost use Rattle.cmm_image.specs.ImageFormat.{procedure_at as procedure_in};
ghost use Rattle.cmm_walk.specs.Activations.{IsIn};
ghost use Rattle.cmm_image.specs.Sites.{site_numbered};

use crate::activation::Activation;
use cmm_image::{Image, ProcRow, SiteRow};

/// The site of a number.
pub fn site_at(i: &Image, number: u32) -> &SiteRow
    requires { number < length i.now.sites }
    ensures row { result.now ≡ site_numbered i.now.sites number }
    ensures kept { IsImage i.now }
{
    &i.parts().sites.as_slice()[number as usize]
}

/// The procedure of a number.
pub fn procedure_at(i: &Image, number: u32) -> &ProcRow
    requires { number < length i.now.procs }
    ensures row { result.now ≡ procedure_in i.now.procs number }
    ensures kept { IsImage i.now }
{
    &i.parts().procs.as_slice()[number as usize]
}

/// The procedure of an activation.
pub fn procedure_of<'a>(a: &Activation, i: &'a Image) -> &'a ProcRow
    requires { IsIn i.now a.now }
    ensures row { result.now ≡ procedure_in i.now.procs a.now.proc }
    ensures kept { IsImage i.now }
{
    let parts = i.parts();
    &parts.procs.as_slice()[a.proc as usize]
}
