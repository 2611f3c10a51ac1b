//! Units that were read from their files, and are built.

ghost use Rattle.std.specs.Prelude.{◌<◌, ◌^◌, List, ℕ, length, map, IfOk, IfErr};
ghost use Rattle.cmm_compile.specs.Agreement.{Agree};
ghost use Rattle.cmm_compile.specs.Refusing.{IsRefused};
ghost use Rattle.cmm_front.specs.Refusing.{IsFaultOf};
ghost use Rattle.cmm_top.specs.inside.Refusals.{LackImage, Refuses};
ghost use Rattle.cmm_top.specs.inside.Reading.{AreUnits, AreWithin};

use crate::sources::Sources;
use cmm_compile::{BuildFault, compile};
use cmm_front::too_long;
use cmm_image::Image;
use cmm_work::Ending;
use std::alloc::Global;

/// The image of units as they were read.
fn image_of(alloc: Global, sources: &Sources) -> Result<Image, BuildFault>
    requires { length sources.now.units < 2 ^ 32 }
    ensures ok { (units : List (List ℕ)) → AreUnits units sources.now → IfOk result (Agree units) }
    ensures err { (units : List (List ℕ)) → AreUnits units sources.now → IfErr result (IsRefused (IsFaultOf units)) }
    ensures named { (count : ℕ) → 0 < count → AreWithin count sources.now → IfErr result (IsRefused (λ f. f.unit < count)) }
{
    let units = sources.units.as_slice();
    if sources.cut {
        return Err(BuildFault::from(too_long(alloc, units)));
    }
    compile(alloc, units)
}

/// What units in files of these names come to that have no image.
pub(crate) fn refusal<'a>(names: &[&'a str], fault: BuildFault) -> Ending<'a>
    requires { IsRefused (λ f. f.unit < length names.now) fault }
    ensures { Refuses (map (λ name. name.now) names.now) fault result }
{
    match fault {
        BuildFault::At(fault) => Ending::Refused(names[fault.unit as usize], fault),
        BuildFault::Memory => Ending::OutOfMemory,
    }
}

/// The image of units that were read from files of these names. The error is what the call comes to where there is none.
pub(crate) fn built<'a>(
    alloc: Global,
    names: &[&'a str],
    sources: &Sources,
) -> Result<Image, Ending<'a>>
    requires some { 0 < length names.now }
    requires within { AreWithin (length names.now) sources.now }
    ensures ok { (units : List (List ℕ)) → AreUnits units sources.now → IfOk result (Agree units) }
    ensures err { (units : List (List ℕ)) → AreUnits units sources.now → IfErr result (LackImage (map (λ name. name.now) names.now) units) }
{
    // Words are fewer than 2^32, so there is no such count of names.
    if names.len() >= 0x1_0000_0000 {
        return Err(Ending::OutOfMemory);
    }
    match image_of(alloc, sources) {
        Ok(image) => Ok(image),
        Err(fault) => Err(refusal(names, fault)),
    }
}
