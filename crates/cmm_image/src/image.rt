//! Images.

ghost use Rattle.std.specs.Prelude.{◌≡◌};
ghost use Rattle.cmm_image.specs.Images.{IsImage};
ghost use Rattle.cmm_image.specs.Sites.{site_place};
ghost use Rattle.cmm_image.specs.declared.parts.ImageParts.{ImageParts};

use crate::parts::ImageParts;
use crate::search::place_among;
use std::marker::Model;

/// What the compiler makes of a program, and what runs. Its parts keep every rule of the format, so that they have bytes, and nothing more
/// is required of an image anywhere. Contracts see it as its parts.
pub struct Image {
    parts: ImageParts,
}

/// In one place, so that whoever lets one go has one call to prove.
impl Drop for Image {
    fn drop(self) {
        let Self { parts: _ } = self;
    }
}

impl Model for Image {
    ghost Value = { ImageParts };

    ghost view = { λ i. i.parts };

    ghost invariant = { λ i. IsImage i.parts };
}

impl Image {
    /// The image of parts that keep every rule.
    pub fn new(parts: ImageParts) -> Image
        requires { IsImage parts }
        ensures { result ≡ parts }
    {
        Image { parts }
    }

    /// Its parts, which keep every rule.
    pub fn parts(&self) -> &ImageParts
        ensures same { result.now ≡ self.now }
        ensures kept { IsImage self.now }
    {
        &self.parts
    }

    /// Its parts, given away.
    pub fn into_parts(self) -> ImageParts
        ensures same { result ≡ self }
        ensures kept { IsImage self }
    {
        let Image { parts } = self;
        parts
    }

    /// The place in `sites` of the site with a return address; none exactly where no site has it.
    #[tactic(auto, using(crate::proofs::SearchLaws::sites_ascend, crate::proofs::SearchLaws::sites_are_few))]
    pub fn site_of(&self, address: u64) -> Option<u32>
        ensures { result ≡ site_place self.now.sites address }
    {
        place_among(self.parts.sites.as_slice(), address)
    }
}
