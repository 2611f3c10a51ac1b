//! The search for a site.

ghost use Rattle.std.specs.Prelude.{◌≡◌, ◌<◌, ◌^◌, length};
ghost use Rattle.cmm_image.specs.Sites.{site_place};
ghost use Rattle.cmm_image.specs.inside.Ascending.{Ascend};

use crate::rows::SiteRow;

/// The place of the site with a return address, among sites whose return addresses ascend, by halves.
#[tactic(auto, using(crate::proofs::SearchLaws::all_of, crate::proofs::SearchLaws::lower))]
pub(crate) fn place_among(sites: &[SiteRow], address: u64) -> Option<u32>
    requires ascending { Ascend sites.now }
    requires few { length sites.now < 2 ^ 32 }
    ensures { result ≡ site_place sites.now address }
{
    let mut low = 0;
    let mut high = sites.len();
    while low < high {
        let middle = low + (high - low) / 2;
        let here = sites[middle].return_address;
        if here == address {
            return Some(middle as u32);
        }
        if here < address {
            low = middle + 1;
        } else {
            high = middle;
        }
    }
    None
}
