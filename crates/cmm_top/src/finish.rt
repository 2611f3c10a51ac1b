//! What a call comes to.

use cmm_image::Image;
use cmm_work::Status;

/// What a call comes to.
#[derive(Drop)]
pub struct Finish {
    pub status: Status,
    /// The image that was made and loaded to be run, if one was.
    pub image: Option<Image>,
}
