//! What holds of frames and of images of programs. Each law is the contract of a function that does nothing.

ghost use Rattle.cmm_link.specs.Laws.{ImagesHaveRows, ImagesShowPlacements, PlacesHaveFrames};

/// Procedures that have places for their graphs have frames.
pub fn places_have_frames()
    ensures { PlacesHaveFrames }
{}

/// The image of a program shows the placement of its code and its frames.
pub fn images_show_placements()
    ensures { ImagesShowPlacements }
{}

/// The rows of the image of a program tell of its procedures, sites and exported labels, as a walker asks for.
pub fn images_have_rows()
    ensures { ImagesHaveRows }
{}
