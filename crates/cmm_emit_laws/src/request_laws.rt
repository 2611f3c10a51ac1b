//! What holds of machines that are served by images, as contracts.
ghost use Rattle.cmm_emit_laws.specs.RequestLaws.{ImagesSimulateThemselves, StepsAreDone};

/// Every step of an image is done by one instruction or one request, and so the image simulates itself.
pub fn images_serve_themselves()
    ensures done { StepsAreDone }
    ensures simulates { ImagesSimulateThemselves }
{}
