//! Laws of runs and of chains: each is the contract of a function that does nothing.
ghost use Rattle.cmm_image_machine.specs.Laws.{ChainGoesOn, ElementsFit, EndsOnce, ImagesKeepFrames, ImagesLast, InputIsKept, OverStays, RunGrows, RunsAreTheMachine, SitesAreFound, StepGrows, WalkReadsTheStack};
ghost use Rattle.cmm_image_machine.specs.Versions.{MigratedImagesRunSo, MigratedImagesWalkSo, VersionsRunSo, VersionsWalkSo};

/// A run that is over stays as it is.
#[tactic(auto, using(crate::proofs::Growing::over_stays))]
pub fn over_is_over()
    ensures { OverStays }
{}

/// Output, log and input taken only grow, and no input is lost.
#[tactic(auto, using(crate::proofs::Growing::input_kept))]
pub fn what_was_seen_grows()
    ensures step { StepGrows }
    ensures run { RunGrows }
    ensures input { InputIsKept }
{}

/// An image is a machine that lasts: what is seen only grows, what has failed stays so, and a run ends once.
pub fn images_last()
    ensures lasts { ImagesLast }
    ensures runs { RunsAreTheMachine }
    ensures once { EndsOnce }
{}

/// The site with a return address is the one that a search finds.
pub fn sites_are_found()
    ensures { SitesAreFound }
{}

/// A chain is what stands at its first point, and the chain behind that.
#[tactic(auto, using(crate::proofs::Chaining::chain_goes_on))]
pub fn chains_go_on()
    ensures { ChainGoesOn }
{}

/// Each site of an image keeps inside the frame of its procedure, which is what chains need of an image.
pub fn images_keep_frames()
    ensures { ImagesKeepFrames }
{}

/// The activations of a chain fit the stack: their frames, and all that their tables say is in them.
pub fn activations_fit()
    ensures { ElementsFit }
{}

/// The walk of a state depends on its stack, and on the registers that lead there, alone.
pub fn walks_read_the_stack()
    ensures { WalkReadsTheStack }
{}

/// What an image does depends on its tables, and not on the version of the format: an image that is migrated runs as it did, and has the walks that it had.
pub fn versions_do_not_matter()
    ensures runs { VersionsRunSo }
    ensures walks { VersionsWalkSo }
    ensures migrated_runs { MigratedImagesRunSo }
    ensures migrated_walks { MigratedImagesWalkSo }
{
    cmm_image::laws::bytes_mean_one_thing();
}
