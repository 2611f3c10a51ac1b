//! The call that the program makes.
//!
//! `cmm_main` does what the words of the command line ask for, over any files and streams. It promises that units are built and their image runs or is written, that this image agrees with the
//! units, that what is written and the status are exactly those of the image's run, and that each other answer has its cause. `specs/Answers` is that promise, over a `Call` of `specs/Call`.
//! What a command does, all but the line that closes the log, is a `Work` of `cmm_work`, which has the commands that build nothing. Each of the others has a page that says what its work
//! is: `specs/Executing`, `specs/Building` and `specs/Generating`.
//!
//! - `top`: `cmm_main`. `finish`: what a call comes to.
//! - `task`: what words ask for.
//! - `executing`, `building`, `generating`: `exec`, `build` and `gen`.
//! - `sources`: the bytes of units, `units`: their image.
#![tactic(auto)]

mod building;
mod executing;
mod finish;
mod generating;
mod sources;
mod task;
mod top;
mod units;

pub use cmm_work::Status;
pub use finish::Finish;
pub use top::cmm_main;
