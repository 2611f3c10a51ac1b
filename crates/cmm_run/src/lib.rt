//! Sessions that run images.
//!
//! A session is an image with its script and its limits, ready to run. This layer promises that `Session::run` does exactly what the definition of
//! an image does (`cmm_image_machine.specs.Machine`), for every image, a hostile one too: what it writes, takes and answers is that of the
//! state after as many instructions as the limit allows, or of the first one that has ended. `Session::load` takes all memory; a run takes none.
//! At a yield the client does what the script says (`cmm_client`), and its lines are written to the log as they come.
//!
//! - `session`: `Session`, and `Limits`.
//! - `outcome`: `Outcome`, what a run comes to.
//! - `loaded`: what stays as it is in a run: the image with its code decoded, the script and the stack's size.
//! - `machine`: what a run changes: the program and the output that waits. `waiting`: that output.
//! - `running`: the turns of a run. `requests`: what an ECALL asks for.
//! - `yielding`: a yield, and what its answer leaves of the run.
//!
//! `specs/Runs` says what a run comes to, and `specs/Sessions` what is seen of a session.
#![tactic(auto)]

mod loaded;
mod machine;
mod outcome;
mod requests;
mod running;
mod session;
mod waiting;
mod yielding;

pub use cmm_walk::Torn;
pub use outcome::Outcome;
pub use session::{Limits, Session};
