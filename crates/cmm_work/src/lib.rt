//! What a command does that builds nothing, and how a call ends.
//!
//! What a command does over files and streams, all but the line that closes the log, is a `Work` of `specs/Work`, and each command here promises one: `specs/Running` with `specs/Saving`,
//! `specs/Walking`, `specs/Converting` and `specs/Inspecting` say of each what its work is, whatever files and streams there are, and the cause of each ending that is none of success.
//! Commands that build units do their reading, their run and their closing line by what stands here.
//!
//! - `running`, `walking`: `run` and `walk`. `converting`: `elf` and `migrate`. `inspecting`: `segments`.
//! - `reading`: files that are read. `client`: the script of a client. `image`: an image that was read.
//! - `session`: an image that runs. `saving`: what is kept of a run that was stopped.
//! - `ending`, `line`: what a call comes to, and the line that closes the log. `status`: exit statuses.
#![tactic(auto)]

mod client;
mod converting;
mod ending;
mod image;
mod inspecting;
mod line;
mod reading;
mod running;
mod saving;
mod session;
mod status;
mod walking;

pub use client::{client_in, script_of};
pub use converting::{Form, convert};
pub use ending::Ending;
pub use inspecting::inspect;
pub use line::close;
pub use reading::{FileBytes, ReadFault, bytes_in};
pub use running::run;
pub use session::{Prepared, load, run_image};
pub use status::Status;
pub use walking::walk;
