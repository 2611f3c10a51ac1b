//! The client of a run, from locations to the image: at a yield both show the same walk, and the same commands come to the same.
//!
//! A client asks a stopped program by its activations. Over locations they are found along the chain of frames by contents that are known; in the image
//! by numbers and the tables. Where the tables tell of the program, and registers and bytes represent a state that waits, both find the same
//! activations at the same frames, each variable at the same place, in a slot or in a callee-saves register that may lie saved in younger frames. So each
//! of the client's commands answers alike, refusals too, and the ECALL of the yield comes to what the client's answer comes to.
//!
//! - `specs/Tables`: what is required of the tables of an image. `specs/Rows`: the rows that meet it.
//! - `specs/Walked`: a stack that is the chain of all activations, and an activation that the tables find. `specs/Asked`: which states are asked alike.
//! - `specs/Alone`: the chain of some activations, with no store round it.
//! - `specs/Waiting`: a state that waits for the client, and what the answer comes to. `specs/Keeping`: what the answer leaves as it was.
//! - `specs/Fits`: the test of events by which values are known to fit their widths.
//! - `specs/Laws`, `laws`: what holds of all of these.
#![tactic(auto)]

pub mod laws;
