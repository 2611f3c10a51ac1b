//! What an image does when it runs.
//!
//! An image is run instruction by instruction. Where the program yields, its client answers by commands, which are done to registers and
//! memory by the tables of the image alone: nothing here knows statements or values of variables that are not in them. This layer has no
//! code: it promises that its definitions hold together.
//!
//! - `laws`: what holds of every run and of every chain of frames.
//!
//! The definitions stand in `specs/`, in the order in which a reader needs them. `Regions` is where words are kept, `Frames` the chain of
//! frames, `Walks` its walk, `Changes` what the client's commands do to registers and memory: the commands are those of any program that can
//! be asked (`cmm_program`). `Machine` is the state after n instructions, and `Observed` what is seen of it.
#![tactic(auto)]

pub mod laws;
