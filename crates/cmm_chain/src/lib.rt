//! The chain of frames.
//!
//! Compiled code keeps each activation in a frame of one stack, and its locals in words of the frame or in registers. A suspended
//! activation is found again by words and registers alone: by the return address that leads to it, by its frame, and by the frames
//! of younger activations, which saved its registers. This layer has the types of frames and places and, in `specs/`, that fact for a
//! whole stack, for any places of locals, any set of saved registers and any liveness: each activation of a chain is suspended at
//! its site, its live locals stand where the walk finds them, and the pairs of its continuations stand in its frame. The laws say
//! what keeps it: calls, returns, tail calls, cuts, unwinding, and what a client sets.
//!
//! - `frame`: the frame of a procedure, and the places of its locals.
//! - `laws`: the laws of chains, as contracts.
#![tactic(auto)]

mod frame;
pub mod laws;

pub use frame::{Frame, Location};
