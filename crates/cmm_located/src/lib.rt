//! From locals to places.
//!
//! A compiled procedure keeps each local in a place: a slot of its frame, a callee-saves register or another register. This layer has, in
//! `specs/`, what a frame is asked for, and the machine that does the nodes of a graph over locations: frames are words of one stack, control
//! goes by return addresses and pairs alone, and the client is answered by what the walk of the stack shows.
//!
//! - `laws`: what holds of located runs, as contracts.
#![tactic(auto)]

pub mod laws;
