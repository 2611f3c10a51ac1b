//! What calls of the program promise, in the words of the C-- machine: the theorem that a user relies on.
//!
//! `cmm_top` says what a call does by an image that agrees with the units, and by the run of that image. Here stands what follows of the two: for each call that has run
//! a program, and for all m, what the C-- machine shows in the m steps for which there was time is a front of what the call wrote and took; where it has ended
//! by then, that is all, and the outcome is its own. In the other direction the machine stands where the call ended, after no more steps than there were instructions: it has shown no more than the
//! call wrote and took, and shows all of that with its next step, ended as the call ended, leaves the same walk where the client stopped the call, and the call came to no trap and no break of the
//! chain; or it commits an unchecked error, and what it has shown before was written and taken.
//!
//! - `specs/Explained`: what it is that the machine explains a run. `specs/Calls`: what that means of `exec`, of `gen`, and of `run` with a file that `build` has written.
//! - `specs/Laws`, `laws`: that it is so.
//! - `specs/Accepted`, `accepted`: what means a program is built and run.
//!
//! No function here does anything, and none has an error.
#![tactic(auto)]

pub mod accepted;
pub mod laws;
