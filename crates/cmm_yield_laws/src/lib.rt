//! The image follows the located machine with its yields and its client.
//!
//! A yield over locations is done by code that brings its values to where values travel and calls a stub, whose ECALL asks for the client. There the
//! machine state represents the located state that waits. By the laws of the client (`cmm_client_laws`) this one instruction comes to what the client's
//! answer comes to; behind it, at most three instructions go from the return address of the site to the CopyIn where the run goes on. With the code of
//! all other nodes (`cmm_emit_laws`) the image simulates the located machine whole.
//!
//! That values of a walk fit their widths is known of the events of the C-- machine, and of no state below: so the located machine is tested for it
//! (`specs/Laws`, `fitting_machine`), and what follows the C-- machine follows it tested too.
//!
//! - `specs/Yielding`: what is required of the code of a yield. `specs/WholeCode`: of all finished code, and of the tables beside it.
//! - `specs/Standing`: which machine states represent a located state that waits.
//! - `specs/Examples`, `yield_example`: the code of a small program that yields, with which what is required of whole code is met.
//! - `specs/Laws`, `laws`: that the image simulates the located machine with its yields.
//!
//! An error of `yield_once` is want of memory, and then a part of the code may be there.
#![tactic(auto)]

pub mod laws;
pub mod yield_example;
