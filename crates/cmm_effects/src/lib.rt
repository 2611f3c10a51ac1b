//! Effects of code on registers and memory, and how they compose.
//!
//! The code of a node, of a call or of a return is described by what it does to registers and bytes: a register is set, a place of the
//! activation gets a number, a number is stored, control goes on. These are exact equations between the state before and the state
//! after, over the machine of RISC-V, so whoever writes code knows neither frames nor what words of the stack stand for. One lemma a change,
//! above, says what it shows of them.
//!
//! - `specs/Changes`: the changes, and what a place of the activation has.
//! - `specs/Accesses`: what a global register has, and that it gets a number.
//! - `specs/Pieces`: pieces of code that make a change, with the instructions that they add and that they execute at most, and that the
//!   first of them asks for nothing but input.
//! - `specs/Ways`: pieces behind which control goes to an address that the state tells.
//! - `specs/Requests`: pieces that ask once, and what is done behind the request.
//! - `laws`: what is read after a change, and how pieces follow each other.
//!
//! Pieces range over everything that may be said of two states, which a contract cannot, so the laws by which they compose are public
//! lemmas of `proofs/Shared`; the contracts of `laws` state instances of them.
#![tactic(auto)]

pub mod laws;
