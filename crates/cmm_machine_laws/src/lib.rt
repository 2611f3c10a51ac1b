//! What holds of every run of the C-- machine.
//!
//! The layers of the compiler are joined by these laws, so each is stated once, here, in the form in which it is cited.
//! Each is the contract of a public function that does nothing.
//!
//! - `landings`: where control arrives, and what the store is then.
//! - `memory`: reads after writes, rooms that come and go, numbers as bytes, words stored and loaded.
//! - `runs`: what an ended state does, what is only added to, who takes the input, what the client's commands leave, and what is seen.
//! - `stacks`: that the frames fit the stack and adjoin, and that what belongs to different activations lies apart.
//! - `values`: sites in range, and values that fit their widths, in every state.
//!
//! The laws of memory are the public lemmas of `proofs/Cells` and `proofs/StoredWords` too.
#![tactic(auto)]

pub mod landings;
pub mod memory;
pub mod runs;
pub mod stacks;
pub mod values;
