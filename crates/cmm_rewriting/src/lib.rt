//! Rewriting: when one control does over a store what another does, as what a pass makes of a graph does what the graph did.
//!
//! Places of two controls belong together as the store may have it, and those of activations that wait whatever becomes of it. From there both ask for the same
//! and go on at places that belong together, or the first goes on alone, without a change of the store, and its rank falls: a jump is passed over, a copy is
//! not made. Where a procedure is entered, the second may make quiet steps of its own first, at a bounded cost. Then the second machine simulates the first lazily, whatever
//! the pass was: calls, returns, cuts, yields, the client, the limit of the stack, endings and events are gone through once, here.
//!
//! The theory is over all controls, as public lemmas of `proofs/Simulating` and `proofs/Following`; a pass is an instance, whose law is a contract.
//!
//! - `laws`: the C-- machine as the first instance.
//! - `examples`: two small controls, with steps that are passed over and with a chain.
#![tactic(auto)]

pub mod examples;
pub mod laws;
