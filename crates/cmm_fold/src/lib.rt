//! Graphs with their constants folded: an operator on numbers becomes its value, and a product, an unsigned quotient or an unsigned remainder by a power of two
//! a shift or a mask (Aho, Lam, Sethi and Ullman, Compilers, constant folding and reduction in strength). Each node does what it did, and reads and writes the
//! same locals; `specs/Folding` says what that is of a right side, and which operators are left, `specs/Graphs` of a graph.
//!
//! - `value`: what a right side becomes.
//! - `folding`: `fold`, which does so in each node of a graph, and `fold_all`, in each of some graphs.
#![tactic(auto)]

mod folding;
mod value;

pub use folding::{fold, fold_all};
