//! Constants of loops kept in temporaries: what a loop would make anew in each iteration, addresses of labels and numbers that no instruction holds, is made once behind the Entry of
//! the procedure (Aho, Lam, Sethi and Ullman, Compilers, code motion). Each node does what it did; `specs/Keeping` says what it has in place of constants, `specs/Graphs` what that is of a
//! graph and of a program's graphs. Tokens are shared, not added: an Entry leaves each node behind it one of its own.
//!
//! - `loops`: which nodes lie in loops.
//! - `worth`: which constants are worth a register.
//! - `keeping`: what nodes have in place of the constants that are kept.
//! - `hoisting`: `hoist_all`, which does so in the graphs of a program, where they have tokens to spare.
#![tactic(auto)]

mod hoisting;
mod keeping;
mod loops;
mod worth;

pub use hoisting::hoist_all;
