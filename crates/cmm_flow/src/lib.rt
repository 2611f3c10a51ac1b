//! Procedures to graphs: each statement becomes nodes of one operator each.
//!
//! The relation between a procedure and its graph is `specs/Flow.IsFlowOf`. It says of each form of expression
//! (`specs/Code`) and of statement (`specs/Statements`) which nodes are its code, and `specs/Operands` what stands for an
//! expression once these are done. What it guarantees is a law, `laws`: graphs that are flows of a program's procedures do
//! what the C-- machine does on the program, in the theory of following, where each step of the machine costs at most the
//! tokens of the longest procedure.
//!
//! Nodes are laid from the last statement to the first, each behind those to which it leads, so that what was laid stays as
//! it is (`specs/inside/Laying`). The nodes of labels and continuations stand in front of all, with numbers that are known
//! from the beginning, and where each leads is noted when its statement is reached (`specs/inside/Marks`). `flow` makes the
//! graph of a whole procedure, and fails only for want of memory.
//!
//! - `builder`: a graph that is being made.
//! - `expression`, `condition`: expressions, by the temporaries that their operators write, and conditions, as branches.
//! - `assignment`, `call`, `checked`: assignments; statements that leave their procedure or wait at a site; divisions that yield.
//! - `simple`: all statements without blocks, labels and continuations.
//! - `block`: blocks, with the statements that hold others, labels, `goto` and continuations.
//! - `procedure`: `flow`, and the nodes in front.
//! - `sites`, `counts`, `labels`, `temporaries`: the exits of call sites; counts of nodes and of tokens; how many labels a body has, and how
//!   many temporaries its nodes name.
//! - `laws`: what runs over the flows of a program's procedures do, at which sites their nodes wait, and that liveness is kept.
#![tactic(auto)]

mod assignment;
mod block;
mod builder;
mod call;
mod checked;
mod condition;
mod counts;
mod expression;
mod labels;
pub mod laws;
mod procedure;
mod simple;
mod sites;
mod temporaries;

pub use procedure::{flow, flows};
