//! The theory of following: when a run of one machine does all that a run of another does, and nothing else.
//!
//! This crate is below every machine of the compiler, and knows none of them. A layer above shows that its machine, the second,
//! simulates the one that it comes from, the first: from related states, each step of the first is done by a path of the second
//! that costs no more, or the second passes it over, and then a rank falls. From that the theory gives both directions over whole runs, in one form: there are
//! places in the run of the second where it has done the steps of the first, one after the other; it is level with the first there, at no more than the cost of those
//! steps, and in between it shows nothing that the step which the first makes meanwhile does not. Simulations and what they give compose from layer to layer with
//! their costs. At the top, a cost of K for each step of the first against 1 for each of the second is agreement with the factor K: down, what the first
//! does in m steps the second does in K * (m + 1); up, wherever the second stands after n steps, the first stands so after fewer than the slack times n + 1, which is n or fewer where no step is passed over, up to the
//! very step with which it goes wrong. All of it stops asking there.
//!
//! The definitions in `specs/`, in the order in which they build on each other:
//!
//! - `Seen`: what is seen of a run, and the events at which a state stands.
//! - `Machine`: a machine, its runs, what they cost, and what lasts in them.
//! - `Observing`: two states that are level, a state that is passed, and one that comes before a run.
//! - `Simulation`: paths with a cost, and simulations, lazy ones among them.
//! - `Following`: both directions, with costs. The slack says of how many steps of the first the second makes one; it is 1 where no step is passed over.
//! - `Agreement`: both directions, in counts of steps, also where the second machine first takes steps of its own.
//!
//! The laws hold for all machines, which a contract cannot say, so they are the public lemmas of `proofs/`: of runs in `Runs`, of
//! paths in `Paths`, of simulations in `Simulations` (lock-step, and along a run) and `Followings` (what follows for whole runs), of both in
//! `Composing` and `Scaling`, and of agreement (from following) in `Agreements`. Slacks of followings are multiplied; ranks of simulations add up where the first one's does
//! not rise while the second passes steps over. Each law is used on the small machines of `examples`, so that a contract names what it gives.
#![tactic(auto)]

pub mod examples;
