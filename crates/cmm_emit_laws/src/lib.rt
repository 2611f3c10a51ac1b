//! Correctness of code generation: where each node's code meets its contract, the image simulates the machine after allocation.
//!
//! The state relation says when registers and bytes of the RISC-V machine represent a state of the located machine: at the addresses that finished code gives
//! the symbols they have just the words, cells, global registers and travelling values of that state, and anything where nothing is known. Memory that is no
//! data and lies outside of the region of the stack is a parameter of the relation, and stays, whatever it is. Each effect of code
//! (`cmm_effects`, `cmm_calls`) preserves it. From a machine state that represents a state at a node, the node's code leads to one that represents the state
//! after the node's step, within 32 instructions for each token of the node, or makes the request of the step by an ECALL. So the image simulates the located
//! machine, and follows it from its first state on.
//!
//! - `specs/Words`, `specs/Represented`: how numbers represent words, and which states represent which. `specs/StateLaws`, `state_laws`: what each effect preserves.
//! - `specs/Outside`, `specs/Serving`: when an image simulates a machine: each step is instructions alone, or instructions around one request.
//!   `specs/RequestLaws`, `request_laws`: an image does so for itself. That it simulates every such machine holds of machines of any type, which a contract
//!   cannot say, so it is the public lemma `image_simulates` of `proofs/Shared`.
//! - `specs/Finished`: where code stands, and what its labels and symbols are. `specs/NodeCode`: what is required of the code of each node.
//!   `specs/ProgramCode`: the conditions on finished code from which the simulation follows. `specs/Standing`: which machine states represent a state.
//!   `specs/Starting`: the code with which a run begins.
//! - `specs/Steps`: what the code of one node does, and what is represented where the run ends.
//! - `specs/Laying`, `Placing`, `Naming`: what the layout of frames, finished bytes and graphs give of what is required.
//! - `starting`: the code with which a run begins. `examples`, `call_example`: the code of small programs, with which what is required of code is met.
//! - `laws`: that the image simulates the located machine, and follows it from its first state on.
//!
//! An error of a function that appends code is want of memory, and then a part of the code may be there.
#![tactic(auto)]

pub mod call_example;
pub mod examples;
pub mod laws;
pub mod request_laws;
pub mod starting;
pub mod state_laws;
