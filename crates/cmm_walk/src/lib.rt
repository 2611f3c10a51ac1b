//! The walk of a stopped program: its suspended activations, one after the other, as image, registers and memory show them.
//!
//! A walk begins at `youngest` and goes on by `next_activation`, until there is none or the chain of frames breaks. What it answers is what the
//! definition of the chain (`cmm_image_machine.specs.Frames`) has at that point, for every image and memory, hostile ones too. An `Activation` copies
//! no frame: it names rows of the image, and says where its values are. It is asked with the image and the memory that it was found in; that the
//! program's words change in between makes no difference, since it is the stack alone that it has to fit. No call takes memory.
//!
//! - `activation`: `Activation`, and where its values of callee-saves registers are.
//! - `chain`: `youngest`, `next_activation`, and `Torn`, where a chain breaks.
//! - `variable`: what is shown of an activation: descriptors, variables, stackdata labels.
//! - `walking`, `lines`: the walk as text.
//! - `place`: the places of words, in registers and in the stack. `rows`: the rows of an image by their numbers.
//!
//! `specs/Activations` says what an activation is in the chain, and when it fits; `specs/Walking`, `specs/Shown` and `specs/Texts` what is answered.
#![tactic(auto)]

mod activation;
mod chain;
mod lines;
mod place;
mod rows;
mod variable;
mod walking;

pub use activation::{Activation, Kept, register_of};
pub use chain::{Torn, next_activation, youngest};
pub use place::{Place, word_at};
pub use rows::{procedure_of, site_at};
pub use variable::{NoVar, Var, descriptor, local_var, stack_label, var_count, variable_place};
pub use walking::{WalkError, write_walk};
