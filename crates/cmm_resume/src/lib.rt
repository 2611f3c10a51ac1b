//! What a client changes of a stopped program.
//!
//! Each call does to registers and memory what a command of the client does by definition (`cmm_program.specs.Commands`), or says by which rule it is
//! refused, and then changes nothing. That holds for every image and memory, hostile ones too. None takes memory.
//!
//! Finding and doing are apart in each change, so that what a change would be refused with can be asked without making it:
//!
//! | change | finding | doing |
//! |---|---|---|
//! | `set_local_var` | `place_to_set` | `set_word_at` |
//! | `poke` | `place_to_poke` | `Memory::set_data_word` |
//! | `resume_return` | `return_target` | `resume_at` |
//! | `resume_unwind` | `unwind_target` | `unwind_to` |
//! | `resume_cut` | `cut_target` | `cut_to` |
//!
//! - `setting`, `poking`: changes after which the program still stands.
//! - `returning`, `unwinding`, `cutting`: changes after which it goes on.
//! - `values`: values that are brought to their places, and whether they fit what takes them.
//! - `refusal`: `Refusal`. `laws`: that the client's commands are to find, and then to do.
//!
//! `specs/Answering` says what a call answers, and `specs/Finding` what is found.
#![tactic(auto)]

mod cutting;
pub mod laws;
mod poking;
mod refusal;
mod returning;
mod setting;
mod unwinding;
mod values;

pub use cutting::{CutTarget, cut_target, cut_to, resume_cut};
pub use poking::{place_to_poke, poke};
pub use refusal::Refusal;
pub use returning::{resume_return, return_target};
pub use setting::{place_to_set, set_local_var, set_word_at};
pub use unwinding::{resume_unwind, unwind_target, unwind_to};
pub use values::resume_at;
