//! The words of the command line.
//!
//! What a user types is a first word, which says what is asked for, and the words after it. `command_of` reads them all and answers a `Command`,
//! or why there is none. What words mean is stated in `specs/`, and `command_of` is proved to answer that and nothing else.
//!
//! - `command`: `Command`, what is asked for, and `RunLimits`, with those of a run for which nothing is said.
//! - `fault`: `CommandFault`, why words are no command.
//! - `first_word`: the seven first words.
//! - `options`: what each command takes after its first word, as a command of clap.
//! - `sorted`: words by the option or the position that they were given to, and files and limits read from them.
//! - `numbers`: the numbers that words write.
//! - `laws`: the limits that each command keeps.
//! - `words`: `command_of`, over one function a first word.
//!
//! `specs/Options.antt` has what each command takes, `specs/Meaning.antt` what the words mean then.
#![tactic(auto)]

mod command;
mod fault;
mod first_word;
pub mod laws;
mod numbers;
mod options;
mod sorted;
mod words;

pub use command::{Command, RunLimits, USUAL_STACK, USUAL_STEPS};
pub use fault::CommandFault;
pub use words::command_of;
