//! The parts of the program that accepted units mean, from their trees, over whatever tells what names mean.
//!
//! Each answer is what the definitions of `cmm_elaboration` say of that part of a tree. They fail only for want of memory. Numbers of a program have
//! 32 bits: where one would have more, the answer has the greatest instead, and the clause that tells of the definition has the premise that
//! none has. In accepted units none has. Time is linear.
//!
//! - `values`: values, conditions and callees. `places`: what is assigned to. `constants`: widths, and constants of the linker.
//! - `data`: the data of a unit. `labels`: its labels. `links`: the names under which they are exported. `lengths`: alignments and lengths.
//! - `globals`: the registers of all units, and where the program starts.
//! - `variables`, `stackdata`, `continuations`: what a procedure has.
//! - `laws`: what fits a program, by which the premises hold of accepted units.
#![tactic(auto)]

mod constants;
mod continuations;
mod data;
mod globals;
mod labels;
pub mod laws;
mod lengths;
mod links;
mod places;
mod stackdata;
mod values;
mod variables;

pub use constants::{
    constant_alone_at, constant_at, number_at, number_of_primary_at, span_value, width_at,
};
pub use continuations::{continuation_number, conts_of, variable_number};
pub use data::add_datums;
pub use globals::{globals_of, main_of};
pub use labels::add_labels;
pub use links::Links;
pub use places::{place_of, target_of};
pub use stackdata::stack_items;
pub use values::{callee_of, condition_of, value_of, values_of};
pub use variables::variable_infos;
