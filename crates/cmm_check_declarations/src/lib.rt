//! The rules on what a unit declares and on its data, and how long its data is.
//!
//! Of the rules that declarations and data break the first is kept while walking, over whatever tells what names mean: each `note_` call
//! says how the first fault goes on, from the definitions of `cmm_static_semantics`. Where the data of a unit ends is told exactly up to the limit on the
//! data of all units. No memory is taken, and time is linear in the unit.
//!
//! - `entries`: the types and values of typedefs, constants and registers; that they depend on themselves is told elsewhere.
//! - `items`: imports, exports, data and spans. `data`: one datum.
//! - `lengths`: how many words a datum or a room of stackdata has, and of how many bytes; where the data of a unit ends. `laying`: where one piece ends.
//! - `laws`: the faults of an entry are those that `entries` tells and that it depends on itself.
#![tactic(auto)]

mod data;
mod entries;
mod items;
mod laws;
mod laying;
mod lengths;

pub use entries::note_entries;
pub use items::{note_item, note_items};
pub use laws::entries_break_by_value_or_cycle;
pub use laying::{DATA_LIMIT, laid};
pub use lengths::{bytes_of, data_count, end_of_data, words_in};
