//! What stands in units and in bodies, laid flat, and names: what they are declared as, found by their bytes, or too long.
//!
//! Each unit is laid flat once; of the declarations of a name the first is found, by a table; of the faults of a list the first is kept
//! while walking, so that a clause says how the first fault goes on. Time is linear: a name is hashed a bounded number of times.
//!
//! - `thing`, `piece`: what stands in a unit and in a body, whatever it is nested in.
//! - `entry`, `declaring`: what names are declared as, and where. `numbers`: how procedures and data labels are counted. `host`: names of the
//!   host.
//! - `table`, `index`: names that are found by their bytes.
//! - `long`, `long_expression`, `long_statement`, `long_item`: names that are too long.
#![tactic(auto)]

mod declaring;
mod entry;
mod host;
mod index;
mod long;
mod long_expression;
mod long_item;
mod long_statement;
mod numbers;
mod piece;
mod table;
mod thing;

pub use declaring::{declared_in, exports_in};
pub use entry::Entry;
pub use host::{host_named, is_host};
pub use index::Index;
pub use long_item::note_things;
pub use numbers::Numbers;
pub use piece::{Piece, pieces_of};
pub use table::{Named, Table};
pub use thing::{Thing, things_in, things_of};
