//! Formats of bytes: tables of fields, read and written by one description.
//!
//! A format says which bytes spell a value, which values have a spelling, and what stands at the front of bytes: a value, or the first field that
//! breaks a rule, with what is left from its first byte on. Formats are put together from numbers, blocks and texts by conditions, by one field
//! after another, and by rows; each field names the rule that is broken where the bytes end inside it. This layer promises that a reader takes
//! from bytes what the format says stands at their front, that writers add the bytes that spell a value, and that a format made of these parts
//! reads what it spells and nothing else.
//!
//! - `fault`: `Broken`, the field and the rule; `Unread`, why there is no value.
//! - `reader`: `Reader`, over the bytes that are left. `fields`: fields as they are written.
//! - `record`: records, one after another, read (`Read`) and written (`Write`).
//!
//! `specs/Formats` has the kinds of field, `specs/Wholes` what all of the bytes are, `specs/Reading` what readers answer; `proofs/Shared` has for each
//! kind the lemma that it is exact.
#![tactic(auto)]

mod fault;
mod fields;
mod reader;
mod record;

pub use fault::{Broken, Unread};
pub use fields::{
    put_count8, put_count16, put_count32, put_name, put_rows8, put_rows16, put_u8, put_u16,
    put_u32, put_u64, put_width,
};
pub use reader::{Reader, broken, require};
pub use record::{Read, Write, read_rows, read_rows8, read_rows16, write_rows};
