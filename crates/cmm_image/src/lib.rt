//! Images: what the compiler makes of a program, and what runs.
//!
//! An image has the code and the data of a program, and the tables by which a stopped program's stack is walked: a row for each procedure,
//! each call site, each exported data label and each global register. This layer promises that bytes are read to an image exactly where
//! they spell it, that the first field that breaks a rule is named of any other bytes, and that an image is written as it is read.
//!
//! - `image`: `Image`, whose parts keep every rule of the format. `parts`, `rows`: its parts, and the rows of its tables. `search`: where a site
//!   is among them.
//! - `reading`, `fault`: `read_image`, and why there is no image. `writing`: `write_image`, `write_header`.
//! - `bounds`: what the numbers of records are measured by. `widths`: widths as they are read.
//! - `header`, `procedure`, `procedure_parts`, `site`, `site_parts`, `symbols`: the records as they are read. `second_reading`,
//!   `procedure_record`, `live_site`, `live`: those of version 2.
//! - `row_bytes`: the records as they are written. `second_bytes`: those of version 2.
//! - `migrating`: `migrate`, from bytes of version 1 to those of version 2. `differing`: which variable has another place than before, so that
//!   version 2 has no bytes for it; `offset`: where that place stands.
//! - `laws`: what bytes are, an image or a first fault.
//!
//! The format is one table, `specs/ImageFormat`, a line a field, over the kinds of field of `cmm_format` and `specs/Places`; `specs/Images`
//! says which bytes are an image and which field is named of others.
#![tactic(auto)]

mod bounds;
mod differing;
mod fault;
mod header;
mod image;
pub mod laws;
mod live;
mod live_site;
mod migrating;
mod offset;
mod parts;
mod procedure;
mod procedure_parts;
mod procedure_record;
mod reading;
mod row_bytes;
mod rows;
mod search;
mod second_bytes;
mod second_reading;
mod site;
mod site_parts;
mod symbols;
mod widths;
mod writing;

pub use fault::ImageFault;
pub use header::SECOND_VERSION;
pub use image::Image;
pub use migrating::migrate;
pub use parts::ImageParts;
pub use reading::{IMAGE_LIMIT, read_image};
pub use rows::{
    ContinuationNumber, ContinuationRow, GlobalRow, LabelRow, ProcRow, SavedRegister, SiteRow,
    SpanRow, StackLabelRow, UnwindRow, VariableNumber, VariablePlace, VariableRow,
};
pub use writing::{write_header, write_image};
