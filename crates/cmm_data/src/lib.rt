//! Where the data of a program lies, and its bytes.
//!
//! `lay_out` gives the address of each data label and the bytes of all data, from the first address of data on. The
//! address of a procedure in an initial value is known only once code has its place: such bytes are left 0, and a fix
//! says whose address they wait for. With the fixes filled by the addresses that a placement gives, the bytes are those
//! of the definition, whatever the placement is. So data can be laid out before any code is made.
//!
//! - `layout`: `lay_out`. `labels`: the addresses of labels. `image`: the bytes, and what waits in them.
//! - `fix`: fixes, and `fill`, which gives one its procedure's address.
//! - `laws`: that programs in range can be laid out, and what filling the fixes one after another comes to.
#![tactic(auto)]

mod fix;
mod image;
mod labels;
pub mod laws;
mod layout;

pub use fix::{Fix, fill};
pub use layout::{DataImage, lay_out};
