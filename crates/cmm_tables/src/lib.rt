//! The rows of a program's sites before its code has addresses.
//!
//! A walker finds activations by the rows of their sites. What such a row says is known before code is joined: which exits a site has, and where each variable stays
//! while its activation waits there, for variables that are live, by the sets that say so. Where continuations are landed at and which numbers spans have is known to
//! whoever joins code, and makes rows of an image of these.
//!
//! - `unplaced`: the row of a site without addresses. `rows`: the rows of a procedure's sites.
//! - `specs/ProcedureRows`, `specs/SiteRows`: what rows of procedures and sites say, without addresses and with them.
#![tactic(auto)]

mod rows;
mod unplaced;

pub use rows::site_rows;
pub use unplaced::UnplacedSite;
