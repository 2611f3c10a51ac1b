//! What an image is made of.

use crate::rows::{GlobalRow, LabelRow, ProcRow, SiteRow};
use cmm_items::Items;

/// The code, the data and the tables of an image, which may break the format's rules.
#[derive(Drop)]
pub struct ImageParts {
    /// The version of the format in which it has bytes; what the image does hangs on nothing of it.
    pub version: u32,
    /// The bytes of the code, from `CODE_BASE` on.
    pub code: Items<u8>,
    /// The bytes of data at the start, from `DATA_BASE` on.
    pub initial: Items<u8>,
    /// The address at which a run begins.
    pub start: u64,
    /// The return address of main's call.
    pub last: u64,
    /// Which procedure is main.
    pub main: u32,
    /// The procedures, in the order of their addresses.
    pub procs: Items<ProcRow>,
    /// The call sites, in the order of their return addresses.
    pub sites: Items<SiteRow>,
    /// The exported data labels, in the order of their link names.
    pub labels: Items<LabelRow>,
    /// The global registers, in the order of their names, which is that of their words in the region.
    pub globals: Items<GlobalRow>,
}
