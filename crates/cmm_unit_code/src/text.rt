//! The code of a program.

use cmm_items::Items;

/// The code of a program, as it stands in an image.
#[derive(Drop)]
pub struct Text {
    /// Its bytes, from `CODE_BASE` on.
    pub code: Items<u8>,
    /// The address at which a run begins.
    pub start: u64,
    /// The return address of main's call.
    pub last: u64,
    /// The address of each procedure's code, in the order of the procedures.
    pub procedures: Items<u64>,
    /// Of each procedure, the address at which a cut to each of its continuations lands.
    pub landings: Items<Items<u64>>,
    /// Of each procedure, the return address of each of its sites.
    pub sites: Items<Items<u64>>,
}
