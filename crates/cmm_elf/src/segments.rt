//! What an ELF file has of an image.

use cmm_items::Items;

/// What is loaded into memory, and where a run begins.
pub struct Segments {
    /// The bytes of the code, from `CODE_BASE` on.
    pub code: Items<u8>,
    /// The bytes of data at the start, from `DATA_BASE` on.
    pub initial: Items<u8>,
    /// The address at which a run begins.
    pub entry: u64,
}

/// In one place, so that whoever lets one go has one call to prove.
impl Drop for Segments {
    fn drop(self) {
        let Self {
            code: _,
            initial: _,
            entry: _,
        } = self;
    }
}
