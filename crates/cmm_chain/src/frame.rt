//! The frame of a procedure, and the places of its locals.

use cmm_items::Items;

/// Where an activation keeps a local.
#[derive(Clone, Copy, PartialEq, Eq)]
pub enum Location {
    /// In the 8 bytes at an offset of its frame, a multiple of 8.
    Slot(u32),
    /// In a callee-saves register: 9, or 18 to 27. Its procedure saves what the caller had there.
    Saved(u8),
    /// In another register, 12 to 15 or 28 to 31, which lasts over no call.
    Temp(u8),
}

/// How the frames of a procedure are laid out. Offsets and sizes are in bytes, from the frame's address.
pub struct Frame {
    pub size: u32,
    /// Where the return address is saved.
    pub return_at: u32,
    /// The callee-saves registers that the procedure saves, each with the offset of its word.
    pub saved: Items<(u8, u32)>,
    /// The offset of each continuation's pair of words: the address of its code, and that of the frame.
    pub pairs: Items<u32>,
    /// The offset of each stackdata label.
    pub stack: Items<u32>,
}

/// In one place, so that whoever lets one go has one call to prove.
impl Drop for Frame {
    fn drop(self) {
        let Self {
            size: _,
            return_at: _,
            saved: _,
            pairs: _,
            stack: _,
        } = self;
    }
}
