//! Values that are known before the program runs.

ghost use Rattle.std.specs.Prelude.{◌↔◌, IsTrue};
ghost use Rattle.cmm_words.specs.Constants.{Fits};

use crate::width::Width;

/// A value that is known when a program is linked.
#[derive(Clone, Copy, Debug)]
pub enum Constant {
    /// A word of this width.
    Number(u64, Width),
    /// The address of the code of a procedure, with `plus` bytes added.
    Code { proc: u32, plus: u64 },
    /// The address of a data label, with `plus` bytes added.
    Address { label: u32, plus: u64 },
}

impl Constant {
    /// Whether a number is a word of its width, as anything that computes with it asks.
    pub fn fits(self) -> bool
        ensures { IsTrue result ↔ Fits self }
    {
        match self {
            Constant::Number(word, width) => word <= width.max(),
            Constant::Code { .. } | Constant::Address { .. } => true,
        }
    }
}
