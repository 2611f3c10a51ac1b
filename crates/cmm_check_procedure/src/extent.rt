//! The numbers from one to another.

ghost use Rattle.std.specs.Prelude.{◌≡◌};

/// The numbers from one to another, both included; none where the first is the greater.
#[derive(Clone, Copy)]
pub struct Extent {
    pub low: u64,
    pub high: u64,
}

impl Extent {
    ghost use Rattle.cmm_check_procedure.specs.Extents.{are_apart, shown};

    /// Whether one of the two ends before the other begins.
    pub fn is_apart_from(self, other: Extent) -> bool
        ensures { result ≡ are_apart (shown self) (shown other) }
    {
        other.high < self.low || self.high < other.low
    }
}
