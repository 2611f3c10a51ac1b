//! The count of an object's failed calls.

ghost use Rattle.std.specs.Prelude.{◌≡◌};
ghost use Rattle.cmm_outside.specs.Faults.{Rose, next_count};

use crate::Failed;
use std::marker::Model;

/// A count of failed calls, which stays at `u64::MAX`.
#[derive(Drop)]
pub struct FaultCount {
    count: u64,
}

impl Model for FaultCount {
    ghost use Rattle.std.specs.Prelude.{ℕ};

    ghost Value = { ℕ };

    ghost view = { λ f. f.count };
}

impl FaultCount {
    /// No call has failed.
    pub fn new() -> Self
        ensures { result ≡ 0 }
    {
        FaultCount { count: 0 }
    }

    /// Counts a call that has failed, and gives its answer.
    pub fn rise(&mut self) -> Failed
        ensures counted { self.new ≡ next_count self.old }
        ensures rose { Rose self.old self.new }
    {
        self.count = self.count.saturating_add(1);
        Failed
    }
}
