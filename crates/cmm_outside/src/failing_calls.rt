//! The calls of an object in memory: how many were made, and which are to fail.

ghost use Rattle.std.specs.Prelude.{◌≡◌, ◌↔◌, ◌⊎◌, false, is_err, IsErr, OnErr};
ghost use Rattle.cmm_outside.specs.Faults.{Rose};

use crate::Failed;
use crate::fault_count::FaultCount;
use std::marker::Model;

/// Calls that are counted from 0, of which the listed ones fail. Both counts stay at `u64::MAX`.
#[derive(Drop)]
pub struct FailingCalls {
    made: u64,
    failing: Vec<u64>,
    faults: FaultCount,
}

impl Model for FailingCalls {
    ghost use Rattle.cmm_outside.specs.FailingCalls.{Calls};

    ghost Value = { Calls };

    ghost view = { λ c. record { made = c.made; failing = c.failing.items; faults = c.faults } };
}

impl FailingCalls {
    ghost use Rattle.cmm_outside.specs.FailingCalls.{IsNextListed, after_call, no_calls};

    /// No call is made yet. The list may be in any order and name a call twice.
    pub fn new(failing: Vec<u64>) -> Self
        ensures { result ≡ no_calls failing.items }
    {
        FailingCalls {
            made: 0,
            failing,
            faults: FaultCount::new(),
        }
    }

    /// Makes a call, which fails where it is listed and where it is not possible.
    pub fn make_call(&mut self, possible: bool) -> Result<(), Failed>
        ensures fails { IsErr result ↔ (IsNextListed self.old ⊎ (possible ≡ false)) }
        ensures counted { self.new ≡ after_call self.old (is_err result) }
        ensures fault { OnErr result (Rose self.old.faults self.new.faults) }
    {
        let listed = self.failing.contains(&self.made);
        self.made = self.made.saturating_add(1);
        if listed || !possible {
            return Err(self.faults.rise());
        }
        Ok(())
    }
}
