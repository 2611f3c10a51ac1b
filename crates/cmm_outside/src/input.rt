//! Sources of bytes.

ghost use Rattle.std.specs.Prelude.{◌≡◌, ℕ, ◌≤◌, List, Option, Ok, length, IfOk, OnOk, OnErr};
ghost use Rattle.cmm_outside.specs.Faults.{Rose};
ghost use Rattle.cmm_outside.specs.Input.{Reads};

use crate::Failed;

/// A stream of input bytes.
pub trait Source {
    /// The bytes that are left, where the source tells them.
    ghost left: { Self → Option (List ℕ) };

    /// How many calls have failed.
    ghost faults: { Self → ℕ };

    /// Reads up to `buffer.len()` bytes into the front of `buffer`, and answers how many. 0 for a buffer
    /// that is not empty means the end of input.
    fn read(&mut self, buffer: &mut [u8]) -> Result<usize, Failed>
        ensures bound { IfOk result (λ n. n ≤ length buffer.old) }
        ensures read { IfOk result (λ n. Reads (left self.old) (left self.new) (length buffer.old) buffer.new n) }
        ensures err { OnErr result (left self.new ≡ left self.old) }

        // It fails only where the count of faults rises, and that rises only where it fails.
        ensures no_fault { OnOk result (faults self.new ≡ faults self.old) }
        ensures fault { OnErr result (Rose (faults self.old) (faults self.new)) }

        // An empty buffer does nothing.
        ensures nothing { length buffer.old ≡ 0 → (result ≡ Ok 0) × (self.new ≡ self.old) };
}
