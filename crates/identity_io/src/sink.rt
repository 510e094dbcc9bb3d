//! What bytes are written to.
ghost use Rattle.std.specs.Prelude.{ℕ, ◌<◌, List, length, IfOk};
ghost use Rattle.std.specs.declared.option.Option.{Option};
ghost use Rattle.std.specs.Io.{WritesAtMost};
ghost use Rattle.std.specs.Io.KnownBytes.{WriteAppends};
ghost use Rattle.identity_io.specs.Causes.{HasCause};

use crate::Failed;

/// Takes bytes, and counts its faults.
pub trait Sink {
    /// The bytes that were written, where the sink tells them.
    ghost written: { Self → Option (List ℕ) };

    /// How many calls failed, up to 2^64 - 1.
    ghost faults: { Self → ℕ };

    /// Appends the first of the bytes, and answers how many: at least one where there are any. `Failed` with the count of faults risen; then
    /// nothing is appended.
    fn write(&mut self, bytes: &[u8]) -> Result<usize, Failed>
        ensures bound { WritesAtMost result bytes.now }
        ensures bytes { WriteAppends (written self.old) (written self.new) result bytes.now }
        ensures some { 0 < length bytes.now → IfOk result (λ n. 0 < n) }
        ensures cause { HasCause (faults self.old) (faults self.new) result };
}
