//! Where bytes come from.
ghost use Rattle.std.specs.Prelude.{◌≡◌, ◌<◌, ◌≤◌, ℕ, List, Option, length, take, IfOk, OnErr};
ghost use Rattle.std.specs.Io.KnownBytes.{IsAtEnd};
ghost use Rattle.gql_plain.specs.Counted.{next_count};
ghost use Rattle.relay_io.specs.Causes.{Rose};
ghost use Rattle.relay_io.specs.Streams.{prepend};

use crate::fault::Failed;

/// Gives bytes, a piece at a time.
pub trait Source {
    // The bytes to come, where they are told.
    ghost left: { Self → Option (List ℕ) };

    // A count that never falls, and rises in each call that fails.
    ghost faults: { Self → ℕ };

    // The number of calls.
    ghost calls: { Self → ℕ };

    /// Puts the next bytes into the first places of `into`, which is not empty, and answers how
    /// many they are: 0 at the end alone.
    ///
    /// # Errors
    ///
    /// `Failed` where the reading failed; no byte is lost.
    fn read(&mut self, into: &mut [u8]) -> Result<usize, Failed>
        requires { 0 < length into.old }
        ensures bound { IfOk result (λ k. k ≤ length into.new) }
        ensures bytes { IfOk result (λ k. left self.old ≡ prepend (take k into.new) (left self.new)) }
        ensures end { IfOk result (λ k. k ≡ 0 → IsAtEnd (left self.new)) }
        ensures kept { OnErr result (left self.new ≡ left self.old) }
        ensures failed { OnErr result (Rose (faults self.old) (faults self.new)) }
        ensures later { faults self.old ≤ faults self.new }
        ensures counted { calls self.new ≡ next_count (calls self.old) };
}
