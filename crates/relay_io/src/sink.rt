//! Where bytes go.
ghost use Rattle.std.specs.Prelude.{◌≡◌, ◌<◌, ◌≤◌, ℕ, List, Option, length, take, IfOk, OnErr};
ghost use Rattle.gql_plain.specs.Counted.{next_count};
ghost use Rattle.relay_io.specs.Causes.{Rose};
ghost use Rattle.relay_io.specs.Streams.{append};

use crate::fault::Failed;

/// Takes bytes, a piece at a time.
pub trait Sink {
    // The bytes that it holds, where they are told.
    ghost contents: { Self → Option (List ℕ) };

    // A count that never falls, and rises in each call that fails.
    ghost faults: { Self → ℕ };

    // The number of calls.
    ghost calls: { Self → ℕ };

    /// Takes some of the first of `bytes`, which is not empty, and answers how many: at least 1.
    ///
    /// # Errors
    ///
    /// `Failed` where the writing failed; nothing is taken.
    fn put(&mut self, bytes: &[u8]) -> Result<usize, Failed>
        requires { 0 < length bytes.now }
        ensures bound { IfOk result (λ k. (0 < k) × (k ≤ length bytes.now)) }
        ensures bytes { IfOk result (λ k. contents self.new ≡ append (contents self.old) (take k bytes.now)) }
        ensures kept { OnErr result (contents self.new ≡ contents self.old) }
        ensures failed { OnErr result (Rose (faults self.old) (faults self.new)) }
        ensures later { faults self.old ≤ faults self.new }
        ensures counted { calls self.new ≡ next_count (calls self.old) };
}
