//! A source over a reader.
ghost use Rattle.std.specs.Prelude.{◌≡◌, ◌<◌, ◌≤◌, ℕ, List, None, length, take, is_ok, IfOk, OnErr};
ghost use Rattle.std.specs.Io.KnownBytes.{ReadConsumes};
ghost use Rattle.gql_plain.specs.Counted.{next_count};
ghost use Rattle.relay_io.specs.Adapters.{after_call, fresh};
ghost use Rattle.relay_io.specs.Causes.{Rose};

use crate::fault::Failed;
use crate::source::Source;
use std::io::Read;
use std::marker::Model;

/// The bytes of a reader, by one `read` a call. It tells no content, and counts as a fault each
/// call that answers an error.
#[derive(Drop)]
pub struct StdSource<R: Read> {
    inner: R,
    calls: u64,
    faults: u64,
}

impl<R: Read> Model for StdSource<R> {
    ghost use Rattle.relay_io.specs.Adapters.{Adapter};

    ghost Value = { Adapter };

    ghost view = { λ s. record { bytes = R.remaining s.inner; tally = record { calls = s.calls; faults = s.faults } } };
}

impl<R: Read> StdSource<R> {
    /// A source over a reader; takes no memory.
    pub fn new(inner: R) -> StdSource<R>
        ensures { result ≡ record { bytes = R.remaining inner; tally = fresh } }
    {
        StdSource {
            inner,
            calls: 0,
            faults: 0,
        }
    }
}

impl<R: Read> Source for StdSource<R> {
    ghost left = { λ _. None };

    ghost faults = { λ s. s.tally.faults };

    ghost calls = { λ s. s.tally.calls };

    fn read(&mut self, into: &mut [u8]) -> Result<usize, Failed>
        requires { 0 < length into.old }
        ensures bound { IfOk result (λ k. k ≤ length into.new) }
        ensures failed { OnErr result (Rose self.old.tally.faults self.new.tally.faults) }
        ensures later { self.old.tally.faults ≤ self.new.tally.faults }
        ensures counted { self.new.tally.calls ≡ next_count self.old.tally.calls }
        ensures taken { ReadConsumes self.old.bytes self.new.bytes result into.new }
        ensures after { self.new.tally ≡ after_call self.old.tally (is_ok result) }
    {
        self.calls = self.calls.saturating_add(1);
        let Ok(count) = self.inner.read(into) else {
            self.faults = self.faults.saturating_add(1);
            return Err(Failed);
        };
        Ok(count)
    }
}
