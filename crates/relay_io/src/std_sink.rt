//! A sink over a writer.
ghost use Rattle.std.specs.Prelude.{◌≡◌, ◌<◌, ◌≤◌, ℕ, List, None, length, take, is_ok, IfOk, OnErr};
ghost use Rattle.std.specs.Io.KnownBytes.{Appends};
ghost use Rattle.gql_plain.specs.Counted.{next_count};
ghost use Rattle.relay_io.specs.Adapters.{after_call, fresh};
ghost use Rattle.relay_io.specs.Causes.{Rose};

use crate::fault::Failed;
use crate::sink::Sink;
use std::io::Write;
use std::marker::Model;

/// Writes to a writer: one `write` and one `flush` a call, and a write that takes nothing is a
/// fault. It tells no content, and counts as a fault each call that answers an error.
#[derive(Drop)]
pub struct StdSink<W: Write> {
    inner: W,
    calls: u64,
    faults: u64,
}

impl<W: Write> Model for StdSink<W> {
    ghost use Rattle.relay_io.specs.Adapters.{Adapter};

    ghost Value = { Adapter };

    ghost view = { λ s. record { bytes = W.contents s.inner; tally = record { calls = s.calls; faults = s.faults } } };
}

impl<W: Write> StdSink<W> {
    /// A sink over a writer; takes no memory.
    pub fn new(inner: W) -> StdSink<W>
        ensures { result ≡ record { bytes = W.contents inner; tally = fresh } }
    {
        StdSink {
            inner,
            calls: 0,
            faults: 0,
        }
    }
}

impl<W: Write> Sink for StdSink<W> {
    ghost contents = { λ _. None };

    ghost faults = { λ s. s.tally.faults };

    ghost calls = { λ s. s.tally.calls };

    fn put(&mut self, bytes: &[u8]) -> Result<usize, Failed>
        requires { 0 < length bytes.now }
        ensures bound { IfOk result (λ k. (0 < k) × (k ≤ length bytes.now)) }
        ensures failed { OnErr result (Rose self.old.tally.faults self.new.tally.faults) }
        ensures later { self.old.tally.faults ≤ self.new.tally.faults }
        ensures counted { self.new.tally.calls ≡ next_count self.old.tally.calls }
        ensures written { IfOk result (λ k. Appends self.old.bytes self.new.bytes (take k bytes.now)) }
        ensures after { self.new.tally ≡ after_call self.old.tally (is_ok result) }
    {
        self.calls = self.calls.saturating_add(1);
        if let Ok(count) = self.inner.write(bytes)
            && count > 0
            && self.inner.flush().is_ok()
        {
            return Ok(count);
        }
        self.faults = self.faults.saturating_add(1);
        Err(Failed)
    }
}
