//! A source in memory.
ghost use Rattle.std.specs.Prelude.{◌≡◌, ◌<◌, ◌≤◌, ◌++◌, ℕ, List, Some, length, take, drop, not, is_ok, IfOk, OnErr};
ghost use Rattle.std.specs.Io.KnownBytes.{IsAtEnd};
ghost use Rattle.gql_plain.specs.Counted.{next_count};
ghost use Rattle.relay_io.specs.Causes.{Rose};
ghost use Rattle.relay_io.specs.Memory.{source_after, source_fails, source_gives};
ghost use Rattle.relay_io.specs.Streams.{prepend};

use crate::fault::Failed;
use crate::source::Source;
use std::marker::Model;

/// Bytes in memory. It fails at the calls that it is told to fail at, numbered from 1.
#[derive(Debug, Drop)]
pub struct MemSource {
    bytes: Vec<u8>,
    at: usize,
    piece: usize,
    failing: Vec<u64>,
    calls: u64,
    faults: u64,
}

impl Model for MemSource {
    ghost use Rattle.std.specs.Prelude.{◌≤◌, ◌<◌, length, drop};
    ghost use Rattle.relay_io.specs.Memory.{SourceState};

    ghost Value = { SourceState };

    ghost view = { λ s. record { left = drop s.at s.bytes.items; piece = s.piece; failing = s.failing.items; calls = s.calls; faults = s.faults } };

    ghost invariant = { λ s. (s.at ≤ length s.bytes.items) × (0 < s.piece) };
}

impl MemSource {
    /// A source that gives at most `piece` bytes a call, of which there is at least 1.
    pub fn new(bytes: Vec<u8>, piece: usize, failing: Vec<u64>) -> MemSource
        requires { 0 < piece }
        ensures { result ≡ record { left = bytes.items; piece = piece; failing = failing.items; calls = 0; faults = 0 } }
    {
        MemSource {
            bytes,
            at: 0,
            piece,
            failing,
            calls: 0,
            faults: 0,
        }
    }
}

impl Source for MemSource {
    ghost left = { λ s. Some s.left };

    ghost faults = { λ s. s.faults };

    ghost calls = { λ s. s.calls };

    fn read(&mut self, into: &mut [u8]) -> Result<usize, Failed>
        requires { 0 < length into.old }
        ensures bound { IfOk result (λ k. k ≤ length into.new) }
        ensures bytes { IfOk result (λ k. Some self.old.left ≡ prepend (take k into.new) (Some self.new.left)) }
        ensures end { IfOk result (λ k. k ≡ 0 → IsAtEnd (Some self.new.left)) }
        ensures kept { OnErr result (Some self.new.left ≡ Some self.old.left) }
        ensures failed { OnErr result (Rose self.old.faults self.new.faults) }
        ensures later { self.old.faults ≤ self.new.faults }
        ensures counted { self.new.calls ≡ next_count self.old.calls }
        ensures fails { is_ok result ≡ not (source_fails self.old) }
        ensures gives { IfOk result (λ k. k ≡ source_gives self.old (length into.old)) }
        ensures into { IfOk result (λ k. into.new ≡ take k self.old.left ++ drop k into.old) }
        ensures into_kept { OnErr result (into.new ≡ into.old) }
        ensures after { self.new ≡ source_after self.old (length into.old) }
    {
        self.calls = self.calls.saturating_add(1);
        if self.failing.contains(&self.calls) {
            self.faults = self.faults.saturating_add(1);
            return Err(Failed);
        }
        let rest = &self.bytes[self.at..];
        let count = rest.len().min(into.len()).min(self.piece);
        into[..count].copy_from_slice(&rest[..count]);
        self.at += count;
        Ok(count)
    }
}
