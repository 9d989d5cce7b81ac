//! A sink in memory.
ghost use Rattle.std.specs.Prelude.{◌≡◌, ◌<◌, ◌≤◌, ℕ, List, [], Some, length, take, not, is_ok, IfOk, OnErr};
ghost use Rattle.gql_plain.specs.Counted.{next_count};
ghost use Rattle.relay_io.specs.Causes.{Rose};
ghost use Rattle.relay_io.specs.Memory.{sink_after, sink_fails, sink_takes};
ghost use Rattle.relay_io.specs.Streams.{append};

use crate::fault::Failed;
use crate::sink::Sink;
use gql_plain::NoMemory;
use std::alloc::Global;
use std::marker::Model;

/// Holds what is put, up to a number of bytes. It fails at the calls that it is told to fail at,
/// numbered from 1, and where its room is used up.
#[derive(Debug, Drop)]
pub struct MemSink {
    bytes: Vec<u8>,
    room: usize,
    piece: usize,
    failing: Vec<u64>,
    calls: u64,
    faults: u64,
}

impl Model for MemSink {
    ghost use Rattle.std.specs.Prelude.{◌≤◌, ◌<◌, length, vec_capacity};
    ghost use Rattle.relay_io.specs.Memory.{SinkState};

    ghost Value = { SinkState };

    ghost view = { λ s. record { contents = s.bytes.items; room = s.room; piece = s.piece; failing = s.failing.items; calls = s.calls; faults = s.faults } };

    ghost invariant = { λ s. (length s.bytes.items ≤ s.room) × (s.room ≤ vec_capacity s.bytes) × (0 < s.piece) };
}

impl MemSink {
    /// A sink that holds at most `room` bytes and takes at most `piece` of them a call, of which
    /// there is at least 1. All its memory is taken here.
    pub fn new(
        alloc: Global,
        room: usize,
        piece: usize,
        failing: Vec<u64>,
    ) -> Result<MemSink, NoMemory>
        requires { 0 < piece }
        ensures { IfOk result (λ s. s ≡ record { contents = []; room = room; piece = piece; failing = failing.items; calls = 0; faults = 0 }) }
    {
        let bytes = Vec::with_capacity(alloc, room)?;
        Ok(MemSink {
            bytes,
            room,
            piece,
            failing,
            calls: 0,
            faults: 0,
        })
    }

    /// What was put.
    pub fn contents(&self) -> &[u8]
        ensures { result.now ≡ self.now.contents }
    {
        &self.bytes
    }
}

impl Sink for MemSink {
    ghost contents = { λ s. Some s.contents };

    ghost faults = { λ s. s.faults };

    ghost calls = { λ s. s.calls };

    fn put(&mut self, bytes: &[u8]) -> Result<usize, Failed>
        requires { 0 < length bytes.now }
        ensures bound { IfOk result (λ k. (0 < k) × (k ≤ length bytes.now)) }
        ensures bytes { IfOk result (λ k. Some self.new.contents ≡ append (Some self.old.contents) (take k bytes.now)) }
        ensures kept { OnErr result (Some self.new.contents ≡ Some self.old.contents) }
        ensures failed { OnErr result (Rose self.old.faults self.new.faults) }
        ensures later { self.old.faults ≤ self.new.faults }
        ensures counted { self.new.calls ≡ next_count self.old.calls }
        ensures fails { is_ok result ≡ not (sink_fails self.old) }
        ensures takes { IfOk result (λ k. k ≡ sink_takes self.old bytes.now) }
        ensures after { self.new ≡ sink_after self.old bytes.now }
    {
        self.calls = self.calls.saturating_add(1);
        if self.failing.contains(&self.calls) || self.bytes.len() == self.room {
            self.faults = self.faults.saturating_add(1);
            return Err(Failed);
        }
        let count = (self.room - self.bytes.len())
            .min(bytes.len())
            .min(self.piece);
        self.bytes.extend_from_slice(&bytes[..count]).unwrap();
        Ok(count)
    }
}
