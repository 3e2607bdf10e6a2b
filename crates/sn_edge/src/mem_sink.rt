//! Bytes kept in memory.
ghost use Rattle.std.specs.Prelude.{◌≡◌, ◌<◌, ◌+◌, ◌-◌, [], Some, Contains};
ghost use Rattle.sn_edge.specs.MemSink.{SinkState, after_put, IsPut};

use crate::{Put, Sink};
use std::marker::Model;

/// A sink that keeps its bytes. The puts with certain numbers fail.
#[derive(Drop)]
pub struct MemSink {
    bytes: Vec<u8>,
    failing: Vec<u64>,
    kept: usize,
    calls: u64,
    faults: u64,
}

impl Model for MemSink {
    ghost use Rattle.std.specs.Prelude.{◌≤◌};
    ghost use Rattle.sn_edge.specs.MemSink.{SinkState};

    ghost Value = { SinkState };

    ghost view = { λ s. record {
      bytes = s.bytes.items;
      failing = s.failing.items;
      kept = s.kept;
      calls = s.calls;
      faults = s.faults;
    } };

    // The count goes up in a call of its own, so it is not full before the calls are.
    ghost invariant = { λ s. s.faults ≤ s.calls };
}

impl MemSink {
    /// A sink with no bytes. The puts whose numbers are in `failing` fail, counted from 0, and keep the
    /// first `kept` bytes of their pieces, or all where there are fewer. One that answers NoMemory is
    /// not counted. After 2^64 - 1 puts each answers NoMemory.
    pub fn new(failing: Vec<u64>, kept: usize) -> MemSink
        ensures { result ≡ record { bytes = []; failing = failing.items; kept = kept; calls = 0; faults = 0 } }
    {
        let bytes = Vec::new(*failing.allocator());
        MemSink {
            bytes,
            failing,
            kept,
            calls: 0,
            faults: 0,
        }
    }

    /// The bytes taken so far.
    pub fn bytes(&self) -> &[u8]
        ensures { result.now ≡ self.now.bytes }
    {
        &self.bytes
    }
}

impl Sink for MemSink {
    ghost told = { λ s. record { taken = Some s.bytes; faults = s.faults } };

    ghost put_gives = { IsPut };

    fn put(&mut self, piece: &[u8]) -> Put
        ensures failing { result ≡ Put.Failed → Contains self.old.failing self.old.calls }
        ensures all { result ≡ Put.All → ¬ Contains self.old.failing self.old.calls }
        ensures next { self.new ≡ after_put self.old piece.now result }
    {
        if self.calls == u64::MAX {
            return Put::NoMemory;
        }
        let fails = self.failing.contains(&self.calls);
        let taken = if fails {
            &piece[..self.kept.min(piece.len())]
        } else {
            piece
        };
        if self.bytes.extend_from_slice(taken).is_err() {
            return Put::NoMemory;
        }
        self.calls += 1;
        if fails {
            self.faults += 1;
            return Put::Failed;
        }
        Put::All
    }
}
