//! The output of a call, in memory.

ghost use Rattle.std.specs.Prelude.{◌≡◌, []};
ghost use Rattle.caller_edge.specs.Outside.{IsKeptPut, output_told};

use sn_edge::{MemSink, Put, Sink};
use std::alloc::Global;
use std::marker::Model;

/// An output that keeps its bytes. No put fails outside.
#[derive(Drop)]
pub struct KeptOutput {
    sink: MemSink,
}

impl Model for KeptOutput {
    ghost use Rattle.std.specs.Prelude.{◌≡◌, List, ℕ, []};

    ghost Value = { List ℕ };

    ghost view = { λ k. k.sink.bytes };

    ghost invariant = { λ k. k.sink.failing ≡ [] };
}

impl KeptOutput {
    /// An output with no bytes.
    pub fn new(alloc: Global) -> KeptOutput
        ensures { result ≡ [] }
    {
        let sink = MemSink::new(Vec::new(alloc), 0);
        KeptOutput { sink }
    }

    /// The bytes so far.
    pub fn bytes(&self) -> &[u8]
        ensures { result.now ≡ self.now }
    {
        self.sink.bytes()
    }
}

impl Sink for KeptOutput {
    ghost told = { output_told };

    ghost put_gives = { IsKeptPut };

    fn put(&mut self, piece: &[u8]) -> Put {
        self.sink.put(piece)
    }
}
