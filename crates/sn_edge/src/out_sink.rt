//! The output of the program as a sink.
ghost use Rattle.std.specs.Prelude.{◌≡◌};
ghost use Rattle.sn_edge.specs.OutSink.{IsOutPut};

use crate::output::write_whole;
use crate::{Output, Put, Sink};
use std::marker::Model;

/// An output as a sink. It tells of the bytes that it took what the output tells.
#[derive(Drop)]
pub struct OutSink<W> {
    output: W,
    faults: u64,
}

impl<W> Model for OutSink<W> {
    ghost use Rattle.sn_edge.specs.OutSink.{OutState};

    ghost Value = { OutState W };

    ghost view = { λ s. record { output = s.output; faults = s.faults } };
}

impl<W: Drop> OutSink<W> {
    /// What goes to this output.
    pub fn new(output: W) -> OutSink<W>
        ensures { result ≡ record { output = output; faults = 0 } }
    {
        OutSink { output, faults: 0 }
    }
}

impl<W: Output> Sink for OutSink<W> {
    ghost told = { λ s. record { taken = W.contents s.output; faults = s.faults } };

    ghost put_gives = { IsOutPut W.contents };

    fn put(&mut self, piece: &[u8]) -> Put {
        if self.faults == u64::MAX {
            return Put::NoMemory;
        }
        if write_whole(&mut self.output, piece) {
            return Put::All;
        }
        self.faults += 1;
        Put::Failed
    }
}
