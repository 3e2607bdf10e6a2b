//! Bytes on their way out.
ghost use Rattle.std.specs.Prelude.{◌≡◌, ◌<◌, ℕ, List};
ghost use Rattle.std.specs.Io.KnownBytes.{append_known};
ghost use Rattle.sn_edge.specs.Told.{SinkKept, SinkTold};
ghost use Rattle.sn_edge.specs.declared.sink.Put.{Put};
ghost use Rattle.sn_edge.specs.Put.{OnAll, OnFailed, OnNoMemory};
ghost use Rattle.sn_edge.specs.Pieces.{IsPrefix};

/// What a put answers.
#[derive(Clone, Copy, PartialEq, Eq)]
pub enum Put {
    /// The whole piece was taken.
    All,
    /// The outside failed, maybe after some first bytes.
    Failed,
    /// There was no memory for the bytes, or a count is full. Nothing was taken.
    NoMemory,
}

/// A place that takes bytes in order.
pub trait Sink {
    /// The bytes taken so far, where the sink tells them, and how often the outside has failed.
    ghost told: { Self → SinkTold };

    /// What one call of `put` may answer and leave, for a piece.
    ghost put_gives: { Self → List ℕ → Put → Self → Type 0 };

    /// Takes the bytes of a piece.
    fn put(&mut self, piece: &[u8]) -> Put
        ensures kept { SinkKept (told self.old) (told self.new) }
        ensures gives { put_gives self.old piece.now result self.new }
        ensures failed { OnFailed result ((told self.old).faults < (told self.new).faults) }

        // What was taken is a prefix of the piece: all of it at All, nothing at NoMemory.
        ensures all { OnAll result ((told self.new).taken ≡ append_known (told self.old).taken piece.now) }
        ensures nothing { OnNoMemory result ((told self.new).taken ≡ (told self.old).taken) }
        ensures part { (part : List ℕ) × IsPrefix part piece.now
            × ((told self.new).taken ≡ append_known (told self.old).taken part) };
}
