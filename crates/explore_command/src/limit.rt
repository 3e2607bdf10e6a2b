//! The limit of the records of a report.

ghost use Rattle.std.specs.Prelude.{◌≡◌, ◌<◌};

use std::marker::Model;

/// The most paths and refuted sides of a report, at least one, which contracts see as that number.
#[derive(Clone, Copy)]
pub struct RecordLimit {
    count: u32,
}

impl Model for RecordLimit {
    ghost use Rattle.std.specs.Prelude.{ℕ, ◌<◌};

    ghost Value = { ℕ };

    ghost view = { λ limit. limit.count };

    ghost invariant = { λ limit. 0 < limit.count };

    ghost inverse = { λ n. record { count = n } };
}

impl RecordLimit {
    pub fn new(count: u32) -> RecordLimit
        requires { 0 < count }
        ensures { result ≡ count }
    {
        RecordLimit { count }
    }

    pub fn count(self) -> u32
        ensures value { result ≡ self }
        ensures some { 0 < result }
    {
        self.count
    }
}
