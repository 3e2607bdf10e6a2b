//! Why records are not confirmed.

use crate::part::Part;
use sn_width::NoMemory;

/// Why records are not confirmed.
#[derive(Clone, Copy, PartialEq, Eq)]
pub enum ReplayFault {
    /// The record of this number, from 0, is the first that has not its own meaning, and this is its first
    /// broken part.
    NotConfirmed { number: u64, part: Part },
    NoMemory,
}

impl From<NoMemory> for ReplayFault {
    ghost use Rattle.std.specs.Prelude.{◌≡◌};
    ghost use Rattle.record_checks.specs.declared.fault.ReplayFault.TheVariants.{NoMemory as OutOfMemory};

    ghost from_gives = { λ _ fault. fault ≡ OutOfMemory };

    fn from(_error: NoMemory) -> ReplayFault {
        ReplayFault::NoMemory
    }
}
