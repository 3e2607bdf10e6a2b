//! Why records are not confirmed as a whole.

use record_checks::{Part, ReplayFault};
use sn_width::NoMemory;

/// Why records are not confirmed as a whole.
#[derive(Clone, Copy, PartialEq, Eq)]
pub enum WholeFault {
    /// The record of this number, from 0, has not its own meaning, and this is its first broken part. All before it have theirs, and leave
    /// nothing out.
    NotConfirmed { number: u64, part: Part },
    /// The same of the records before this number. Before the record of this number one is missing, or it was not tried; where there is
    /// none of this number, some are missing behind the last.
    NotWhole { number: u64 },
    NoMemory,
}

impl From<NoMemory> for WholeFault {
    ghost use Rattle.std.specs.Prelude.{◌≡◌};
    ghost use Rattle.whole_checks.specs.declared.fault.WholeFault.TheVariants.{NoMemory as OutOfMemory};

    ghost from_gives = { λ _ fault. fault ≡ OutOfMemory };

    fn from(_error: NoMemory) -> WholeFault {
        WholeFault::NoMemory
    }
}

impl From<ReplayFault> for WholeFault {
    ghost use Rattle.std.specs.Prelude.{◌≡◌};
    ghost use Rattle.whole_checks.specs.Confirming.{fault_of};

    ghost from_gives = { λ fault own. own ≡ fault_of fault };

    fn from(fault: ReplayFault) -> WholeFault {
        match fault {
            ReplayFault::NotConfirmed { number, part } => WholeFault::NotConfirmed { number, part },
            ReplayFault::NoMemory => WholeFault::NoMemory,
        }
    }
}
