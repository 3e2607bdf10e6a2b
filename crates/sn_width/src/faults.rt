//! What stops an instruction.

ghost use Rattle.std.specs.Prelude.{◌≡◌};

use crate::memory::NoMemory;
use std::alloc::{AllocError, AllocFailed};

/// A fault of the layout: of tags, header cells and metadata, whichever values they hold.
#[derive(Clone, Copy, PartialEq, Eq)]
pub enum LayoutFault {
    /// The address names a tag that is absent.
    NoTag = 1,
    /// The address lies outside `-2^20` to `2^20 - 1`.
    AddressRange = 2,
    /// No cell begins at the address.
    NoField = 3,
    /// The top cell has another width.
    WidthDiffers = 4,
    /// The new cell shares a bit with the top cell of another address.
    Overlap = 5,
    /// The top cell holds nothing.
    Unset = 6,
    /// The metadata is absent.
    NoMeta = 7,
}

impl LayoutFault {
    ghost use Rattle.sn_width.specs.Faults.{fault_number};

    /// The fault's number in reports, from 1 to 7.
    pub fn number(self) -> u8
        ensures { result ≡ fault_number self }
    {
        self as u8
    }
}

/// Why an instruction was refused.
#[derive(Clone, Copy, PartialEq, Eq)]
pub enum StepFault {
    Layout(LayoutFault),
    NoMemory,
}

impl From<LayoutFault> for StepFault {
    ghost use Rattle.std.specs.Prelude.{◌≡◌};
    ghost use Rattle.sn_width.specs.declared.faults.StepFault.TheVariants.{Layout};

    ghost from_gives = { λ fault step. step ≡ Layout fault };

    fn from(fault: LayoutFault) -> StepFault {
        StepFault::Layout(fault)
    }
}

impl From<NoMemory> for StepFault {
    ghost use Rattle.std.specs.Prelude.{◌≡◌};
    ghost use Rattle.sn_width.specs.declared.faults.StepFault.TheVariants.{NoMemory as OutOfMemory};

    ghost from_gives = { λ _ step. step ≡ OutOfMemory };

    fn from(_error: NoMemory) -> StepFault {
        StepFault::NoMemory
    }
}

impl From<AllocError> for StepFault {
    ghost use Rattle.std.specs.Prelude.{◌≡◌};
    ghost use Rattle.sn_width.specs.declared.faults.StepFault.TheVariants.{NoMemory as OutOfMemory};

    ghost from_gives = { λ _ step. step ≡ OutOfMemory };

    fn from(_error: AllocError) -> StepFault {
        StepFault::NoMemory
    }
}

impl<T: Drop> From<AllocFailed<T>> for StepFault {
    ghost use Rattle.std.specs.Prelude.{◌≡◌};
    ghost use Rattle.sn_width.specs.declared.faults.StepFault.TheVariants.{NoMemory as OutOfMemory};

    ghost from_gives = { λ _ step. step ≡ OutOfMemory };

    fn from(_error: AllocFailed<T>) -> StepFault {
        StepFault::NoMemory
    }
}
