//! Why a part of a job was not read.

ghost use Rattle.std.specs.Prelude.{◌≡◌};
ghost use Rattle.sefl_builder.specs.declared.misread.Misread.TheVariants.{NoMemory as OutOfMemory};

use sn_width::NoMemory;
use std::alloc::{AllocError, AllocFailed};

/// The words are not those of the part, or there was not enough memory.
#[derive(Clone, Copy, PartialEq, Eq)]
pub(crate) enum Misread {
    Unexpected,
    NoMemory,
}

impl From<NoMemory> for Misread {
    ghost from_gives = { λ _ fault. fault ≡ OutOfMemory };

    fn from(_error: NoMemory) -> Misread {
        Misread::NoMemory
    }
}

impl From<AllocError> for Misread {
    ghost from_gives = { λ _ fault. fault ≡ OutOfMemory };

    fn from(_error: AllocError) -> Misread {
        Misread::NoMemory
    }
}

impl<T: Drop> From<AllocFailed<T>> for Misread {
    ghost from_gives = { λ _ fault. fault ≡ OutOfMemory };

    fn from(_error: AllocFailed<T>) -> Misread {
        Misread::NoMemory
    }
}
