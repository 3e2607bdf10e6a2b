//! Why a configuration is refused.

ghost use Rattle.std.specs.Prelude.{◌≡◌};
ghost use Rattle.click_text.specs.declared.fault.Unread.TheVariants.{NoMemory as OutOfMemory};

use std::alloc::AllocFailed;

/// Why the statements of a text are refused, or want of memory. Lines count from 1.
#[derive(Clone, Copy)]
pub enum Unread {
    /// The line of the first token that the grammar does not allow.
    BadLine { line: u64 },
    NoMemory,
}

impl<T: Drop> From<AllocFailed<T>> for Unread {
    ghost from_gives = { λ _ fault. fault ≡ OutOfMemory };

    fn from(_error: AllocFailed<T>) -> Unread {
        Unread::NoMemory
    }
}
