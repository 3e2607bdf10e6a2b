//! Why a text has no tokens.

ghost use Rattle.std.specs.Prelude.{◌≡◌};
ghost use Rattle.sefl_lex.specs.declared.fault.LexFault.TheVariants.{NoMemory as OutOfMemory};

use std::alloc::AllocFailed;
use thiserror::Error;

/// The first fault of a text, with its place in bytes, or want of memory.
#[derive(Clone, Copy, Debug, PartialEq, Eq, Error)]
pub enum LexFault {
    /// A character that begins no token, or the 65th byte of a name.
    #[error("a character that begins no token")]
    BadCharacter { at: u64 },
    /// A digit that begins no number: it exceeds `2^128 - 1`, has no digit after `0x`, or is
    /// followed at once by a letter, a digit or `_`.
    #[error("a number that is none")]
    BadNumber { at: u64 },
    /// A quote whose text meets a control character or the end before its second quote.
    #[error("a text without an end")]
    OpenText { at: u64 },
    #[error("out of memory")]
    NoMemory,
}

impl<T: Drop> From<AllocFailed<T>> for LexFault {
    ghost from_gives = { λ _ fault. fault ≡ OutOfMemory };

    fn from(_error: AllocFailed<T>) -> LexFault {
        LexFault::NoMemory
    }
}
