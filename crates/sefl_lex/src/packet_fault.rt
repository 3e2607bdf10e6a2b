//! Why a file has no packet.

ghost use Rattle.std.specs.Prelude.{◌≡◌};
ghost use Rattle.sefl_lex.specs.PacketFaults.{packet_fault};
ghost use Rattle.sefl_lex.specs.declared.packet_fault.PacketFault.TheVariants.{NoMemory as OutOfMemory};

use crate::LexFault;
use std::alloc::AllocFailed;
use thiserror::Error;

/// Why a file has no packet, or want of memory.
#[derive(Clone, Copy, Debug, PartialEq, Eq, Error)]
pub enum PacketFault {
    /// A word between blanks is no number.
    #[error("no list of numbers")]
    NotNumbers,
    #[error("out of memory")]
    NoMemory,
}

impl<T: Drop> From<AllocFailed<T>> for PacketFault {
    ghost from_gives = { λ _ fault. fault ≡ OutOfMemory };

    fn from(_error: AllocFailed<T>) -> PacketFault {
        PacketFault::NoMemory
    }
}

impl From<LexFault> for PacketFault {
    ghost from_gives = { λ lex fault. fault ≡ packet_fault lex };

    fn from(lex: LexFault) -> PacketFault {
        match lex {
            LexFault::NoMemory => PacketFault::NoMemory,
            LexFault::BadCharacter { .. }
            | LexFault::BadNumber { .. }
            | LexFault::OpenText { .. } => PacketFault::NotNumbers,
        }
    }
}
