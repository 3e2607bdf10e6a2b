//! Why a configuration is refused.

ghost use Rattle.std.specs.Prelude.{◌≡◌};
ghost use Rattle.click_model.specs.declared.fault.ClickFault.TheVariants.{NoMemory as OutOfMemory};
ghost use Rattle.click_model.specs.Configs.{unread_fault};

use click_text::Unread;
use sn_width::NoMemory;
use thiserror::Error;

/// Why a configuration is refused, or want of memory. Lines count from 1.
#[derive(Clone, Copy, Debug, PartialEq, Eq, Error)]
pub enum ClickFault {
    /// The line of the first token that the grammar does not allow.
    #[error("line {line} has a token that is not allowed there")]
    BadLine { line: u64 },
    /// A name that the earlier line declares is declared again.
    #[error("line {line} declares again what line {earlier} does")]
    Conflict { line: u64, earlier: u64 },
    /// The declaration is the first past the limit.
    #[error("line {line} is past the limit")]
    Limit { line: u64 },
    #[error("line {line} names no class")]
    NoClass { line: u64 },
    /// The class does not take these arguments.
    #[error("line {line} has bad arguments")]
    BadArgument { line: u64 },
    /// A connection enters by an input other than 0, or leaves by an output that the element has not, or
    /// that an earlier connection uses.
    #[error("line {line} connects a port that is not free")]
    PortClash { line: u64 },
    /// A name is declared nowhere.
    #[error("line {line} names no element")]
    NoElement { line: u64 },
    #[error("out of memory")]
    NoMemory,
}

impl From<NoMemory> for ClickFault {
    ghost from_gives = { λ _ fault. fault ≡ OutOfMemory };

    fn from(_error: NoMemory) -> ClickFault {
        ClickFault::NoMemory
    }
}

impl From<Unread> for ClickFault {
    ghost from_gives = { λ unread fault. fault ≡ unread_fault unread };

    fn from(unread: Unread) -> ClickFault {
        match unread {
            Unread::BadLine { line } => ClickFault::BadLine { line },
            Unread::NoMemory => ClickFault::NoMemory,
        }
    }
}
