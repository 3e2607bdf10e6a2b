//! Why the file of a filter list is refused.

use thiserror::Error;

/// Why the file of a filter list is refused, or want of memory. Lines count from 1.
#[derive(Clone, Copy, Debug, PartialEq, Eq, Error)]
pub enum AclFault {
    /// The line is no rule.
    #[error("line {line} is no rule")]
    BadLine { line: u64 },
    /// The rule is the first past the limit.
    #[error("line {line} is past the limit")]
    Limit { line: u64 },
    #[error("out of memory")]
    NoMemory,
}
