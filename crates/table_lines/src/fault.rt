//! Why a table file is refused.

use thiserror::Error;

/// Why a table file is refused, or want of memory. Lines count from 1.
#[derive(Clone, Copy, Debug, PartialEq, Eq, Error)]
pub enum TableFault {
    /// The line is no row, or not the number of ports where that has to come first.
    #[error("line {line} is no row")]
    BadLine { line: u64 },
    /// The row of the earlier line has the same address or prefix, and another port.
    #[error("line {line} contradicts line {earlier}")]
    Conflict { line: u64, earlier: u64 },
    /// The row is the first past the limit.
    #[error("line {line} is past the limit")]
    Limit { line: u64 },
    #[error("out of memory")]
    NoMemory,
}
