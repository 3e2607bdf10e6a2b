//! Why bytes are not the text of a job.

use sefl_lex::LexFault;

/// Why bytes are not the text of a job that can be read. Each is given exactly where those before it
/// are not due. Lines and columns count from 1, columns in bytes; lines end at LF.
#[derive(Clone, Copy, PartialEq, Eq)]
pub enum ReadFault {
    /// The bytes are not UTF-8: the first `at` bytes are whole characters.
    NotText { at: u64 },
    /// The text has no list of tokens.
    Lex { fault: LexFault },
    /// The tokens are no job: some job begins with the tokens before this place, and none with the
    /// token there too, or the text ends there.
    Expected { line: u64, column: u64 },
    /// The tokens are a job with more than 64 constructs open at once: the line of the first opening
    /// that is too many.
    TooDeep { line: u64 },
    /// There was no memory.
    NoMemory,
}
