//! Tokens of a text.

/// What a token is.
#[derive(Clone, Copy, PartialEq, Eq)]
pub enum TokenKind {
    /// A letter or `_`, then letters, digits and `_`: 64 bytes at most.
    Name,
    /// Decimal digits, or `0x` and hexadecimal digits: at most `2^128 - 1`.
    Number,
    /// Quotes with what stands between them.
    Text,
    Sign,
}

/// A token: its bytes are those of the text from `start` to before `end`.
#[derive(Clone, Copy, PartialEq, Eq)]
pub struct Token {
    pub kind: TokenKind,
    /// In bytes.
    pub start: u64,
    /// In bytes.
    pub end: u64,
}
