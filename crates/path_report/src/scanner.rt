//! What is left of a text in its printed form. Nothing is claimed of what is found: what is read is printed again.

use sn_width::NoMemory;
use std::alloc::{AllocError, AllocFailed};

/// Why nothing was found.
#[derive(Clone, Copy)]
pub(crate) enum Miss {
    /// The text goes on in another way.
    Form,
    NoMemory,
}

impl From<NoMemory> for Miss {
    fn from(_error: NoMemory) -> Miss {
        Miss::NoMemory
    }
}

impl From<AllocError> for Miss {
    fn from(_error: AllocError) -> Miss {
        Miss::NoMemory
    }
}

impl<T: Drop> From<AllocFailed<T>> for Miss {
    fn from(_error: AllocFailed<T>) -> Miss {
        Miss::NoMemory
    }
}

/// The number of 64 bits that the text begins with, and how many digits it has.
fn leading_count(text: &[u8]) -> Option<(u64, usize)> {
    let mut count: u64 = 0;
    for (place, byte) in text.iter().enumerate() {
        let digit = byte.wrapping_sub(b'0');
        if digit > 9 {
            return Some((count, place));
        }
        count = count.checked_mul(10)?.checked_add(u64::from(digit))?;
    }
    Some((count, text.len()))
}

/// What is left of a text.
#[derive(Drop)]
pub(crate) struct Scanner<'b> {
    left: &'b [u8],
}

impl<'b> Scanner<'b> {
    pub(crate) fn new(text: &'b [u8]) -> Scanner<'b> {
        Scanner { left: text }
    }

    /// How many bytes are left.
    pub(crate) fn room(&self) -> usize {
        self.left.len()
    }

    /// What is left.
    pub(crate) fn left(&self) -> &'b [u8] {
        self.left
    }

    /// How many bytes were passed since that was left.
    pub(crate) fn passed(&self, before: &[u8]) -> usize {
        before.len().saturating_sub(self.left.len())
    }

    /// Passes that many bytes, or none where fewer are left.
    pub(crate) fn skip(&mut self, count: usize) {
        if let Some((_, rest)) = self.left.split_at_checked(count) {
            self.left = rest;
        }
    }

    /// Passes the word where it comes next, and says whether it did.
    pub(crate) fn passes(&mut self, word: &[u8]) -> bool {
        match self.left.strip_prefix(word) {
            Some(rest) => {
                self.left = rest;
                true
            }
            None => false,
        }
    }

    /// Passes the word, which has to come next.
    pub(crate) fn pass(&mut self, word: &[u8]) -> Result<(), Miss> {
        if self.passes(word) {
            Ok(())
        } else {
            Err(Miss::Form)
        }
    }

    /// Passes the byte where it comes next, and says whether it did.
    pub(crate) fn passes_byte(&mut self, byte: u8) -> bool {
        match self.left {
            [first, rest @ ..] if *first == byte => {
                self.left = rest;
                true
            }
            _ => false,
        }
    }

    /// Passes the byte, which has to come next.
    pub(crate) fn pass_byte(&mut self, byte: u8) -> Result<(), Miss> {
        if self.passes_byte(byte) {
            Ok(())
        } else {
            Err(Miss::Form)
        }
    }

    /// Passes the bracket that opens a list, and says whether the list ends there.
    pub(crate) fn opens(&mut self) -> Result<bool, Miss> {
        self.pass_byte(b'[')?;
        Ok(self.passes_byte(b']'))
    }

    /// Passes what stands behind an item, and says whether the list ends there.
    pub(crate) fn closes(&mut self) -> Result<bool, Miss> {
        if self.passes_byte(b']') {
            return Ok(true);
        }
        self.pass_byte(b',')?;
        Ok(false)
    }

    /// Passes that many bytes.
    fn cut(&mut self, count: usize) -> Result<&'b str, Miss> {
        let Some((front, rest)) = self.left.split_at_checked(count) else {
            return Err(Miss::Form);
        };
        self.left = rest;
        match str::from_utf8(front) {
            Ok(text) => Ok(text),
            Err(_) => Err(Miss::Form),
        }
    }

    /// A number of 64 bits.
    pub(crate) fn count(&mut self) -> Result<u64, Miss> {
        let Some((count, length)) = leading_count(self.left) else {
            return Err(Miss::Form);
        };
        let Some((_, rest)) = self.left.split_at_checked(length) else {
            return Err(Miss::Form);
        };
        self.left = rest;
        Ok(count)
    }

    /// A number of 32 bits.
    pub(crate) fn id(&mut self) -> Result<u32, Miss> {
        match u32::try_from(self.count()?) {
            Ok(id) => Ok(id),
            Err(_) => Err(Miss::Form),
        }
    }

    /// A whole number of 32 bits.
    pub(crate) fn integer(&mut self) -> Result<i32, Miss> {
        let negative = self.passes_byte(b'-');
        let Ok(size) = i64::try_from(self.count()?) else {
            return Err(Miss::Form);
        };
        match i32::try_from(if negative { -size } else { size }) {
            Ok(integer) => Ok(integer),
            Err(_) => Err(Miss::Form),
        }
    }

    /// The digits that come next.
    fn digits(&mut self) -> Result<&'b str, Miss> {
        let end = self.left.iter().position(|byte| !byte.is_ascii_digit());
        self.cut(end.unwrap_or(self.left.len()))
    }

    /// A number of 128 bits, with or without quotes.
    pub(crate) fn large(&mut self) -> Result<u128, Miss> {
        if !self.passes_byte(b'"') {
            return Ok(u128::from(self.count()?));
        }
        let number = match self.digits()?.parse::<u128>() {
            Ok(number) => number,
            Err(_) => return Err(Miss::Form),
        };
        self.pass_byte(b'"')?;
        Ok(number)
    }

    /// A text in quotes without a backslash.
    pub(crate) fn text(&mut self) -> Result<&'b str, Miss> {
        self.pass_byte(b'"')?;
        let end = self
            .left
            .iter()
            .position(|byte| *byte == b'"' || *byte == b'\\');
        let text = self.cut(end.unwrap_or(self.left.len()))?;
        self.pass_byte(b'"')?;
        Ok(text)
    }
}
