//! Why a table cannot be read.

use std::alloc::{AllocError, AllocFailed};

/// What is wrong with a line, a row or the whole table.
#[derive(Clone, Copy)]
pub enum Flaw {
    NotText,
    Unknown,
    NoName,
    BadNumber,
    BadWords,
    BadBytes,
    TooLong,
    NoPlace,
    NoRow,
    NoWordsYet,
    NoSuchText,
    NoSuchFile,
    TwiceText,
    TwiceRow,
    TwiceFile,
    TwiceSaid,
    OtherKept,
    NoWords,
    NoStatus,
    NoError,
    NoOutput,
    NoRows,
    NoMemory,
}

impl Flaw {
    pub fn text(self) -> &'static str {
        match self {
            Flaw::NotText => "the line is not UTF-8",
            Flaw::Unknown => "the line is none that a table has",
            Flaw::NoName => "a name is missing",
            Flaw::BadNumber => "a number is missing, or is not in its range",
            Flaw::BadWords => "words are separated by one blank each",
            Flaw::BadBytes => "bytes are two hexadecimal digits each, separated by one blank",
            Flaw::TooLong => "the text gets longer than 268435456 bytes",
            Flaw::NoPlace => "no text, file or output begins before this line",
            Flaw::NoRow => "no row begins before this line",
            Flaw::NoWordsYet => "a line `words` comes before this line",
            Flaw::NoSuchText => "no text of this name stands above",
            Flaw::NoSuchFile => "the file cannot be read",
            Flaw::TwiceText => "a text above has this name",
            Flaw::TwiceRow => "a row above has this name",
            Flaw::TwiceFile => "the row has a file of this name",
            Flaw::TwiceSaid => "the row has said this",
            Flaw::OtherKept => "the failing puts of a row keep the same number of bytes",
            Flaw::NoWords => "the row has no words",
            Flaw::NoStatus => "the row has no status",
            Flaw::NoError => "the row has no error",
            Flaw::NoOutput => "the row has no output",
            Flaw::NoRows => "the table has no rows",
            Flaw::NoMemory => "out of memory",
        }
    }
}

impl From<AllocError> for Flaw {
    fn from(_error: AllocError) -> Flaw {
        Flaw::NoMemory
    }
}

impl<T: Drop> From<AllocFailed<T>> for Flaw {
    fn from(_error: AllocFailed<T>) -> Flaw {
        Flaw::NoMemory
    }
}

/// A flaw with the number of its line, counted from 1.
#[derive(Clone, Copy)]
pub struct Fault {
    pub line: usize,
    pub flaw: Flaw,
}
