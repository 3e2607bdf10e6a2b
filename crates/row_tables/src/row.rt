//! Worked rows: what a run is given, and how it is to end.

use crate::flaw::{Fault, Flaw};
use crate::line::Item;
use crate::piece::{Named, Piece, empty_text, find_text};
use std::alloc::Global;
use std::rt::Files;

/// What a run is given.
#[derive(Drop)]
pub struct Given {
    pub words: Vec<String>,
    pub files: Vec<Named>,
    /// The numbers of the loads that fail, counted from 0.
    pub failing_loads: Vec<u64>,
    pub failing_puts: Vec<u64>,
    /// How many bytes a failing put keeps.
    pub kept: usize,
    /// The patterns with the names that they find.
    pub found: Vec<(String, String, bool)>,
    pub bad_patterns: Vec<String>,
}

/// How a run ends: its status, what standard error shows, and what was written.
#[derive(Drop)]
pub struct Ending {
    pub status: u8,
    pub error: String,
    pub output: Vec<u8>,
}

impl Ending {
    ghost use Rattle.std.specs.Prelude.{◌≡◌, ◌↔◌, IsTrue, string_bytes};

    /// Whether the status, standard error and the output are the same.
    pub fn is_same(&self, other: &Ending) -> bool
        ensures { IsTrue result ↔ ((self.now.status ≡ other.now.status)
            × (string_bytes self.now.error ≡ string_bytes other.now.error)
            × (self.now.output.items ≡ other.now.output.items)) }
    {
        if self.status != other.status {
            return false;
        }
        if self.error.as_str() != other.error.as_str() {
            return false;
        }
        self.output.as_slice() == other.output.as_slice()
    }
}

/// A row of a table.
#[derive(Drop)]
pub struct Row {
    pub name: String,
    /// The line of the table on which the row begins.
    pub line: usize,
    pub given: Given,
    pub wanted: Ending,
}

/// What the pieces that come next belong to.
#[derive(Clone, Copy)]
enum Place {
    Nothing,
    File,
    Output,
}

/// What the lines of a row that were read have told.
#[derive(Drop)]
pub struct Draft {
    name: String,
    line: usize,
    has_words: bool,
    given: Given,
    status: Option<u8>,
    error: Option<String>,
    output: Option<Vec<u8>>,
    place: Place,
}

impl Draft {
    pub fn new(alloc: Global, name: &str, line: usize) -> Result<Draft, Flaw> {
        Ok(Draft {
            name: String::from_str(alloc, name)?,
            line,
            has_words: false,
            given: Given {
                words: Vec::new(alloc),
                files: Vec::new(alloc),
                failing_loads: Vec::new(alloc),
                failing_puts: Vec::new(alloc),
                kept: 0,
                found: Vec::new(alloc),
                bad_patterns: Vec::new(alloc),
            },
            status: None,
            error: None,
            output: None,
            place: Place::Nothing,
        })
    }

    /// Notes what a line says of the row.
    pub fn take(&mut self, alloc: Global, item: Item<'_>) -> Result<(), Flaw> {
        self.place = Place::Nothing;
        match item {
            Item::Words(words) => self.take_words(alloc, words),
            Item::Word(word) => self.take_word(alloc, word),
            Item::File { name } => self.begin_file(alloc, name),
            Item::FailingLoad { number } => Ok(self.given.failing_loads.push(number)?),
            Item::FailingPut { number, kept } => self.take_failing_put(number, kept),
            Item::Bad { pattern } => self.take_bad(alloc, pattern),
            Item::Finds { name, pattern } => self.take_found(alloc, name, pattern),
            Item::Status(status) => self.take_status(status),
            Item::Error(text) => self.take_error(alloc, text),
            Item::Output => self.begin_output(alloc),
        }
    }

    fn take_words(&mut self, alloc: Global, words: &str) -> Result<(), Flaw> {
        if self.has_words {
            return Err(Flaw::TwiceSaid);
        }
        self.given.words = words_of(alloc, words)?;
        self.has_words = true;
        Ok(())
    }

    fn take_word(&mut self, alloc: Global, word: &str) -> Result<(), Flaw> {
        if !self.has_words {
            return Err(Flaw::NoWordsYet);
        }
        let word = String::from_str(alloc, word)?;
        Ok(self.given.words.push(word)?)
    }

    fn begin_file(&mut self, alloc: Global, name: &str) -> Result<(), Flaw> {
        if find_text(&self.given.files, name).is_some() {
            return Err(Flaw::TwiceFile);
        }
        self.given.files.push(empty_text(alloc, name)?)?;
        self.place = Place::File;
        Ok(())
    }

    fn take_failing_put(&mut self, number: u64, kept: usize) -> Result<(), Flaw> {
        if !self.given.failing_puts.is_empty() && self.given.kept != kept {
            return Err(Flaw::OtherKept);
        }
        self.given.failing_puts.push(number)?;
        self.given.kept = kept;
        Ok(())
    }

    fn take_bad(&mut self, alloc: Global, pattern: &str) -> Result<(), Flaw> {
        let pattern = String::from_str(alloc, pattern)?;
        Ok(self.given.bad_patterns.push(pattern)?)
    }

    fn take_found(&mut self, alloc: Global, name: &str, pattern: &str) -> Result<(), Flaw> {
        let pattern = String::from_str(alloc, pattern)?;
        let name = String::from_str(alloc, name)?;
        Ok(self.given.found.push((pattern, name, true))?)
    }

    fn take_status(&mut self, status: u8) -> Result<(), Flaw> {
        if self.status.is_some() {
            return Err(Flaw::TwiceSaid);
        }
        self.status = Some(status);
        Ok(())
    }

    fn take_error(&mut self, alloc: Global, text: &str) -> Result<(), Flaw> {
        if self.error.is_some() {
            return Err(Flaw::TwiceSaid);
        }
        self.error = Some(String::from_str(alloc, text)?);
        Ok(())
    }

    fn begin_output(&mut self, alloc: Global) -> Result<(), Flaw> {
        if self.output.is_some() {
            return Err(Flaw::TwiceSaid);
        }
        self.output = Some(Vec::new(alloc));
        self.place = Place::Output;
        Ok(())
    }

    /// Puts a piece behind the file or the output that is being read.
    pub fn put<R: Files + AllocGlobal>(
        &mut self,
        rt: &R,
        texts: &[Named],
        piece: &Piece<'_>,
    ) -> Result<(), Flaw> {
        match self.place {
            Place::Nothing => Err(Flaw::NoPlace),
            Place::File => match self.given.files.last_mut() {
                Some((_, bytes)) => piece.put(rt, texts, bytes),
                None => Err(Flaw::NoPlace),
            },
            Place::Output => match &mut self.output {
                Some(output) => piece.put(rt, texts, output),
                None => Err(Flaw::NoPlace),
            },
        }
    }

    /// The row, where all of it has been read.
    pub fn finish(self) -> Result<Row, Fault> {
        let Draft {
            name,
            line,
            has_words,
            given,
            status,
            error,
            output,
            place: _,
        } = self;
        if !has_words {
            return Err(Fault {
                line,
                flaw: Flaw::NoWords,
            });
        }
        match make_ending(status, error, output) {
            Ok(wanted) => Ok(Row {
                name,
                line,
                given,
                wanted,
            }),
            Err(flaw) => Err(Fault { line, flaw }),
        }
    }
}

fn make_ending(
    status: Option<u8>,
    error: Option<String>,
    output: Option<Vec<u8>>,
) -> Result<Ending, Flaw> {
    let status = status.ok_or(Flaw::NoStatus)?;
    let error = error.ok_or(Flaw::NoError)?;
    let output = output.ok_or(Flaw::NoOutput)?;
    Ok(Ending {
        status,
        error,
        output,
    })
}

/// The words of a line, which one blank each separates.
fn words_of(alloc: Global, line: &str) -> Result<Vec<String>, Flaw> {
    let mut words = Vec::new(alloc);
    if line.is_empty() {
        return Ok(words);
    }
    for word in line.split(' ') {
        words.push(word_of(alloc, word)?)?;
    }
    Ok(words)
}

fn word_of(alloc: Global, word: &str) -> Result<String, Flaw> {
    if word.is_empty() {
        return Err(Flaw::BadWords);
    }
    Ok(String::from_str(alloc, word)?)
}
