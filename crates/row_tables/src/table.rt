//! Tables of worked rows: UTF-8 texts, each line with one meaning. A row is a run of the program `symnet` with all that it is
//! given and all that is to come of it. Anything else is an error, told with its line. `crates/symnet_rows/data/README.md` has
//! the lines.

ghost use Rattle.std.specs.Prelude.{◌≢◌, [], IfOk};

use crate::flaw::{Fault, Flaw};
use crate::line::{Item, Line, line_of};
use crate::piece::{Named, Piece, empty_text, find_text};
use crate::row::{Draft, Row};
use std::alloc::Global;
use std::rt::Files;
use std::str;

/// What the lines of a table that were read have told.
#[derive(Drop)]
struct Reader {
    texts: Vec<Named>,
    rows: Vec<Row>,
    /// The row that is being read; without one, pieces belong to the last text.
    draft: Option<Draft>,
}

/// The rows of a table. Files that it takes texts from are read.
pub fn read_table<R: Files + AllocGlobal>(rt: &R, bytes: &[u8]) -> Result<Vec<Row>, Fault>
    ensures { IfOk result (λ rows. rows.items ≢ []) }
{
    let alloc = rt.alloc();
    let mut reader = Reader {
        texts: Vec::new(alloc),
        rows: Vec::new(alloc),
        draft: None,
    };
    let mut number = 0usize;
    for line in bytes.split(|byte| *byte == b'\n') {
        number = number.saturating_add(1);
        reader.read_line(rt, line, number)?;
    }
    reader.end_row()?;
    if reader.rows.is_empty() {
        return Err(Fault {
            line: number,
            flaw: Flaw::NoRows,
        });
    }
    Ok(reader.rows)
}

impl Reader {
    fn read_line<R: Files + AllocGlobal>(
        &mut self,
        rt: &R,
        line: &[u8],
        number: usize,
    ) -> Result<(), Fault> {
        let says = says(line).map_err(|flaw| Fault { line: number, flaw })?;
        if let Line::Row { .. } | Line::Text { .. } = says {
            self.end_row()?;
        }
        self.take(rt, says, number)
            .map_err(|flaw| Fault { line: number, flaw })
    }

    fn take<R: Files + AllocGlobal>(
        &mut self,
        rt: &R,
        says: Line<'_>,
        number: usize,
    ) -> Result<(), Flaw> {
        let alloc = rt.alloc();
        match says {
            Line::Nothing => Ok(()),
            Line::Text { name } => self.begin_text(alloc, name),
            Line::Row { name } => self.begin_row(alloc, name, number),
            Line::Item(item) => self.take_item(alloc, item),
            Line::Piece(piece) => self.put(rt, &piece),
        }
    }

    fn begin_text(&mut self, alloc: Global, name: &str) -> Result<(), Flaw> {
        if find_text(&self.texts, name).is_some() {
            return Err(Flaw::TwiceText);
        }
        Ok(self.texts.push(empty_text(alloc, name)?)?)
    }

    fn begin_row(&mut self, alloc: Global, name: &str, number: usize) -> Result<(), Flaw> {
        if self.rows.iter().any(|row| row.name.as_str() == name) {
            return Err(Flaw::TwiceRow);
        }
        self.draft = Some(Draft::new(alloc, name, number)?);
        Ok(())
    }

    fn take_item(&mut self, alloc: Global, item: Item<'_>) -> Result<(), Flaw> {
        match &mut self.draft {
            Some(draft) => draft.take(alloc, item),
            None => Err(Flaw::NoRow),
        }
    }

    fn put<R: Files + AllocGlobal>(&mut self, rt: &R, piece: &Piece<'_>) -> Result<(), Flaw> {
        match &mut self.draft {
            Some(draft) => draft.put(rt, &self.texts, piece),
            None => self.put_to_text(rt, piece),
        }
    }

    fn put_to_text<R: Files + AllocGlobal>(
        &mut self,
        rt: &R,
        piece: &Piece<'_>,
    ) -> Result<(), Flaw> {
        let Some((name, mut bytes)) = self.texts.pop() else {
            return Err(Flaw::NoPlace);
        };
        piece.put(rt, &self.texts, &mut bytes)?;
        Ok(self.texts.push((name, bytes))?)
    }

    /// Ends the row that is being read, if there is one.
    fn end_row(&mut self) -> Result<(), Fault> {
        let Some(draft) = self.draft.take() else {
            return Ok(());
        };
        let row = draft.finish()?;
        let line = row.line;
        self.rows.push(row).map_err(|_| Fault {
            line,
            flaw: Flaw::NoMemory,
        })
    }
}

fn says(line: &[u8]) -> Result<Line<'_>, Flaw> {
    let Ok(line) = str::from_utf8(line) else {
        return Err(Flaw::NotText);
    };
    line_of(line)
}
