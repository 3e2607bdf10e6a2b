//! The rows of a table, line by line.

ghost use Rattle.std.specs.Map.{lookup};
ghost use Rattle.std.specs.Prelude.{◌≡◌, OnErr};
ghost use Rattle.table_lines.specs.Reading.{Leaves};
ghost use Rattle.table_lines.specs.Rows.{is_key, limit_of, step, row_read, header_read, placed, counted};

use crate::content::{Content, content_of};
use crate::entries::{Entries, Seen};
use crate::fault::TableFault;
use crate::lines::LineReader;
use sefl_syntax::TableKind;
use std::marker::Model;

/// The most rows of a MAC table, equal ones counted too.
const MAC_ROWS: u64 = 32_768;

/// The most rows of a forwarding table.
const FIB_ROWS: u64 = 200_000;

fn limit_of(kind: TableKind) -> u64
    ensures { result ≡ limit_of kind }
{
    match kind {
        TableKind::Mac => MAC_ROWS,
        TableKind::Fib => FIB_ROWS,
    }
}

/// What was read so far.
#[derive(Drop)]
pub(crate) struct Rows {
    pub kind: TableKind,
    /// None before the line that says it.
    pub ports: Option<u32>,
    pub rows: Entries,
    /// How many rows there were, with those that say the same as an earlier one.
    pub count: u64,
}

impl Model for Rows {
    ghost use Rattle.table_lines.specs.Rows.{State};

    ghost Value = { State };

    ghost view = { λ r. record { kind = r.kind; ports = r.ports; rows = r.rows; count = r.count } };
}

impl Rows {
    fn count_one(&mut self, line: u64) -> Result<(), TableFault>
        ensures leaves { Leaves (counted self.old line self.old.rows) result self.new }
        ensures kept { OnErr result (self.new ≡ self.old) }
    {
        if self.count >= limit_of(self.kind) {
            return Err(TableFault::Limit { line });
        }
        self.count += 1;
        Ok(())
    }

    /// A row with its line; the first row of a key counts.
    fn place(&mut self, line: u64, key: (u64, u32), port: u32) -> Result<(), TableFault>
        ensures leaves { Leaves (placed self.old line key port (lookup (is_key key) self.old.rows)) result self.new }
        ensures kept { OnErr result (self.new ≡ self.old) }
    {
        if let Some(seen) = self.rows.get(key) {
            if seen.port != port {
                let earlier = seen.line;
                return Err(TableFault::Conflict { line, earlier });
            }
            return self.count_one(line);
        }
        if self.count >= limit_of(self.kind) {
            return Err(TableFault::Limit { line });
        }
        let Ok(()) = self.rows.add(key, Seen { line, port }) else {
            return Err(TableFault::NoMemory);
        };
        self.count += 1;
        Ok(())
    }

    fn read_row(&mut self, line: u64, key: (u64, u32), port: u32) -> Result<(), TableFault>
        ensures leaves { Leaves (row_read self.old line key port self.old.ports) result self.new }
        ensures kept { OnErr result (self.new ≡ self.old) }
    {
        let Some(ports) = self.ports else {
            return Err(TableFault::BadLine { line });
        };
        if port >= ports {
            return Err(TableFault::BadLine { line });
        }
        self.place(line, key, port)
    }

    fn read_header(&mut self, line: u64, ports: u32) -> Result<(), TableFault>
        ensures leaves { Leaves (header_read self.old line ports self.old.ports) result self.new }
        ensures kept { OnErr result (self.new ≡ self.old) }
    {
        if self.ports.is_some() {
            return Err(TableFault::BadLine { line });
        }
        self.ports = Some(ports);
        Ok(())
    }
}

impl LineReader for Rows {
    ghost step = { step };

    fn take(&mut self, line: u64, text: &[u8]) -> Result<(), TableFault> {
        match content_of(self.kind, text) {
            Content::Skipped => Ok(()),
            Content::Bad => Err(TableFault::BadLine { line }),
            Content::Ports(ports) => self.read_header(line, ports),
            Content::Row(key, port) => self.read_row(line, key, port),
        }
    }
}
