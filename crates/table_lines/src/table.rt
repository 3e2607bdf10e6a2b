//! The table that a file has.

ghost use Rattle.std.specs.Prelude.{◌≡◌, map, IfOk, IfErr};
ghost use Rattle.table_lines.specs.Reading.{Answers};
ghost use Rattle.table_lines.specs.Rows.{row_of_entry};
ghost use Rattle.table_lines.specs.Tables.{table_of, seen_table};

use crate::entries::{Entries, Seen};
use crate::fault::TableFault;
use crate::lines::read_lines;
use crate::rows::Rows;
use sefl_syntax::TableKind;
use std::alloc::Global;

/// A row: an address, how many of its bits count, and a port.
#[derive(Clone, Copy)]
pub struct Row {
    pub address: u64,
    pub length: u32,
    pub port: u32,
}

/// How many ports there are, and the rows in the order of the file, equal ones once.
#[derive(Drop)]
pub struct Table {
    pub ports: u32,
    pub rows: Vec<Row>,
}

/// The row of an entry.
fn row_of(entry: &((u64, u32), Seen)) -> Row
    ensures { result ≡ row_of_entry entry.now }
{
    Row {
        address: entry.0.0,
        length: entry.0.1,
        port: entry.1.port,
    }
}

fn rows_of(alloc: Global, entries: &[((u64, u32), Seen)]) -> Result<Vec<Row>, TableFault>
    ensures rows { IfOk result (λ rows. rows.items ≡ map row_of_entry entries.now) }
    ensures fault { IfErr result (λ fault. fault ≡ TableFault.NoMemory) }
{
    let mut rows = Vec::new(alloc);
    for entry in entries {
        let Ok(()) = rows.push(row_of(entry)) else {
            return Err(TableFault::NoMemory);
        };
    }
    Ok(rows)
}

/// Reads the file of a table of that kind.
pub fn read_table(alloc: Global, kind: TableKind, bytes: &[u8]) -> Result<Table, TableFault>
    ensures { Answers (table_of kind bytes.now) (seen_table result) }
{
    let mut rows = Rows {
        kind,
        ports: None,
        rows: Entries::new(alloc),
        count: 0,
    };
    read_lines(bytes, &mut rows)?;
    let Some(ports) = rows.ports else {
        return Err(TableFault::BadLine { line: 1 });
    };
    let rows = rows_of(alloc, rows.rows.rows())?;
    Ok(Table { ports, rows })
}
