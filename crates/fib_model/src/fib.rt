//! Forwarding tables and their files.

ghost use Rattle.std.specs.Prelude.{◌≡◌, map, IfOk, IfErr};
ghost use Rattle.table_lines.specs.Reading.{Answers};
ghost use Rattle.fib_model.specs.Fibs.{fib_of, triple};

use sefl_syntax::TableKind;
use std::alloc::Global;
use std::marker::Model;
use table_lines::laws::files_have_tables;
use table_lines::{Row, TableFault, read_table};

/// A forwarding table. Contracts see the number of its ports, and its rows in the order of the file,
/// equal ones once: an address with the bits past the length at 0, the length, and the port.
#[derive(Drop)]
pub struct Fib {
    pub(crate) ports: u32,
    pub(crate) rows: Vec<(u64, u32, u32)>,
}

impl Model for Fib {
    ghost use Rattle.fib_model.specs.Fibs.{FibSeen, IsFib};

    ghost Value = { FibSeen };

    ghost view = { λ fib. record { ports = fib.ports; rows = fib.rows.items } };

    ghost invariant = { λ fib. IsFib fib.ports fib.rows.items };
}

impl Fib {
    /// How many ports there are.
    pub fn ports(&self) -> u32
        ensures { result ≡ self.now.ports }
    {
        self.ports
    }
}

fn triples_of(alloc: Global, rows: &[Row]) -> Result<Vec<(u64, u32, u32)>, TableFault>
    ensures rows { IfOk result (λ triples. triples.items ≡ map triple rows.now) }
    ensures fault { IfErr result (λ fault. fault ≡ TableFault.NoMemory) }
{
    let mut triples = Vec::new(alloc);
    for row in rows {
        let Ok(()) = triples.push((row.address, row.length, row.port)) else {
            return Err(TableFault::NoMemory);
        };
    }
    Ok(triples)
}

/// The forwarding table that a file has: `ports N` with N from 1 to 1024, then rows of an IPv4 prefix
/// and a port below N. Refused is the first line that breaks a rule, with the lowest number.
pub fn read_fib(alloc: Global, bytes: &[u8]) -> Result<Fib, TableFault>
    ensures { Answers (fib_of bytes.now) result }
{
    files_have_tables();
    let table = read_table(alloc, TableKind::Fib, bytes)?;
    let rows = triples_of(alloc, &table.rows)?;
    Ok(Fib {
        ports: table.ports,
        rows,
    })
}
