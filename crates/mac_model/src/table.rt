//! MAC tables and their files.

ghost use Rattle.std.specs.Prelude.{◌≡◌, map, IfOk, IfErr};
ghost use Rattle.table_lines.specs.Reading.{Answers};
ghost use Rattle.mac_model.specs.MacTables.{mac_of, pair};

use sefl_syntax::TableKind;
use std::alloc::Global;
use std::marker::Model;
use table_lines::laws::files_have_tables;
use table_lines::{Row, TableFault, read_table};

/// A MAC table. Contracts see the number of its ports, and its rows in the order of the file, equal
/// ones once: an address of 48 bits, and a port.
#[derive(Drop)]
pub struct MacTable {
    pub(crate) ports: u32,
    pub(crate) rows: Vec<(u64, u32)>,
}

impl Model for MacTable {
    ghost use Rattle.mac_model.specs.MacTables.{MacSeen, IsMac};

    ghost Value = { MacSeen };

    ghost view = { λ table. record { ports = table.ports; rows = table.rows.items } };

    ghost invariant = { λ table. IsMac table.ports table.rows.items };
}

impl MacTable {
    /// How many ports there are.
    pub fn ports(&self) -> u32
        ensures { result ≡ self.now.ports }
    {
        self.ports
    }
}

fn pairs_of(alloc: Global, rows: &[Row]) -> Result<Vec<(u64, u32)>, TableFault>
    ensures rows { IfOk result (λ pairs. pairs.items ≡ map pair rows.now) }
    ensures fault { IfErr result (λ fault. fault ≡ TableFault.NoMemory) }
{
    let mut pairs = Vec::new(alloc);
    for row in rows {
        let Ok(()) = pairs.push((row.address, row.port)) else {
            return Err(TableFault::NoMemory);
        };
    }
    Ok(pairs)
}

/// The MAC table that a file has: `ports N` with N from 1 to 1024, then rows of an Ethernet address
/// and a port below N. Refused is the first line that breaks a rule, with the lowest number.
pub fn read_mac(alloc: Global, bytes: &[u8]) -> Result<MacTable, TableFault>
    ensures { Answers (mac_of bytes.now) result }
{
    files_have_tables();
    let table = read_table(alloc, TableKind::Mac, bytes)?;
    let rows = pairs_of(alloc, &table.rows)?;
    Ok(MacTable {
        ports: table.ports,
        rows,
    })
}
