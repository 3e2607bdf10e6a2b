//! The addresses of each port, and those that it lets pass.

ghost use Rattle.std.specs.Prelude.{◌≡◌, ℕ, ◌<◌, ◌^◌, ◌==◌, ◌&&◌, is_none, All, IfOk, length, filter, map};
ghost use Rattle.sefl_syntax.specs.declared.net.TableKind.TheVariants.{Mac};
ghost use Rattle.sn_ranges.specs.Ranges.{IsCanonical, IsSetOf, fits_width};
ghost use Rattle.table_nodes.specs.Codes.{lists};
ghost use Rattle.table_nodes.specs.Exits.{lies_in};
ghost use Rattle.table_nodes.specs.TableNodes.{SetsFor, is_port, lets};
ghost use Rattle.mac_model.specs.MacTables.{IsMac, NoneTwice};
ghost use Rattle.mac_model.specs.Nodes.{mac_port, point};

use sefl_syntax::TableKind;
use sn_ranges::Ranges;
use sn_width::{NoMemory, Num};
use std::alloc::Global;
use table_nodes::laws::sets_grow;
use table_nodes::{address_set, ranges_of};

/// The rows of a port.
fn rows_of(alloc: Global, rows: &[(u64, u32)], port: u32) -> Result<Vec<(u64, u32)>, NoMemory>
    ensures { IfOk result (λ own. own.items ≡ filter (λ row. row.1 == port) rows.now) }
{
    let mut own = Vec::new(alloc);
    for row in rows {
        if row.1 == port {
            own.push(*row)?;
        }
    }
    Ok(own)
}

/// The addresses of rows, each as a range.
fn points_of(alloc: Global, rows: &[(u64, u32)]) -> Result<Vec<(Num, Num)>, NoMemory>
    ensures { IfOk result (λ points. points.items ≡ map point rows.now) }
{
    let mut points = Vec::new(alloc);
    for row in rows {
        let address = Num::from(row.0);
        points.push((address, address))?;
    }
    Ok(points)
}

/// The addresses of the rows.
fn known(alloc: Global, rows: &[(u64, u32)]) -> Result<Ranges, NoMemory>
    requires { All (λ row. row.0 < 2 ^ 48) rows.now }
    ensures { IfOk result (IsSetOf 48 (λ a. lies_in a (map point rows.now))) }
{
    let points = points_of(alloc, rows)?;
    address_set(alloc, TableKind::Mac, &points)
}

/// The addresses that no row has.
fn unknown(alloc: Global, rows: &[(u64, u32)]) -> Result<Ranges, NoMemory>
    requires { All (λ row. row.0 < 2 ^ 48) rows.now }
    ensures { IfOk result (IsSetOf 48 (λ a. fits_width 48 a && is_none (mac_port rows.now a))) }
{
    let known = known(alloc, rows)?;
    known.other(alloc)
}

/// The addresses of a port.
fn own(alloc: Global, rows: &[(u64, u32)], port: u32) -> Result<Ranges, NoMemory>
    requires addresses { All (λ row. row.0 < 2 ^ 48) rows.now }
    requires apart { NoneTwice rows.now }
    ensures { IfOk result (IsSetOf 48 (λ a. is_port (mac_port rows.now a) port)) }
{
    let rows = rows_of(alloc, rows, port)?;
    known(alloc, &rows)
}

/// The least list of ranges of the addresses of a port.
fn own_ranges(alloc: Global, rows: &[(u64, u32)], port: u32) -> Result<Vec<(Num, Num)>, NoMemory>
    requires addresses { All (λ row. row.0 < 2 ^ 48) rows.now }
    requires apart { NoneTwice rows.now }
    ensures canonical { IfOk result (λ ranges. IsCanonical 48 ranges.items) }
    ensures members { IfOk result (λ ranges. (a : ℕ) → a < 2 ^ 48
        → lies_in a ranges.items ≡ is_port (mac_port rows.now a) port) }
{
    let set = own(alloc, rows, port)?;
    ranges_of(alloc, &set)
}

/// The least list of ranges of the addresses of a port and of those that no row has.
fn passing_ranges(
    alloc: Global,
    rows: &[(u64, u32)],
    port: u32,
    unknown: &Ranges,
) -> Result<Vec<(Num, Num)>, NoMemory>
    requires addresses { All (λ row. row.0 < 2 ^ 48) rows.now }
    requires apart { NoneTwice rows.now }
    requires unknown { IsSetOf 48 (λ a. fits_width 48 a && is_none (mac_port rows.now a)) unknown.now }
    ensures canonical { IfOk result (λ ranges. IsCanonical 48 ranges.items) }
    ensures members { IfOk result (λ ranges. (a : ℕ) → a < 2 ^ 48
        → lies_in a ranges.items ≡ lets Mac (mac_port rows.now a) port) }
{
    let own = own(alloc, rows, port)?;
    let set = unknown.join(alloc, &own)?;
    ranges_of(alloc, &set)
}

/// For each port the least list of ranges of its addresses.
pub fn own_sets(
    alloc: Global,
    ports: u32,
    rows: &[(u64, u32)],
) -> Result<Vec<Vec<(Num, Num)>>, NoMemory>
    requires { IsMac ports rows.now }
    ensures len { IfOk result (λ sets. length sets.items ≡ ports) }
    ensures sets { IfOk result (λ sets. SetsFor Mac (λ a. is_port (mac_port rows.now a)) 0 (lists sets.items)) }
{
    sets_grow();
    let mut sets = Vec::new(alloc);
    for port in 0..ports {
        sets.push(own_ranges(alloc, rows, port)?)?;
    }
    Ok(sets)
}

/// For each port the least list of ranges of the addresses that it lets pass.
pub fn passing_sets(
    alloc: Global,
    ports: u32,
    rows: &[(u64, u32)],
) -> Result<Vec<Vec<(Num, Num)>>, NoMemory>
    requires { IsMac ports rows.now }
    ensures len { IfOk result (λ sets. length sets.items ≡ ports) }
    ensures sets { IfOk result (λ sets. SetsFor Mac (λ a. lets Mac (mac_port rows.now a)) 0 (lists sets.items)) }
{
    sets_grow();
    let unknown = unknown(alloc, rows)?;
    let mut sets = Vec::new(alloc);
    for port in 0..ports {
        sets.push(passing_ranges(alloc, rows, port, &unknown)?)?;
    }
    Ok(sets)
}
