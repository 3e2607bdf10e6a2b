//! The least ranges of each port.

ghost use Rattle.std.specs.Prelude.{◌≡◌, ℕ, ◌<◌, ◌≤◌, ◌^◌, length, All, IfOk};
ghost use Rattle.sn_ranges.specs.Ranges.{IsCanonical};
ghost use Rattle.sefl_syntax.specs.declared.net.TableKind.TheVariants.{Fib};
ghost use Rattle.table_nodes.specs.Codes.{lists};
ghost use Rattle.table_nodes.specs.Exits.{lies_in};
ghost use Rattle.table_nodes.specs.TableNodes.{SetsFor, is_port};
ghost use Rattle.fib_model.specs.Prefixes.{Distinct, IsRow, fib_port};
ghost use Rattle.fib_model.specs.Sweeps.{set_at};

use crate::sets::fib_sets;
use sefl_syntax::TableKind;
use sn_width::{NoMemory, Num};
use std::alloc::Global;
use table_nodes::laws::sets_grow;
use table_nodes::{address_set, ranges_of};

/// The ranges of a port.
fn raw_of(sets: &[Vec<(Num, Num)>], port: usize) -> &[(Num, Num)]
    ensures { result.now ≡ set_at sets.now port }
{
    match sets.get(port) {
        Some(ranges) => ranges,
        None => &[],
    }
}

/// The least list of ranges of the addresses in any of the pairs.
fn least(alloc: Global, list: &[(Num, Num)]) -> Result<Vec<(Num, Num)>, NoMemory>
    requires { All (λ pair. (pair.0 ≤ pair.1) × (pair.1 < 2 ^ 32)) list.now }
    ensures canonical { IfOk result (λ ranges. IsCanonical 32 ranges.items) }
    ensures members { IfOk result (λ ranges. (a : ℕ) → lies_in a ranges.items ≡ lies_in a list.now) }
{
    let set = address_set(alloc, TableKind::Fib, list)?;
    ranges_of(alloc, &set)
}

/// For each port the least list of ranges of the addresses that the rows send to it.
pub fn least_sets(
    alloc: Global,
    ports: u32,
    rows: &[(u64, u32, u32)],
) -> Result<Vec<Vec<(Num, Num)>>, NoMemory>
    requires rows { All IsRow rows.now }
    requires ports { All (λ row. row.2 < ports) rows.now }
    requires distinct { Distinct rows.now }
    ensures len { IfOk result (λ sets. length sets.items ≡ ports) }
    ensures sets { IfOk result (λ sets. SetsFor Fib (λ a. is_port (fib_port rows.now a)) 0 (lists sets.items)) }
{
    sets_grow();
    let raw = fib_sets(alloc, ports as usize, rows)?;
    let mut sets = Vec::new(alloc);
    for port in 0..ports {
        sets.push(least(alloc, raw_of(&raw, port as usize))?)?;
    }
    Ok(sets)
}
