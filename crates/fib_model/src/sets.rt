//! For each port the ranges of the addresses that a table sends to it.

ghost use Rattle.std.specs.Prelude.{◌≡◌, ℕ, ◌<◌, ◌≤◌, ◌&&◌, nat_lt, length, map, IfOk, All};
ghost use Rattle.sn_ranges.specs.Ranges.{is_member};
ghost use Rattle.fib_model.specs.Prefixes.{Distinct, IsRow, fib_port, order_key, span_of};
ghost use Rattle.fib_model.specs.Sweeps.{AreOrdered, set_at};
ghost use Rattle.table_nodes.specs.TableNodes.{is_port};

use crate::sweep::{Span, sets_of};
use sn_width::{NoMemory, Num};
use std::alloc::Global;

/// The addresses of a row: an address, a length and a port.
fn span_of(row: (u64, u32, u32)) -> Span
    requires length { row.1 ≤ 32 }
    ensures { result ≡ span_of row }
{
    let size: Num = 1 << (32 - row.1);
    let first = Num::from(row.0);
    Span {
        first,
        last: first + size - 1,
        port: row.2 as usize,
    }
}

/// By the address, and then by the length.
fn order_key(row: (u64, u32, u32)) -> Num
    ensures { result ≡ order_key row }
{
    Num::from(row.0) * 64 + Num::from(row.1)
}

fn spans_of(alloc: Global, rows: &[(u64, u32, u32)]) -> Result<Vec<Span>, NoMemory>
    requires { All (λ row. row.1 ≤ 32) rows.now }
    ensures { IfOk result (λ spans. spans.items ≡ map span_of rows.now) }
{
    let mut spans = Vec::new(alloc);
    for row in rows {
        spans.push(span_of(*row))?;
    }
    Ok(spans)
}

/// For each port the ranges of the addresses that the rows send to it, by their longest prefixes.
pub fn fib_sets(
    alloc: Global,
    ports: usize,
    rows: &[(u64, u32, u32)],
) -> Result<Vec<Vec<(Num, Num)>>, NoMemory>
    requires rows { All IsRow rows.now }
    requires ports { All (λ row. row.2 < ports) rows.now }
    requires distinct { Distinct rows.now }
    ensures len { IfOk result (λ sets. length sets.items ≡ ports) }
    ensures ordered { IfOk result (λ sets. AreOrdered sets.items) }
    ensures sets { IfOk result (λ sets. (a q : ℕ) → is_member (set_at sets.items q) a
        ≡ (nat_lt a 4294967296 && is_port (fib_port rows.now a) q)) }
{
    let mut ordered = Vec::from_slice(alloc, rows)?;
    ordered.sort_unstable_by_key(|row| order_key(*row));
    let spans = spans_of(alloc, &ordered)?;
    sets_of(alloc, ports, &spans, 4294967296)
}
