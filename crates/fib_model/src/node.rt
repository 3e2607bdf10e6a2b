//! The nodes of forwarding tables.

ghost use Rattle.std.specs.Prelude.{◌≡◌, ℕ, ◌<◌, ◌^◌, ◌≤◌, [], IsPermutation, IfOk, All};
ghost use Rattle.std.specs.List.Sorted.{IsNonDecreasingBy};
ghost use Rattle.sefl_syntax.specs.Views.{node_tree};
ghost use Rattle.table_nodes.specs.Exits.{exits};
ghost use Rattle.table_nodes.specs.TableNodes.{port_or};
ghost use Rattle.fib_model.specs.Prefixes.{fib_port};
ghost use Rattle.fib_model.specs.Fibs.{IsFib};
ghost use Rattle.fib_model.specs.Nodes.{IsFibNode, chain_key};

use crate::fib::Fib;
use crate::least::least_sets;
use sefl_syntax::{RawNode, Style, TableKind};
use sn_width::{NoMemory, Num};
use std::alloc::Global;
use table_nodes::laws::nodes_send_as_their_tables;
use table_nodes::{chain_node, egress_node, grouped_node};

/// By descending length, and then by ascending address.
fn chain_key(row: (u64, u32, u32)) -> Num
    ensures { result ≡ chain_key row }
{
    let bits: u32 = 32;
    Num::from(bits.saturating_sub(row.1)) * 4_294_967_296 + Num::from(row.0)
}

fn longest_first(alloc: Global, rows: &[(u64, u32, u32)]) -> Result<Vec<(u64, u32, u32)>, NoMemory>
    ensures same { IfOk result (λ ordered. IsPermutation rows.now ordered.items) }
    ensures order { IfOk result (λ ordered. IsNonDecreasingBy chain_key ordered.items) }
{
    let mut ordered = Vec::from_slice(alloc, rows)?;
    ordered.sort_unstable_by_key(|row| chain_key(*row));
    Ok(ordered)
}

impl Fib {
    /// The rows in the order of style chain: by descending length, and then by ascending address.
    pub fn chain_rows(&self, alloc: Global) -> Result<Vec<(u64, u32, u32)>, NoMemory>
        ensures same { IfOk result (λ ordered. IsPermutation self.now.rows ordered.items) }
        ensures order { IfOk result (λ ordered. IsNonDecreasingBy chain_key ordered.items) }
        ensures lengths { IfOk result (λ ordered. All (λ row. row.1 ≤ 32) ordered.items) }
    {
        longest_first(alloc, &self.rows)
    }
}

fn chain(alloc: Global, ports: u32, rows: &[(u64, u32, u32)]) -> Result<RawNode, NoMemory>
    requires { IsFib ports rows.now }
    ensures { IfOk result (λ node. IsFibNode (record { ports = ports; rows = rows.now }) Style.Chain (node_tree node)) }
{
    let ordered = longest_first(alloc, rows)?;
    chain_node(alloc, TableKind::Fib, ports, &ordered)
}

fn grouped(alloc: Global, ports: u32, rows: &[(u64, u32, u32)]) -> Result<RawNode, NoMemory>
    requires { IsFib ports rows.now }
    ensures { IfOk result (λ node. IsFibNode (record { ports = ports; rows = rows.now }) Style.Grouped
        (node_tree node)) }
{
    let sets = least_sets(alloc, ports, rows)?;
    grouped_node(alloc, TableKind::Fib, ports, &sets)
}

fn egress(alloc: Global, ports: u32, rows: &[(u64, u32, u32)]) -> Result<RawNode, NoMemory>
    requires { IsFib ports rows.now }
    ensures { IfOk result (λ node. IsFibNode (record { ports = ports; rows = rows.now }) Style.Egress
        (node_tree node)) }
{
    let sets = least_sets(alloc, ports, rows)?;
    egress_node(alloc, TableKind::Fib, ports, &sets)
}

fn node_of(
    alloc: Global,
    ports: u32,
    rows: &[(u64, u32, u32)],
    style: Style,
) -> Result<RawNode, NoMemory>
    requires { IsFib ports rows.now }
    ensures { IfOk result (λ node. IsFibNode (record { ports = ports; rows = rows.now }) style (node_tree node)) }
{
    match style {
        Style::Chain => chain(alloc, ports, rows),
        Style::Grouped => grouped(alloc, ports, rows),
        Style::Egress => egress(alloc, ports, rows),
    }
}

/// The node of a forwarding table, which sends each address by its longest prefix, and one without a
/// prefix nowhere.
pub fn fib_node(alloc: Global, fib: &Fib, style: Style) -> Result<RawNode, NoMemory>
    ensures node { IfOk result (λ node. IsFibNode fib.now style (node_tree node)) }
    ensures exits { IfOk result (λ node. (address : ℕ) → address < 2 ^ 32
        → exits (node_tree node) address ≡ port_or [] (fib_port fib.now.rows address)) }
{
    nodes_send_as_their_tables();
    node_of(alloc, fib.ports, &fib.rows, style)
}
