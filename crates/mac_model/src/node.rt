//! The nodes of MAC tables.

ghost use Rattle.std.specs.Prelude.{◌≡◌, ℕ, ◌<◌, ◌^◌, List, IsPermutation, IfOk, map};
ghost use Rattle.std.specs.List.Sorted.{IsNonDecreasingBy};
ghost use Rattle.sefl_syntax.specs.Views.{node_tree};
ghost use Rattle.table_nodes.specs.Exits.{exits};
ghost use Rattle.table_nodes.specs.TableNodes.{port_or, ports_from};
ghost use Rattle.mac_model.specs.MacTables.{IsMac, Row};
ghost use Rattle.mac_model.specs.Nodes.{IsMacNode, address_key, mac_port, whole};

use crate::sets::{own_sets, passing_sets};
use crate::table::MacTable;
use sefl_syntax::{RawNode, Style, TableKind};
use sn_width::NoMemory;
use std::alloc::Global;
use table_nodes::laws::nodes_send_as_their_tables;
use table_nodes::{chain_node, egress_node, grouped_node};

/// The rows by ascending address.
fn in_order(alloc: Global, rows: &[(u64, u32)]) -> Result<Vec<(u64, u32)>, NoMemory>
    ensures same { IfOk result (λ ordered. IsPermutation rows.now ordered.items) }
    ensures order { IfOk result (λ ordered. IsNonDecreasingBy address_key ordered.items) }
{
    let mut ordered = Vec::from_slice(alloc, rows)?;
    ordered.sort_unstable_by_key(|row| row.0);
    Ok(ordered)
}

fn whole_rows(alloc: Global, rows: &[(u64, u32)]) -> Result<Vec<(u64, u32, u32)>, NoMemory>
    ensures { IfOk result (λ wholes. wholes.items ≡ map whole rows.now) }
{
    let mut wholes = Vec::new(alloc);
    for row in rows {
        wholes.push((row.0, 48, row.1))?;
    }
    Ok(wholes)
}

impl MacTable {
    /// The rows in the order of style chain, by ascending address: the address, its 48 bits, and the port.
    #[tactic(auto, using(crate::proofs::NodeLemmas::wholes_are))]
    pub fn chain_rows(&self, alloc: Global) -> Result<Vec<(u64, u32, u32)>, NoMemory>
        ensures { IfOk result (λ wholes. (ordered : List Row) × IsPermutation self.now.rows ordered
            × IsNonDecreasingBy address_key ordered × (wholes.items ≡ map whole ordered)) }
    {
        let ordered = in_order(alloc, &self.rows)?;
        whole_rows(alloc, &ordered)
    }
}

fn chain(alloc: Global, ports: u32, rows: &[(u64, u32)]) -> Result<RawNode, NoMemory>
    requires { IsMac ports rows.now }
    ensures { IfOk result (λ node. IsMacNode (record { ports = ports; rows = rows.now }) Style.Chain (node_tree node)) }
{
    let ordered = in_order(alloc, rows)?;
    let wholes = whole_rows(alloc, &ordered)?;
    chain_node(alloc, TableKind::Mac, ports, &wholes)
}

fn grouped(alloc: Global, ports: u32, rows: &[(u64, u32)]) -> Result<RawNode, NoMemory>
    requires { IsMac ports rows.now }
    ensures { IfOk result (λ node. IsMacNode (record { ports = ports; rows = rows.now }) Style.Grouped
        (node_tree node)) }
{
    let sets = own_sets(alloc, ports, rows)?;
    grouped_node(alloc, TableKind::Mac, ports, &sets)
}

fn egress(alloc: Global, ports: u32, rows: &[(u64, u32)]) -> Result<RawNode, NoMemory>
    requires { IsMac ports rows.now }
    ensures { IfOk result (λ node. IsMacNode (record { ports = ports; rows = rows.now }) Style.Egress
        (node_tree node)) }
{
    let sets = passing_sets(alloc, ports, rows)?;
    egress_node(alloc, TableKind::Mac, ports, &sets)
}

fn node_of(
    alloc: Global,
    ports: u32,
    rows: &[(u64, u32)],
    style: Style,
) -> Result<RawNode, NoMemory>
    requires { IsMac ports rows.now }
    ensures { IfOk result (λ node. IsMacNode (record { ports = ports; rows = rows.now }) style (node_tree node)) }
{
    match style {
        Style::Chain => chain(alloc, ports, rows),
        Style::Grouped => grouped(alloc, ports, rows),
        Style::Egress => egress(alloc, ports, rows),
    }
}

/// The node of a MAC table, which sends an address to its row's port, and one without a row to all ports.
pub fn mac_node(alloc: Global, table: &MacTable, style: Style) -> Result<RawNode, NoMemory>
    ensures node { IfOk result (λ node. IsMacNode table.now style (node_tree node)) }
    ensures exits { IfOk result (λ node. (address : ℕ) → address < 2 ^ 48
        → exits (node_tree node) address ≡ port_or (ports_from 0 table.now.ports) (mac_port table.now.rows address)) }
{
    nodes_send_as_their_tables();
    node_of(alloc, table.ports, &table.rows, style)
}
