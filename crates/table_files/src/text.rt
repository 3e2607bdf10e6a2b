//! The text of the node of a table's file. In style chain it is made without the node.

ghost use Rattle.std.specs.Prelude.{◌≡◌, IfOk, IfErr, string_bytes};
ghost use Rattle.sefl_syntax.specs.NetText.{node_text};
ghost use Rattle.sefl_syntax.specs.NetWords.{kind_text};
ghost use Rattle.sefl_syntax.specs.Trees.{NodeTree};
ghost use Rattle.sefl_syntax.specs.declared.net.TableKind.TheVariants.{Mac, Fib};
ghost use Rattle.mac_model.specs.Nodes.{IsMacNode};
ghost use Rattle.fib_model.specs.Nodes.{IsFibNode};
ghost use Rattle.table_files.specs.FileNodes.{IsFileFault, IsNodeOf};

use crate::chain::chain_text;
use crate::node::{FileFault, file_fault, file_node};
use fib_model::{Fib as FibTable, read_fib};
use mac_model::{MacTable, read_mac};
use sefl_syntax::{Name, Style, TableKind, print_node};
use sn_width::NoMemory;
use std::alloc::Global;
use table_nodes::{Field, cell, named};

/// The name of the node that is printed.
fn node_name(alloc: Global, kind: TableKind) -> Result<Name, NoMemory>
    ensures { IfOk result (λ name. name ≡ kind_text kind) }
{
    match kind {
        TableKind::Mac => named(alloc, "mac"),
        TableKind::Fib => named(alloc, "fib"),
    }
}

#[tactic(auto, using(crate::proofs::ChainLemmas::mac_chain_is))]
fn mac_chain(alloc: Global, table: &MacTable) -> Result<String, NoMemory>
    ensures { IfOk result (λ text. (node : NodeTree) × IsMacNode table.now Style.Chain node
        × (string_bytes text ≡ node_text (kind_text Mac) node)) }
{
    let name = node_name(alloc, TableKind::Mac)?;
    let cell = cell(alloc, Field::FrameDestination)?;
    let rows = table.chain_rows(alloc)?;
    chain_text(alloc, &name, TableKind::Mac, &cell, table.ports(), &rows)
}

#[tactic(auto, using(crate::proofs::ChainLemmas::fib_chain_is))]
fn fib_chain(alloc: Global, table: &FibTable) -> Result<String, NoMemory>
    ensures { IfOk result (λ text. (node : NodeTree) × IsFibNode table.now Style.Chain node
        × (string_bytes text ≡ node_text (kind_text Fib) node)) }
{
    let name = node_name(alloc, TableKind::Fib)?;
    let cell = cell(alloc, Field::DestinationAddress)?;
    let rows = table.chain_rows(alloc)?;
    chain_text(alloc, &name, TableKind::Fib, &cell, table.ports(), &rows)
}

#[tactic(auto, using(crate::proofs::ChainLemmas::mac_file_is))]
fn mac_file_chain(alloc: Global, bytes: &[u8]) -> Result<String, FileFault>
    ensures text { IfOk result (λ text. (node : NodeTree) × IsNodeOf Mac bytes.now Style.Chain node
        × (string_bytes text ≡ node_text (kind_text Mac) node)) }
    ensures fails { IfErr result (IsFileFault Mac bytes.now) }
{
    match read_mac(alloc, bytes) {
        Ok(table) => Ok(mac_chain(alloc, &table)?),
        Err(fault) => Err(file_fault(fault)),
    }
}

#[tactic(auto, using(crate::proofs::ChainLemmas::fib_file_is))]
fn fib_file_chain(alloc: Global, bytes: &[u8]) -> Result<String, FileFault>
    ensures text { IfOk result (λ text. (node : NodeTree) × IsNodeOf Fib bytes.now Style.Chain node
        × (string_bytes text ≡ node_text (kind_text Fib) node)) }
    ensures fails { IfErr result (IsFileFault Fib bytes.now) }
{
    match read_fib(alloc, bytes) {
        Ok(table) => Ok(fib_chain(alloc, &table)?),
        Err(fault) => Err(file_fault(fault)),
    }
}

/// The text in style chain.
fn file_chain(alloc: Global, kind: TableKind, bytes: &[u8]) -> Result<String, FileFault>
    ensures text { IfOk result (λ text. (node : NodeTree) × IsNodeOf kind bytes.now Style.Chain node
        × (string_bytes text ≡ node_text (kind_text kind) node)) }
    ensures fails { IfErr result (IsFileFault kind bytes.now) }
{
    match kind {
        TableKind::Mac => mac_file_chain(alloc, bytes),
        TableKind::Fib => fib_file_chain(alloc, bytes),
    }
}

/// The text of the node.
fn printed(alloc: Global, kind: TableKind, bytes: &[u8], style: Style) -> Result<String, FileFault>
    ensures text { IfOk result (λ text. (node : NodeTree) × IsNodeOf kind bytes.now style node
        × (string_bytes text ≡ node_text (kind_text kind) node)) }
    ensures fails { IfErr result (IsFileFault kind bytes.now) }
{
    let node = file_node(alloc, kind, bytes, style)?;
    let name = node_name(alloc, kind)?;
    Ok(print_node(alloc, &name, &node)?)
}

/// The canonical text of the node, in a style, of the table whose file has these bytes. The node is named by the kind.
pub fn file_text(
    alloc: Global,
    kind: TableKind,
    bytes: &[u8],
    style: Style,
) -> Result<String, FileFault>
    ensures text { IfOk result (λ text. (node : NodeTree) × IsNodeOf kind bytes.now style node
        × (string_bytes text ≡ node_text (kind_text kind) node)) }
    ensures fails { IfErr result (IsFileFault kind bytes.now) }
{
    match style {
        Style::Chain => file_chain(alloc, kind, bytes),
        style => printed(alloc, kind, bytes, style),
    }
}
