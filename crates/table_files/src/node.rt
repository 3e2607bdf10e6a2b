//! The node of a table's file.

ghost use Rattle.std.specs.Prelude.{◌≡◌, IfOk, IfErr};
ghost use Rattle.sefl_syntax.specs.Views.{node_tree};
ghost use Rattle.sefl_syntax.specs.declared.net.TableKind.TheVariants.{Mac, Fib};
ghost use Rattle.table_files.specs.FileNodes.{IsFileFault, IsNodeOf, file_fault};

use fib_model::{fib_node, read_fib};
use mac_model::{mac_node, read_mac};
use sefl_syntax::{RawNode, Style, TableKind};
use sn_width::NoMemory;
use std::alloc::Global;
use table_lines::TableFault;

/// Why a table's file gives no node. Lines count from 1.
#[derive(Drop)]
pub enum FileFault {
    /// The line is the first that breaks a rule. The kind is 1 for a line that is no row, 2 for a row that an earlier one
    /// contradicts, and 3 for the first row past the limit.
    Bad { line: u64, kind: u8 },
    NoMemory,
}

impl From<NoMemory> for FileFault {
    ghost use Rattle.std.specs.Prelude.{◌≡◌};
    ghost use Rattle.table_files.specs.declared.node.FileFault.TheVariants.{NoMemory as OutOfMemory};

    ghost from_gives = { λ _ fault. fault ≡ OutOfMemory };

    fn from(_error: NoMemory) -> FileFault {
        FileFault::NoMemory
    }
}

pub(crate) fn file_fault(fault: TableFault) -> FileFault
    ensures { result ≡ file_fault fault }
{
    match fault {
        TableFault::BadLine { line } => FileFault::Bad { line, kind: 1 },
        TableFault::Conflict { line, .. } => FileFault::Bad { line, kind: 2 },
        TableFault::Limit { line } => FileFault::Bad { line, kind: 3 },
        TableFault::NoMemory => FileFault::NoMemory,
    }
}

fn mac_file_node(alloc: Global, bytes: &[u8], style: Style) -> Result<RawNode, FileFault>
    ensures node { IfOk result (λ node. IsNodeOf Mac bytes.now style (node_tree node)) }
    ensures fails { IfErr result (IsFileFault Mac bytes.now) }
{
    match read_mac(alloc, bytes) {
        Ok(table) => Ok(mac_node(alloc, &table, style)?),
        Err(fault) => Err(file_fault(fault)),
    }
}

fn fib_file_node(alloc: Global, bytes: &[u8], style: Style) -> Result<RawNode, FileFault>
    ensures node { IfOk result (λ node. IsNodeOf Fib bytes.now style (node_tree node)) }
    ensures fails { IfErr result (IsFileFault Fib bytes.now) }
{
    match read_fib(alloc, bytes) {
        Ok(table) => Ok(fib_node(alloc, &table, style)?),
        Err(fault) => Err(file_fault(fault)),
    }
}

/// The node, in a style, of the table whose file has these bytes.
pub fn file_node(
    alloc: Global,
    kind: TableKind,
    bytes: &[u8],
    style: Style,
) -> Result<RawNode, FileFault>
    ensures node { IfOk result (λ node. IsNodeOf kind bytes.now style (node_tree node)) }
    ensures fails { IfErr result (IsFileFault kind bytes.now) }
{
    match kind {
        TableKind::Mac => mac_file_node(alloc, bytes, style),
        TableKind::Fib => fib_file_node(alloc, bytes, style),
    }
}
