//! What the nodes of tables test.

ghost use Rattle.std.specs.Prelude.{◌≡◌, IfOk};
ghost use Rattle.table_nodes.specs.TableNodes.{address_field, destination, bits_of};

use crate::field::{Field, cell, width_of};
use sefl_syntax::{TableKind, Target};
use sn_width::{NoMemory, Width};
use std::alloc::Global;

/// The field that has the addresses of a table.
fn address_field(kind: TableKind) -> Field
    ensures { result ≡ address_field kind }
{
    match kind {
        TableKind::Mac => Field::FrameDestination,
        TableKind::Fib => Field::DestinationAddress,
    }
}

pub(crate) fn destination(alloc: Global, kind: TableKind) -> Result<Target, NoMemory>
    ensures { IfOk result (λ target. target ≡ destination kind) }
{
    cell(alloc, address_field(kind))
}

/// The width of an address.
pub(crate) fn bits_of(kind: TableKind) -> Width
    ensures { result ≡ bits_of kind }
{
    match kind {
        TableKind::Mac => width_of(48),
        TableKind::Fib => width_of(32),
    }
}
